// Assignments: clauses are tried in order, and only the chosen expression is worked out.
ghost use Rattle.std.specs.Prelude.{◌≡◌, ◌<◌, ◌≤◌, set, take};
ghost use Rattle.value.specs.Limits.{most_tokens};
ghost use Rattle.value.specs.Worked.{truth};
ghost use Rattle.cell_meaning.specs.Evaluation.{in_field};
ghost use Rattle.cell_meaning.specs.Promises.Stands.{first_clause};
ghost use Rattle.cell_operands.specs.Promises.Scene.{table, env, In};
ghost use Rattle.cell_operands.specs.Promises.Working.{EvalsExpression};
ghost use Rattle.cell_statements.specs.Promises.Running.{field_range, Stores, AssignsOne, Guards, Assigns};

use crate::Flow;
use cell_expressions::expression::{chain, quick};
use cell_expressions::simple::simple;
use cell_operands::Evaluated;
use cell_operands::scene::Scene;
use cell_operands::table::word_at;
use program::reply::{Reason, Refusal};
use token::kind;
use value::Value;
use value::limits::{MOST_NAMES, MOST_OPEN};

// Whether a value counts as true: it is not 0.
pub fn is_true(v: Value) -> bool
    ensures { result ≡ truth v.n }
{
    v.n != 0
}

// Stores a variable's value, if there are so many slots.
fn put_variable(scene: &Scene, vars: &mut [i32; MOST_NAMES], which: usize, v: Value)
    ensures { take scene.now.site.slots vars.new ≡ set (take scene.now.site.slots vars.old) which v.n }
{
    if which < scene.site.slots {
        let n = v.n;
        vars[which] = n;
    }
}

// Stores a field's value, if there is such a field.
fn put_field(next: &mut [i32], which: usize, v: Value)
    ensures { next.new ≡ set next.old which v.n }
{
    if which < next.len() {
        let n = v.n;
        next[which] = n;
    }
}

// Whether a value is in the range of a field; that of no field is 0 alone.
fn fits_field(scene: &Scene, which: usize, v: Value) -> bool
    ensures { result ≡ in_field (field_range (env scene.now) which) v.n }
{
    if which < scene.site.fields {
        let at = scene.site.base + which;
        let low = Value::decode(scene.word(2, at));
        return v.within(low, Value::decode(scene.word(3, at)));
    }
    v.within(Value { n: 0 }, Value { n: 0 })
}

// Stores a value in the target of the assignment at a position; `here` is the position of the `:=` before the value.
#[inline(always)]
fn put(
    scene: &Scene,
    vars: &mut [i32; MOST_NAMES],
    next: &mut [i32],
    at: usize,
    here: usize,
    v: Value,
) -> Result<Flow, Refusal>
    ensures { Stores (table scene.now) (env scene.now) at here v.n (take scene.now.site.slots vars.old) next.old (take scene.now.site.slots vars.new) next.new result }
{
    let which = scene.word(2, at) as usize;
    if scene.kind(at) == kind::CELL {
        if fits_field(scene, which, v) {
            put_field(next, which, v);
            return Ok(Flow::On);
        }
        return Err(Refusal::new(Reason::AssignedValue, scene.place(here)));
    }
    put_variable(scene, vars, which, v);
    Ok(Flow::On)
}

// The expression at a position: in one loop where that can be, else by every way that an expression can go.
#[inline(always)]
fn long(
    scene: &Scene,
    vars: &[i32; MOST_NAMES],
    index: &[i32; MOST_OPEN],
    at: usize,
) -> Result<Evaluated, Refusal>
    requires { at ≤ scene.now.site.tokens }
    ensures { In EvalsExpression scene.now vars.now index.now at 1 result }
{
    match quick(scene, vars, index, at, 1) {
        Some(done) => Ok(done),
        None => chain(scene, vars, index, at, 1),
    }
}

// The expression at a position.
#[inline(always)]
pub fn evaluated(
    scene: &Scene,
    vars: &[i32; MOST_NAMES],
    index: &[i32; MOST_OPEN],
    at: usize,
) -> Result<Evaluated, Refusal>
    requires { at ≤ scene.now.site.tokens }
    ensures { In EvalsExpression scene.now vars.now index.now at 1 result }
{
    match simple(scene, vars, index, at) {
        Some(done) => Ok(done),
        None => long(scene, vars, index, at),
    }
}

// The clause at a `:=`, for the assignment at a position: its expression is worked out and stored.
fn assign_one(
    scene: &Scene,
    vars: &mut [i32; MOST_NAMES],
    index: &[i32; MOST_OPEN],
    next: &mut [i32],
    at: usize,
    here: usize,
) -> Result<Flow, Refusal>
    requires { (here < scene.now.site.tokens) × (here < most_tokens) }
    ensures { AssignsOne (table scene.now) (env scene.now) (take scene.now.depth index.now) at here (take scene.now.site.slots vars.old) next.old (take scene.now.site.slots vars.new) next.new result }
{
    // No `?` here: it moves the refusal as one word, across two that the value and the refusal share, and each value waits for that.
    let right = match evaluated(scene, vars, index, here + 1) {
        Ok(right) => right,
        Err(Refusal { number, place }) => return Err(Refusal { number, place }),
    };
    put(scene, vars, next, at, here, right.value)
}

// Whether the condition of the clause at a `:=` holds; a clause without one is chosen.
fn guard(
    scene: &Scene,
    vars: &[i32; MOST_NAMES],
    index: &[i32; MOST_OPEN],
    here: usize,
) -> Result<bool, Refusal>
    requires { here < scene.now.site.tokens }
    ensures { Guards (table scene.now) (env scene.now) (take scene.now.depth index.now) here (take scene.now.site.slots vars.now) result }
{
    if scene.word(2, here) == 0 {
        return Ok(true);
    }
    // No `?`, as in `assign_one`.
    let condition = match evaluated(scene, vars, index, scene.inner(here)) {
        Ok(condition) => condition,
        Err(Refusal { number, place }) => return Err(Refusal { number, place }),
    };
    Ok(is_true(condition.value))
}

// The position of the first `:=` of the assignment at a position.
fn clause_of(scene: &Scene, at: usize) -> usize
    requires { at < scene.now.site.tokens }
    ensures { result ≡ first_clause (table scene.now) at }
{
    if word_at(scene.words, scene.site.tokens, 0, at + 1) == kind::DOT {
        return at + 3;
    }
    at + 1
}

// The assignment at a position.
pub fn assignment(
    scene: &Scene,
    vars: &mut [i32; MOST_NAMES],
    index: &[i32; MOST_OPEN],
    next: &mut [i32],
    at: usize,
) -> Result<Flow, Refusal>
    requires { at < scene.now.site.tokens }
    ensures { Assigns (table scene.now) (env scene.now) (take scene.now.depth index.now) at (take scene.now.site.slots vars.old) next.old (take scene.now.site.slots vars.new) next.new result }
{
    let mut here = clause_of(scene, at);
    while scene.kind(here) == kind::ASSIGN {
        if guard(scene, vars, index, here)? {
            return assign_one(scene, vars, index, next, at, here);
        }
        here = scene.past(here);
    }
    Ok(Flow::On)
}
