// Lists of statements, choices and loops. The evaluators of lists, statements and loops call each other in a cycle.
ghost use Rattle.std.specs.Prelude.{◌≡◌, ◌<◌, ◌≤◌, length, set, take, pos, ◌+ℤ◌};
ghost use Rattle.value.specs.Limits.{most_turns};
ghost use Rattle.value.specs.Worked.{span_of};
ghost use Rattle.token.specs.Kind.{keyword};
ghost use Rattle.cell_meaning.specs.Links.{begins};
ghost use Rattle.cell_operands.specs.Promises.Scene.{table, env};
ghost use Rattle.cell_statements.specs.Promises.Running.{RunsBlock, RunsStatement, Chooses, RunsLoop};

use crate::Flow;
use crate::assignment::{assignment, evaluated, is_true};
use cell_operands::scene::Scene;
use program::reply::Refusal;
use token::kind;
use value::Value;
use value::limits::{MOST_NAMES, MOST_OPEN, MOST_TURNS};

// Whether a token of this kind begins a statement.
pub fn begins(kind: u32) -> bool
    ensures { result ≡ begins kind }
{
    if kind == kind::NAME {
        return true;
    }
    if kind == kind::CELL {
        return true;
    }
    if kind == kind::IF_WORD {
        return true;
    }
    if kind == kind::FORALL_WORD {
        return true;
    }
    if kind == kind::EXIT_WORD {
        return true;
    }
    kind == kind::CONST_WORD
}

// Sets the index variable of the loop at a depth to the k-th value of its range.
fn set_index(index: &mut [i32], depth: usize, low: Value, high: Value, k: u64)
    requires { (depth < length index.old) × (k < span_of low.n high.n) × (k < most_turns) }
    ensures { (index.new ≡ set index.old depth (low.n +ℤ pos k)) × (depth < length index.old) }
{
    let v = low.offset(k as u32);
    let n = v.n;
    index[depth] = n;
}

// The choice at an `if`: its arms are tried in order. The position of the statements with which it goes on, if there are any.
fn choose(
    scene: &Scene,
    vars: &[i32; MOST_NAMES],
    index: &[i32; MOST_OPEN],
    at: usize,
) -> Result<Option<usize>, Refusal>
    requires { at < scene.now.site.tokens }
    ensures { Chooses (table scene.now) (env scene.now) (take scene.now.depth index.now) scene.now.depth scene.now.site.tokens at (take scene.now.site.slots vars.now) result }
{
    let n = scene.tokens();
    let mut arm = at;
    loop {
        // No `?`, as in `assign_one`.
        let condition = match evaluated(scene, vars, index, arm + 1) {
            Ok(condition) => condition,
            Err(Refusal { number, place }) => return Err(Refusal { number, place }),
        };
        if is_true(condition.value) {
            if condition.next < n {
                return Ok(Some(condition.next + 1));
            }
            return Ok(None);
        }
        let other = scene.inner(arm);
        let kind = scene.kind(other);
        if kind == kind::ELSE_WORD {
            return Ok(Some(other + 1));
        }
        if kind != kind::ELSIF_WORD {
            return Ok(None);
        }
        arm = other;
    }
}

// The statements from a position on, to the end of their list. At an `if`, the position after it is kept on a stack, and the statements that are chosen come next; where the stack is full, they are run by a call.
#[cycle(statements)]
pub fn block(
    scene: &Scene,
    vars: &mut [i32; MOST_NAMES],
    index: &mut [i32; MOST_OPEN],
    next: &mut [i32],
    at: usize,
) -> Result<Flow, Refusal>
    requires { at ≤ scene.now.site.tokens }
    ensures { RunsBlock (table scene.now) (env scene.now) scene.now.depth at (take scene.now.site.slots vars.old) next.old index.old (take scene.now.site.slots vars.new) next.new index.new result }
{
    let mut ends = [0u32; MOST_OPEN];
    let mut top: usize = 0;
    let mut here = at;
    loop {
        let kind = scene.kind(here);
        if kind == kind::IF_WORD {
            let past = scene.past(here);
            match choose(scene, vars, index, here)? {
                Some(m) => {
                    if top < MOST_OPEN {
                        ends[top] = past as u32;
                        top += 1;
                        here = m;
                    } else {
                        match block(scene, vars, index, next, m)? {
                            Flow::On => here = past,
                            Flow::Leaving => return Ok(Flow::Leaving),
                        }
                    }
                }
                None => here = past,
            }
        } else if begins(kind) {
            match statement(scene, vars, index, next, here)? {
                Flow::On => here = scene.past(here),
                Flow::Leaving => return Ok(Flow::Leaving),
            }
        } else {
            if top == 0 {
                return Ok(Flow::On);
            }
            top -= 1;
            here = ends[top] as usize;
        }
    }
}

// The statement at a position, whose kind begins one, but for `if`.
#[cycle(statements)]
fn statement(
    scene: &Scene,
    vars: &mut [i32; MOST_NAMES],
    index: &mut [i32; MOST_OPEN],
    next: &mut [i32],
    at: usize,
) -> Result<Flow, Refusal>
    requires { (at < scene.now.site.tokens) × ((table scene.now).kind at ≡ keyword.if → ⊥) }
    ensures { RunsStatement (table scene.now) (env scene.now) scene.now.depth at (take scene.now.site.slots vars.old) next.old index.old (take scene.now.site.slots vars.new) next.new index.new result }
{
    let kind = scene.kind(at);
    if kind == kind::FORALL_WORD {
        return forall(scene, vars, index, next, at);
    }
    if kind == kind::EXIT_WORD {
        return Ok(Flow::Leaving);
    }
    if kind == kind::CONST_WORD {
        return Ok(Flow::On);
    }
    assignment(scene, vars, index, next, at)
}

// The loop at a `forall`.
#[cycle(statements)]
fn forall(
    scene: &Scene,
    vars: &mut [i32; MOST_NAMES],
    index: &mut [i32; MOST_OPEN],
    next: &mut [i32],
    at: usize,
) -> Result<Flow, Refusal>
    requires { at < scene.now.site.tokens }
    ensures { RunsLoop (table scene.now) (env scene.now) scene.now.depth at (take scene.now.site.slots vars.old) next.old index.old (take scene.now.site.slots vars.new) next.new index.new result }
{
    let depth = scene.depth();
    if MOST_OPEN <= depth {
        return Ok(Flow::On);
    }
    let inner = scene.deeper();
    let low = Value::decode(scene.word(2, at + 1));
    let high = Value::decode(scene.word(3, at + 1));
    let body = scene.inner(at);
    let count = low.span(high);
    if MOST_TURNS < count {
        return Ok(Flow::On);
    }
    for k in 0..count {
        set_index(index, depth, low, high, k);
        match block(&inner, vars, index, next, body)? {
            Flow::On => {}
            Flow::Leaving => return Ok(Flow::On),
        }
    }
    Ok(Flow::On)
}
