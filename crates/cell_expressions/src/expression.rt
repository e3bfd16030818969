// Expressions: operators by their levels, operands, and expressions in brackets. The evaluators call each other in a cycle.
ghost use Rattle.std.specs.Prelude.{◌≡◌, ◌<◌, ◌≤◌};
ghost use Rattle.value.specs.Limits.{most_tokens};
ghost use Rattle.cell_operands.specs.Promises.Scene.{table, In};
ghost use Rattle.cell_operands.specs.Promises.Working.{primary_from, short, EvalsExpression, EvalsOperand, EvalsPrimary, EvalsBracket, Leaf, Quick, Joins};

use cell_operands::Evaluated;
use cell_operands::operators::is_unary;
use cell_operands::scene::Scene;
use program::reply::Refusal;
use token::kind;
use token::kind::level_of;
use value::Value;
use value::limits::{MOST_NAMES, MOST_OPEN};

// What is returned where nothing that can be evaluated stands; it says nothing. In the table of an accepted source there is no such place.
const NOTHING: Refusal = Refusal {
    number: 0,
    place: 0,
};

// The value after an operator at a position, joined with the left one; the value itself, where there is no operator.
#[inline(always)]
fn joined(
    scene: &Scene,
    last: usize,
    op: u32,
    a: Value,
    b: Value,
    next: usize,
) -> Result<Evaluated, Refusal>
    ensures { Joins ((table scene.now).place last) op a.n b next result }
{
    if op == 0 {
        return Ok(Evaluated { value: b, next });
    }
    if op == kind::PLUS {
        if let Ok(value) = a.add(b) {
            return Ok(Evaluated { value, next });
        }
    }
    if op == kind::EQUAL {
        let value = a.equal(b);
        return Ok(Evaluated { value, next });
    }
    scene.operate(last, op, a, b, next)
}

// The operand at a position, if it is noted or is a leaf.
#[inline(always)]
fn short_operand(
    scene: &Scene,
    vars: &[i32; MOST_NAMES],
    index: &[i32; MOST_OPEN],
    at: usize,
) -> Option<Evaluated>
    requires { at ≤ scene.now.site.tokens }
    ensures { In Leaf scene.now vars.now index.now at (short result) }
{
    if let Some(noted) = scene.noted(vars, index, at) {
        return Some(noted);
    }
    scene.leaf(vars, index, at)
}

// The expression at a position, of operators of a level or tighter, if it has no parentheses, unary operators and array constants, no operator
// is tighter than the one before it, and there is no fault. At level 5 it is the primary, if that has no parentheses and no array constant.
#[inline(always)]
pub fn quick(
    scene: &Scene,
    vars: &[i32; MOST_NAMES],
    index: &[i32; MOST_OPEN],
    at: usize,
    level: u32,
) -> Option<Evaluated>
    requires { (1 ≤ level) × (at ≤ scene.now.site.tokens) }
    ensures { In Quick scene.now vars.now index.now at level (short result) }
{
    let mut left = Value { n: 0 };
    let mut op: u32 = 0;
    let mut own: u32 = 4;
    let mut last: usize = 0;
    let mut here = at;
    loop {
        let right = short_operand(scene, vars, index, here)?;
        let tight = scene.level(right.next);
        if own < tight {
            return None;
        }
        let Ok(done) = joined(scene, last, op, left, right.value, right.next) else {
            return None;
        };
        if tight < level {
            return Some(done);
        }
        left = done.value;
        op = scene.operator(right.next);
        own = tight;
        last = done.next;
        here = done.next + 1;
    }
}

// The expression at a position, of operators of a level or tighter.
#[cycle(expressions)]
fn expression(
    scene: &Scene,
    vars: &[i32; MOST_NAMES],
    index: &[i32; MOST_OPEN],
    at: usize,
    level: u32,
) -> Result<Evaluated, Refusal>
    requires { (1 ≤ level) × (at ≤ scene.now.site.tokens) }
    ensures { In EvalsExpression scene.now vars.now index.now at level result }
{
    match quick(scene, vars, index, at, level) {
        Some(done) => Ok(done),
        None => chain(scene, vars, index, at, level),
    }
}

// The expression at a position, of operators of a level or tighter, worked out by every way that an expression can go. Operators of one level go
// from left to right.
#[cycle(expressions)]
pub fn chain(
    scene: &Scene,
    vars: &[i32; MOST_NAMES],
    index: &[i32; MOST_OPEN],
    at: usize,
    level: u32,
) -> Result<Evaluated, Refusal>
    requires { (1 ≤ level) × (at ≤ scene.now.site.tokens) }
    ensures { In EvalsExpression scene.now vars.now index.now at level result }
{
    let mut left = operand(scene, vars, index, at)?;
    loop {
        let op = scene.kind(left.next);
        let own = level_of(op);
        if own < level {
            return Ok(left);
        }
        let right = expression(scene, vars, index, left.next + 1, own + 1)?;
        left = scene.operate(left.next, op, left.value, right.value, right.next)?;
    }
}

// The operand at a position: a primary with at most one unary operator.
#[cycle(expressions)]
fn operand(
    scene: &Scene,
    vars: &[i32; MOST_NAMES],
    index: &[i32; MOST_OPEN],
    at: usize,
) -> Result<Evaluated, Refusal>
    requires { at ≤ scene.now.site.tokens }
    ensures { In EvalsOperand scene.now vars.now index.now at result }
{
    let op = scene.kind(at);
    let inner = primary(scene, vars, index, primary_from(op, at))?;
    if is_unary(op) {
        return scene.operate_unary(at, op, inner.value, inner.next);
    }
    Ok(inner)
}

// The position of the primary of an operand whose first token is of this kind.
fn primary_from(kind: u32, at: usize) -> usize
    requires { at ≤ most_tokens }
    ensures { result ≡ primary_from kind at }
{
    if is_unary(kind) { at + 1 } else { at }
}

// The primary at a position.
#[cycle(expressions)]
fn primary(
    scene: &Scene,
    vars: &[i32; MOST_NAMES],
    index: &[i32; MOST_OPEN],
    at: usize,
) -> Result<Evaluated, Refusal>
    requires { at ≤ scene.now.site.tokens }
    ensures { In EvalsPrimary scene.now vars.now index.now at result }
{
    let kind = scene.kind(at);
    if kind == kind::PAREN {
        return bracket(scene, vars, index, at, kind::UNPAREN);
    }
    if kind == kind::NAME {
        if scene.word(2, at) == 2 {
            if scene.kind(at + 1) == kind::BRACKET {
                let inner = bracket(scene, vars, index, at + 1, kind::UNBRACKET)?;
                return scene.element(at, inner.value, inner.next);
            }
            return Err(NOTHING);
        }
    }
    quick(scene, vars, index, at, 5).ok_or(NOTHING)
}

// The expression between the opening token at a position and a token of the closing kind.
#[cycle(expressions)]
fn bracket(
    scene: &Scene,
    vars: &[i32; MOST_NAMES],
    index: &[i32; MOST_OPEN],
    at: usize,
    close: u32,
) -> Result<Evaluated, Refusal>
    requires { (at < scene.now.site.tokens) × (at < most_tokens) × (1 ≤ close) }
    ensures { In EvalsBracket scene.now vars.now index.now at close result }
{
    let inner = expression(scene, vars, index, at + 1, 1)?;
    if scene.kind(inner.next) == close {
        return Ok(Evaluated {
            value: inner.value,
            next: inner.next + 1,
        });
    }
    Err(NOTHING)
}
