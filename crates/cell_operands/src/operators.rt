// Operators on values, by their kind of token.
ghost use Rattle.std.specs.Prelude.{◌≡◌};
ghost use Rattle.cell_meaning.specs.Operators.{placed, apply_unary, compare, apply_binary};
ghost use Rattle.cell_meaning.specs.Promises.Stands.{is_sign_kind, is_unary};
ghost use Rattle.cell_operands.specs.Promises.Scene.{table};
ghost use Rattle.cell_operands.specs.Promises.Working.{told_of};

use crate::Evaluated;
use crate::scene::Scene;
use program::reply::{Reason, Refusal};
use token::kind;
use value::{Fault, Value};

// Whether a token of this kind is a sign.
#[tactic(auto, unfolding(cell_meaning::specs::Promises::Stands::is_sign_kind))]
pub fn is_sign(kind: u32) -> bool
    ensures { result ≡ is_sign_kind kind }
{
    if kind == kind::PLUS {
        return true;
    }
    kind == kind::MINUS
}

// Whether a token of this kind can stand before a primary.
pub fn is_unary(kind: u32) -> bool
    ensures { result ≡ is_unary kind }
{
    if kind == kind::NOT {
        return true;
    }
    is_sign(kind)
}

// A unary operator on a value.
#[tactic(auto, unfolding(cell_meaning::specs::Operators::apply_unary))]
fn apply_unary(op: u32, a: Value) -> Result<Value, Fault>
    ensures { result ≡ apply_unary op a.n }
{
    if op == kind::MINUS {
        return a.negate();
    }
    if op == kind::NOT {
        return Ok(a.not());
    }
    Ok(a)
}

// A relation or logic on two values.
#[tactic(auto, unfolding(cell_meaning::specs::Operators::compare))]
pub fn compare(op: u32, a: Value, b: Value) -> Value
    ensures { result ≡ compare op a.n b.n }
{
    if op == kind::EQUAL {
        return a.equal(b);
    }
    if op == kind::UNEQUAL {
        return a.not_equal(b);
    }
    if op == kind::LESS {
        return a.less(b);
    }
    if op == kind::GREATER {
        return a.greater(b);
    }
    if op == kind::AT_MOST {
        return a.at_most(b);
    }
    if op == kind::AT_LEAST {
        return a.at_least(b);
    }
    if op == kind::AND {
        return a.and(b);
    }
    a.or(b)
}

// A binary operator on two values.
#[tactic(auto, unfolding(cell_meaning::specs::Operators::apply_binary))]
fn apply_binary(op: u32, a: Value, b: Value) -> Result<Value, Fault>
    ensures { result ≡ apply_binary op a.n b.n }
{
    if op == kind::PLUS {
        return a.add(b);
    }
    if op == kind::MINUS {
        return a.subtract(b);
    }
    if op == kind::TIMES {
        return a.multiply(b);
    }
    if op == kind::SLASH {
        return a.divide(b);
    }
    if op == kind::PERCENT {
        return a.remainder(b);
    }
    Ok(compare(op, a, b))
}

impl Scene<'_> {
    // What an operator at a position returns, with the position past the expression.
    fn told(
        &self,
        at: usize,
        worked: Result<Value, Fault>,
        next: usize,
    ) -> Result<Evaluated, Refusal>
        ensures { result ≡ told_of (placed ((table self.now).place at) worked) next }
    {
        match worked {
            Ok(value) => Ok(Evaluated { value, next }),
            Err(fault) => Err(Refusal::new(Reason::from(fault), self.place(at))),
        }
    }

    // The unary operator at a position, on a value.
    pub fn operate_unary(
        &self,
        at: usize,
        op: u32,
        a: Value,
        next: usize,
    ) -> Result<Evaluated, Refusal>
        ensures { result ≡ told_of (placed ((table self.now).place at) (apply_unary op a.n)) next }
    {
        self.told(at, apply_unary(op, a), next)
    }

    // The binary operator at a position, on two values.
    pub fn operate(
        &self,
        at: usize,
        op: u32,
        a: Value,
        b: Value,
        next: usize,
    ) -> Result<Evaluated, Refusal>
        ensures { result ≡ told_of (placed ((table self.now).place at) (apply_binary op a.n b.n)) next }
    {
        self.told(at, apply_binary(op, a, b), next)
    }
}
