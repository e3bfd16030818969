#![tactic(auto)]

// Evaluating one cell, off the word table: what the table holds, operators, and operands.

pub mod neighbour;
pub mod noted;
pub mod operators;
pub mod primary;
pub mod scene;
pub mod sort;
pub mod table;

use value::Value;

// What stays the same while a cell is evaluated: the position of the token that has the first field's range, the numbers of fields and of slots, the
// cell's number, the number of tokens, and the time.
#[derive(Clone, Copy, Debug, PartialEq, Eq)]
pub struct Site {
    pub base: usize,
    pub fields: usize,
    pub slots: usize,
    pub cell: usize,
    pub tokens: usize,
    pub time: u32,
}

// A value with the position past the expression.
#[derive(Clone, Copy, Debug, PartialEq, Eq)]
pub struct Evaluated {
    pub value: Value,
    pub next: usize,
}
