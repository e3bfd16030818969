#![tactic(auto)]

// One step of a rule, under marks or of the rows of a band. Outside this crate a cell is evaluated by `step` and `step_rows` alone: `cells` is private.

mod cells;
pub mod rows;
pub mod steps;

use program::reply::Refusal;

// What evaluating one cell returns: the count, one higher; and the outcome, at a fault the fault's number and place.
#[derive(Clone, Copy, Debug, PartialEq, Eq)]
pub struct Evaluation {
    pub count: u64,
    pub outcome: Result<(), Refusal>,
}

// A fault of a step: the cell, and the fault's number and place.
#[derive(Clone, Copy, Debug, PartialEq, Eq)]
pub struct CellFault {
    pub cell: u32,
    pub fault: Refusal,
}

// What a step returns: the count; and the outcome.
#[derive(Clone, Copy, Debug, PartialEq, Eq)]
pub struct Step {
    pub count: u64,
    pub outcome: Result<(), CellFault>,
}
