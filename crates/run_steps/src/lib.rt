#![tactic(auto)]

// The steps of a run, one after the other, each with its block.

mod blocks;
mod counting;
mod single;
mod steps;

pub use steps::{run_by, run_steps};

// The manner of a run: all cells in each step; the open ones; the open ones, with the marks left standing; or the same, begun from the caller's marks.
#[derive(Clone, Copy, Debug, PartialEq, Eq, Hash)]
pub enum Manner {
    Full,
    Quiet,
    Pausing,
    Resuming,
}

// How a run makes its steps: of the whole grid; or, `banded`, of bands of rows, each with so many border rows before and behind it. `row` is the number of
// cells of a row.
#[derive(Clone, Copy, Debug, PartialEq, Eq, Hash)]
pub struct Bands {
    pub banded: bool,
    pub row: usize,
    pub before: usize,
    pub behind: usize,
}

// The report of a run: the reply's number and place, the line of the value list, the faulting cell, the steps done, and the count of the cells
// evaluated.
#[derive(Clone, Copy, Debug, PartialEq, Eq, Hash)]
pub struct Report {
    pub number: u32,
    pub place: u32,
    pub line: u64,
    pub cell: u32,
    pub steps: u32,
    pub count: u64,
}
