#![tactic(auto)]

// One step made of bands of rows, each by the rows that it is passed.

pub mod lending;
pub mod steps;
