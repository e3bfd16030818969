#![tactic(auto)]

// How many cells of each row have 0 in one chosen field: filled from a grid, moved after a step, and queried.

pub mod counting;
pub mod queries;
mod skipping;
