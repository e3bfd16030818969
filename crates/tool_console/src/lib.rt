#![tactic(auto)]

// What the programs run_rule and compare_grids read and say: arguments, files of rules and grids, places, and replies in words.

pub mod arguments;
pub mod grids;
pub mod lines;
pub mod numbers;
pub mod places;
pub mod replies;
pub mod rooms;
pub mod shapes;
#[cfg(test)]
mod tests;
pub mod texts;
