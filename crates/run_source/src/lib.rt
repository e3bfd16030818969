#![tactic(auto)]

// Running a source on a grid.

pub mod opening;
mod running;

pub use running::run;
