#![tactic(auto)]

// A full run under a plan of bands of rows.

mod rooms;
mod running;

pub use running::run_banded;
