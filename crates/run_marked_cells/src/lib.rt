#![tactic(auto)]

// Going over the marked cells of a grid: the next one, its coordinates, the exchange of their fields, and marks made 1.

pub mod exchange;
pub mod points;
pub mod rooms;
pub mod scan;
pub mod skipping;
