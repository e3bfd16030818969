#![tactic(auto)]

// What the written indices of a program come to, found in the word table.

mod counting;
pub mod surveying;
mod walk;

use run_meaning::{Bounds, Reach};

// The elements counted so far: the place of the first that is larger in size than its dimension, and the box.
#[derive(Clone, Copy, Debug, PartialEq, Eq)]
pub struct Count {
    pub far: Option<u32>,
    pub bounds: Bounds,
}

// The place of the first written index that is larger in size than its dimension; and the reach.
// Kept: only Clone and Copy, as `Reach`, which it holds.
#[derive(Clone, Copy)]
pub struct Survey {
    pub far: Option<u32>,
    pub reach: Reach,
}
