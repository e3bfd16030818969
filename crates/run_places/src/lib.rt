#![tactic(auto)]

// The places that relative indices can take, found in the word table, and the reach widened by them.

pub mod listing;
pub mod loops;
pub mod vectors;
pub mod widening;
