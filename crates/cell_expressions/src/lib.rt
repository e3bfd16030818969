#![tactic(auto)]

// Evaluating one cell, off the word table: expressions.

pub mod expression;
pub mod simple;
