#![tactic(auto)]

// Evaluating one cell, off the word table: statements.

mod assignment;
mod blocks;
pub mod cell;

pub use blocks::begins;

// How statements go on: with the next one, or by leaving the innermost loop.
#[derive(Clone, Copy, Debug, PartialEq, Eq)]
pub enum Flow {
    On,
    Leaving,
}
