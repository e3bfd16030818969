#![tactic(auto)]

// Filling the leaf table: for each position of the word table, what operand stands there by itself.
ghost use Rattle.std.specs.Prelude.{◌*◌, ◌≤◌, length};
ghost use Rattle.value.specs.Limits.{most_tokens, most_dims};
ghost use Rattle.automaton.specs.Promises.ShapeLaws.{Positive};
ghost use Rattle.cell_meaning.specs.Promises.Leaves.{Leaves};

use crate::shaping::write_shapes;
use crate::writing::write_leaf;
use value::limits::LEAF_WORDS;

mod noting;
mod shaping;
mod writing;

// The first four words of a position: the sort of the operand there, its number, slot or field, the position past it, and the level of the operator there.
#[derive(Clone, Copy, Debug, PartialEq, Eq)]
pub struct Leaf {
    pub sort: u32,
    pub word: u32,
    pub next: u32,
    pub level: u32,
}

// Fills the leaf table of the word table: for each position, and for the one past the last token, what operand stands there by itself.
pub fn fill_leaves(
    words: &[u32],
    sizes: &[u32],
    n: usize,
    fields: usize,
    slots: usize,
    leaves: &mut [u32; LEAF_WORDS],
)
    requires { (4 * n ≤ length words.now) × (n ≤ most_tokens) × (length sizes.now ≤ most_dims) × Positive sizes.now }
    ensures { Leaves leaves.new words.now sizes.now n fields slots }
{
    for p in 0..n + 1 {
        write_leaf(words, n, sizes, fields, slots, leaves, p);
    }
    write_shapes(leaves, n);
}
