// Writing the words of a position.
ghost use Rattle.std.specs.Prelude.{◌≡◌, ◌&&◌, ◌+◌, ◌*◌, ◌≤◌, eqb, length};
ghost use Rattle.value.specs.Limits.{most_tokens, most_dims};
ghost use Rattle.automaton.specs.Promises.ShapeLaws.{Positive};
ghost use Rattle.token.specs.Kind.{kind};
ghost use Rattle.cell_meaning.specs.Promises.Stands.{refers};
ghost use Rattle.cell_meaning.specs.Links.{word_in, table_of};
ghost use Rattle.cell_meaning.specs.Promises.Leaves.{leaf_word, LeafAt};
ghost use Rattle.cell_leaves.specs.Promises.Filling.{LeavesKept, Offsets, LeavesNoted};

use crate::Leaf;
use crate::noting::leaf_at;
use cell_operands::neighbour::{element_after, wrapped};
use cell_operands::sort;
use cell_operands::table::word_at;
use token::kind;
use value::Value;
use value::tables::put_four;

// Whether the element of a relative index at a position is an index variable.
fn is_moving(words: &[u32], n: usize, at: usize) -> bool
    requires { (4 * n ≤ length words.now) × (n ≤ most_tokens) }
    ensures { result ≡ (eqb (word_in words.now n 0 at) kind.name && eqb (word_in words.now n 2 at) refers.index) }
{
    if word_at(words, n, 0, at) == kind::NAME {
        return word_at(words, n, 2, at) == 5;
    }
    false
}

// Writes words 4 and on of a position, the offsets of the relative index there; false, where one of them is an index variable.
fn write_offsets(words: &[u32], n: usize, sizes: &[u32], leaves: &mut [u32], p: usize) -> bool
    requires { (4 * n ≤ length words.now) × (n ≤ most_tokens) × (length sizes.now ≤ most_dims) × Positive sizes.now × (p ≤ n) × (8 * p + 8 ≤ length leaves.old) }
    ensures { LeavesKept (8 * p + 4) (8 * p + 8) leaves.old leaves.new × Offsets (table_of words.now n (length sizes.now)) sizes.now (leaf_word leaves.new p) p result }
{
    let dims = sizes.len();
    let mut here = p + 1;
    for k in 0..dims {
        if is_moving(words, n, here) {
            return false;
        }
        let offset = Value::decode(word_at(words, n, 3, here));
        leaves[8 * p + 4 + k] = wrapped(0, offset, sizes[k]);
        here = element_after(words, n, dims, here);
    }
    true
}

// Writes words 0 to 3 of a position.
fn write_words(leaves: &mut [u32], p: usize, leaf: Leaf)
    requires { 8 * p + 8 ≤ length leaves.old }
    ensures { LeavesNoted leaf p leaves.old leaves.new }
{
    put_four(leaves, 8 * p, leaf.sort, leaf.word, leaf.next, leaf.level);
}

// Writes the words of a position.
pub fn write_leaf(
    words: &[u32],
    n: usize,
    sizes: &[u32],
    fields: usize,
    slots: usize,
    leaves: &mut [u32],
    p: usize,
)
    requires { (4 * n ≤ length words.now) × (n ≤ most_tokens) × (length sizes.now ≤ most_dims) × Positive sizes.now × (p ≤ n) × (8 * p + 8 ≤ length leaves.old) }
    ensures { LeavesKept (8 * p) (8 * p + 8) leaves.old leaves.new × LeafAt (table_of words.now n (length sizes.now)) sizes.now n fields slots (leaf_word leaves.new p) p }
{
    let leaf = leaf_at(words, n, sizes.len(), fields, slots, p);
    if leaf.sort == sort::NEAR {
        if write_offsets(words, n, sizes, leaves, p) {
            write_words(leaves, p, leaf);
            return;
        }
        let unnoted = Leaf {
            sort: sort::NONE,
            word: leaf.word,
            next: 0,
            level: leaf.level,
        };
        write_words(leaves, p, unnoted);
        return;
    }
    write_words(leaves, p, leaf);
}
