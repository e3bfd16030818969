// Writing the shapes: which expressions are of one or two operands.
ghost use Rattle.std.specs.Prelude.{◌+◌, ◌*◌, ◌≤◌, length};
ghost use Rattle.value.specs.Limits.{most_tokens};
ghost use Rattle.cell_leaves.specs.Promises.Shaping.{Linked, After, Shape, LeafWritten, LeafShaped};

use cell_operands::table::leaf_word;
use value::limits::LEAF_WORDS;

// The level of the operator after the simple operand at a position; 5, where there is no such operand.
fn level_after(leaves: &[u32; LEAF_WORDS], n: usize, p: usize) -> u32
    requires { (n ≤ most_tokens) × Linked n leaves.now × (p ≤ n) }
    ensures { After leaves.now p result }
{
    let sort = leaf_word(leaves, p, 0);
    if sort == 0 {
        return 5;
    }
    if sort > 3 {
        return 5;
    }
    leaf_word(leaves, leaf_word(leaves, p, 2) as usize, 3)
}

// The shape of the expression at a position: 1 for one simple operand, 2 for two with a relation or logic between them, 0 for any other.
fn shape_at(leaves: &[u32; LEAF_WORDS], n: usize, p: usize) -> u32
    requires { (n ≤ most_tokens) × Linked n leaves.now × (p ≤ n) }
    ensures { Shape leaves.now p result }
{
    let level = level_after(leaves, n, p);
    if level == 0 {
        return 1;
    }
    if level > 2 {
        return 0;
    }
    let next = leaf_word(leaves, p, 2) as usize;
    if level_after(leaves, n, next + 1) == 0 {
        return 2;
    }
    0
}

// Writes word 7 of a position.
fn write_shape(leaves: &mut [u32], p: usize, shape: u32)
    requires { 8 * p + 8 ≤ length leaves.old }
    ensures { LeafWritten p shape leaves.old leaves.new }
{
    leaves[8 * p + 7] = shape;
}

// Writes word 7 of each position, the shape of the expression there.
#[tactic(auto, using(crate::proofs::ShapingLaws::shaped_more))]
pub fn write_shapes(leaves: &mut [u32; LEAF_WORDS], n: usize)
    requires { (n ≤ most_tokens) × Linked n leaves.old }
    ensures { LeafShaped (n + 1) leaves.old leaves.new }
{
    for p in 0..n + 1 {
        let shape = shape_at(leaves, n, p);
        write_shape(leaves, p, shape);
    }
}
