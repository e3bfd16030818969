// Expressions of one or two operands, by the leaf table.
ghost use Rattle.std.specs.Prelude.{◌≤◌};
ghost use Rattle.cell_operands.specs.Promises.Scene.{In};
ghost use Rattle.cell_operands.specs.Promises.Working.{short, Quick};

use cell_operands::Evaluated;
use cell_operands::operators::compare;
use cell_operands::scene::Scene;
use cell_operands::table::leaf_word;
use value::limits::{MOST_NAMES, MOST_OPEN};

// The expression at a position, if it is an operand alone, or a relation or logic of two, and they are noted as numbers, variables or fields of the
// own cell.
#[inline(always)]
pub fn simple(
    scene: &Scene,
    vars: &[i32; MOST_NAMES],
    index: &[i32; MOST_OPEN],
    at: usize,
) -> Option<Evaluated>
    requires { at ≤ scene.now.site.tokens }
    ensures { In Quick scene.now vars.now index.now at 1 (short result) }
{
    let leaves = scene.leaves;
    let shape = leaf_word(leaves, at, 7);
    if shape == 0 {
        return None;
    }
    if 2 < shape {
        return None;
    }
    let a = scene.simple_value(vars, index, at);
    let next = leaf_word(leaves, at, 2) as usize;
    if shape == 1 {
        return Some(Evaluated { value: a, next });
    }
    let here = next + 1;
    let b = scene.simple_value(vars, index, here);
    Some(Evaluated {
        value: compare(leaf_word(leaves, next, 1), a, b),
        next: leaf_word(leaves, here, 2) as usize,
    })
}
