// One cell.
ghost use Rattle.std.specs.Prelude.{◌≡◌, ◌+◌, ◌*◌, ◌<◌, ◌≤◌, length, take, replicate, pos};
ghost use Rattle.automaton.specs.Grid.{cell_of};
ghost use Rattle.cell_statements.specs.Promises.Running.{Fit, Evaluates};

use crate::blocks::block;
use cell_operands::Site;
use cell_operands::scene::Scene;
use program::Rule;
use program::reply::Refusal;
use value::limits::{LEAF_WORDS, MOST_NAMES, MOST_OPEN};

// Sets the first variables to 0.
fn clear(vars: &mut [i32], slots: usize)
    requires { slots ≤ length vars.old }
    ensures { take slots vars.new ≡ replicate slots (pos 0) }
{
    vars[..slots].fill(0);
}

// Copies the fields of a cell.
fn copy_fields(grid: &[i32], cell: usize, next: &mut [i32])
    requires { cell * length next.old + length next.old ≤ length grid.now }
    ensures { next.new ≡ cell_of (length next.old) grid.now cell }
{
    let fields = next.len();
    let from = cell * fields;
    // Kept: one by one, since `copy_from_slice` would have the static library need `memmove` from outside.
    for k in 0..fields {
        next[k] = grid[from + k];
    }
}

// Evaluates a cell, by the rule that stands in the table: its next fields are in `next`, unless there is a fault. Variables start at 0.
// `sizes` are those of the grid, `point` the cell's coordinates, `cell` its number.
pub fn evaluate_cell(
    leaves: &[u32; LEAF_WORDS],
    words: &[u32],
    rule: Rule,
    sizes: &[u32],
    point: &[u32],
    cell: usize,
    grid: &[i32],
    next: &mut [i32],
    vars: &mut [i32; MOST_NAMES],
    index: &mut [i32; MOST_OPEN],
    time: u32,
) -> Result<(), Refusal>
    requires { Fit leaves.now words.now rule sizes.now point.now cell grid.now (length next.old) time }
    ensures { Evaluates words.now rule sizes.now cell grid.now next.new time result }
{
    let slots = rule.slots as usize;
    let fields = rule.fields as usize;
    let site = Site {
        base: rule.base,
        fields,
        slots,
        cell,
        tokens: rule.tokens,
        time,
    };
    let scene = Scene {
        leaves,
        words,
        sizes,
        point,
        grid,
        site,
        depth: 0,
    };
    clear(vars, slots);
    copy_fields(grid, cell, next);
    block(&scene, vars, index, next, rule.body)?;
    Ok(())
}
