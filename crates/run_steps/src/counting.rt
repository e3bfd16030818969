// The row counts of a run, where it keeps them.
ghost use Rattle.std.specs.Prelude.{◌≡◌, true, ◌&&◌, length};
ghost use Rattle.run_row_counts.specs.Promises.Counting.{Countable, Movable};
ghost use Rattle.run_steps.specs.Promises.Blockwise.{is_due};
ghost use Rattle.run_steps.specs.Promises.Countwise.{CountsFilled};

use crate::blocks::due_at;
use list_reader::setting::Block;
use run_row_counts::counting::{fill_counts, move_counts};

// Whether the counts are filled anew after the block of a time: where they are kept, and a block is due.
pub fn recounts(next: Option<Block>, time: u32, counted: bool) -> bool
    ensures { result ≡ (counted && is_due next time) }
{
    counted && due_at(next, time)
}

// Fills the counts from a grid, where they are kept.
pub fn fill_asked(
    asked: bool,
    sizes: &[u32],
    fields: u32,
    field: u32,
    grid: &[i32],
    counts: &mut [u32],
)
    requires { asked ≡ true → Countable sizes.now fields field (length grid.now) (length counts.old) }
    ensures { CountsFilled asked sizes.now fields field grid.now counts.old counts.new }
{
    if asked {
        fill_counts(sizes, fields as usize, field as usize, grid, counts);
    }
}

// Moves the counts from the grid before a step to the grid after it, where they are kept. `old` holds the old fields of the marked cells.
pub fn move_asked(
    asked: bool,
    marks: &[u8],
    sizes: &[u32],
    fields: u32,
    field: u32,
    old: &[i32],
    grid: &[i32],
    counts: &mut [u32],
)
    requires { asked ≡ true → Movable marks.now sizes.now fields field old.now grid.now counts.old }
    ensures { CountsFilled asked sizes.now fields field grid.now counts.old counts.new }
{
    if asked {
        move_counts(
            marks,
            sizes,
            fields as usize,
            field as usize,
            old,
            grid,
            counts,
        );
    }
}
