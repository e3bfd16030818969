// The blocks of a value list: each is set at its time, by a cursor that only moves forward.
ghost use Rattle.std.specs.Prelude.{◌≡◌, ◌≤◌, length};
ghost use Rattle.run_steps.specs.Promises.Blockwise.{is_due, Settable, DueSet};

use list_reader::setting::{Block, next_time, set_lines};
use run_marked_cells::rooms::copy_numbers;
use run_marking::mark_changed;
use run_meaning::Bounds;

// Whether a block is due at a time.
pub fn due_at(next: Option<Block>, time: u32) -> bool
    ensures { result ≡ is_due next time }
{
    match next {
        Some(block) => block.time == time,
        None => false,
    }
}

// Sets the block that is due at a time, if there is one, and marks the cells that it opens, unless all are open; returns the block that is next then.
// `scratch` takes the grid without the block.
pub fn set_due(
    values: &[u8],
    sizes: &[u32],
    bounds: Bounds,
    backs: &[u32],
    listed: usize,
    all_open: bool,
    fields: u32,
    grid: &mut [i32],
    scratch: &mut [i32],
    marks: &mut [u8],
    time: u32,
    next: Option<Block>,
) -> Option<Block>
    requires { Settable values.now sizes.now bounds backs.now listed fields grid.old scratch.old marks.old next }
    ensures { DueSet values.now sizes.now bounds backs.now listed all_open fields grid.old scratch.old marks.old time next result grid.new scratch.new marks.new }
{
    let Some(block) = next else {
        return None;
    };
    if block.time != time {
        return next;
    }
    if all_open {
        let at = set_lines(values, block.behind, sizes, fields, grid);
        return next_time(values, at);
    }
    copy_numbers(grid, scratch);
    let at = set_lines(values, block.behind, sizes, fields, grid);
    mark_changed(
        sizes,
        bounds,
        backs,
        listed,
        fields as usize,
        scratch,
        grid,
        marks,
    );
    next_time(values, at)
}
