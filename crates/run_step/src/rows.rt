// One step of the rows of a band.
ghost use Rattle.std.specs.Prelude.{◌≡◌, length};
ghost use Rattle.run_step.specs.Promises.Rows.{CellsReady, CellsStepped, RowsReady, RowsStepped};

use crate::cells::evaluate_into;
use crate::{CellFault, Step};
use program::Rule;
use run_marked_cells::points::{move_point, set_point};
use value::limits::{LEAF_WORDS, MOST_DIMS, MOST_NAMES, MOST_OPEN};

// Evaluates so many cells of a grid from a cell on, in rising order, up to the first fault. Their next fields are in `next`, one cell after the
// other, and a fault's cell is counted from the first of them. `point` is room for a cell's coordinates.
fn evaluate_cells(
    leaves: &[u32; LEAF_WORDS],
    words: &[u32],
    rule: Rule,
    sizes: &[u32],
    point: &mut [u32],
    from: usize,
    cells: usize,
    grid: &[i32],
    next: &mut [i32],
    vars: &mut [i32; MOST_NAMES],
    index: &mut [i32; MOST_OPEN],
    time: u32,
    count: u64,
) -> Step
    requires { CellsReady leaves.now words.now rule sizes.now from cells grid.now (length next.old) time count × (length point.old ≡ length sizes.now) }
    ensures { CellsStepped words.now rule sizes.now from cells grid.now time count result next.new }
{
    let mut total = count;
    let mut i: usize = 0;
    set_point(sizes, from as u32, point);
    while i < cells {
        let turn = evaluate_into(
            leaves,
            words,
            rule,
            sizes,
            point,
            from + i,
            i,
            grid,
            next,
            vars,
            index,
            time,
            total,
        );
        if let Err(fault) = turn.outcome {
            return Step {
                count: turn.count,
                outcome: Err(CellFault {
                    cell: i as u32,
                    fault,
                }),
            };
        }
        total = turn.count;
        move_point(sizes, from + i, from + i + 1, point);
        i += 1;
    }
    Step {
        count: total,
        outcome: Ok(()),
    }
}

// One step of a band, at a given time, by the rows that it is passed: `before` border rows, the `own` rows of the band, and those after them. They are a
// grid of their own, of these sizes, with `row` cells a row. The band's next rows are in `next`, or it faults; the fault's cell is counted
// from the band's first. The count goes up by one for each cell evaluated.
pub fn step_rows(
    leaves: &[u32; LEAF_WORDS],
    words: &[u32],
    rule: Rule,
    sizes: &[u32],
    row: usize,
    before: usize,
    own: usize,
    room: &[i32],
    next: &mut [i32],
    time: u32,
    count: u64,
) -> Step
    requires { RowsReady leaves.now words.now rule sizes.now row before own room.now (length next.old) time count }
    ensures { RowsStepped words.now rule sizes.now before own room.now time count result next.new }
{
    let mut vars = [0i32; MOST_NAMES];
    let mut index = [0i32; MOST_OPEN];
    let mut point = [0u32; MOST_DIMS];
    let dims = sizes.len();
    evaluate_cells(
        leaves,
        words,
        rule,
        sizes,
        &mut point[..dims],
        before * row,
        own * row,
        room,
        next,
        &mut vars,
        &mut index,
        time,
        count,
    )
}
