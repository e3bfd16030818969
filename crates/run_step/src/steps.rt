// One step under marks.
ghost use Rattle.std.specs.Prelude.{◌≡◌, length};
ghost use Rattle.run_step.specs.Promises.Turns.{Filled};
ghost use Rattle.run_step.specs.Promises.Stepping.{StepReady, Stepped};

use crate::cells::evaluate_open;
use crate::{CellFault, Step};
use program::Rule;
use run_marked_cells::exchange::exchange_marked;
use run_marked_cells::points::{move_point, set_point};
use run_marked_cells::scan::next_marked;
use value::limits::{LEAF_WORDS, MOST_DIMS, MOST_NAMES, MOST_OPEN};

// Evaluates the marked cells in rising order from the grid `old` into `new`, up to the first fault. `point` is room for a cell's coordinates.
fn evaluate_marked(
    leaves: &[u32; LEAF_WORDS],
    words: &[u32],
    rule: Rule,
    sizes: &[u32],
    point: &mut [u32],
    old: &[i32],
    new: &mut [i32],
    marks: &[u8],
    vars: &mut [i32; MOST_NAMES],
    index: &mut [i32; MOST_OPEN],
    time: u32,
    count: u64,
) -> Step
    requires { StepReady leaves.now words.now rule sizes.now old.now new.old marks.now time count × (length point.old ≡ length sizes.now) }
    ensures { Filled words.now rule sizes.now old.now new.old marks.now time count result new.new }
{
    let mut total = count;
    let mut cell = next_marked(marks, 0);
    set_point(sizes, cell as u32, point);
    while cell < marks.len() {
        let turn = evaluate_open(
            leaves, words, rule, sizes, point, cell, old, new, marks, vars, index, time, total,
        );
        if let Err(fault) = turn.outcome {
            return Step {
                count: turn.count,
                outcome: Err(CellFault {
                    cell: cell as u32,
                    fault,
                }),
            };
        }
        total = turn.count;
        let after = next_marked(marks, cell + 1);
        move_point(sizes, cell, after, point);
        cell = after;
    }
    Step {
        count: total,
        outcome: Ok(()),
    }
}

// One step, at a given time: the marked cells (their mark is not 0) get what evaluating them on the old grid returns, all at once, and `scratch` is left
// with their old fields. At the first fault the grid stays as it is. The count goes up by one for each cell evaluated.
pub fn step(
    leaves: &[u32; LEAF_WORDS],
    words: &[u32],
    rule: Rule,
    sizes: &[u32],
    grid: &mut [i32],
    scratch: &mut [i32],
    marks: &[u8],
    time: u32,
    count: u64,
) -> Step
    requires { StepReady leaves.now words.now rule sizes.now grid.old scratch.old marks.now time count }
    ensures { Stepped words.now rule sizes.now grid.old scratch.old marks.now time count result grid.new scratch.new }
{
    let mut vars = [0i32; MOST_NAMES];
    let mut index = [0i32; MOST_OPEN];
    let mut point = [0u32; MOST_DIMS];
    let dims = sizes.len();
    let done = evaluate_marked(
        leaves,
        words,
        rule,
        sizes,
        &mut point[..dims],
        grid,
        scratch,
        marks,
        &mut vars,
        &mut index,
        time,
        count,
    );
    if done.outcome.is_ok() {
        exchange_marked(grid, scratch, marks, rule.fields as usize);
    }
    done
}
