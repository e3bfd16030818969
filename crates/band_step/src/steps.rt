// One step made of bands.
ghost use Rattle.std.specs.Prelude.{length, suc, ◌-◌, ◌*◌};
ghost use Rattle.run_step.specs.Promises.Stepping.{SteppedFor};
ghost use Rattle.band_meaning.specs.Bounds.{bound};
ghost use Rattle.band_step.specs.Promises.Bandwise.{Bordered, Grounds, BandFits, BandEvaluated, AllEvaluated, PlanRuns, AllMarked};

use crate::lending::fill_room;
use program::Rule;
use run_marked_cells::exchange::exchange_marked;
use run_step::rows::step_rows;
use run_step::{CellFault, Step};
use value::limits::LEAF_WORDS;

// Evaluates one band of a grid, from its first row to its last, into its part of `scratch`. Its rows with bound are copied into the room first, and
// read from there. A fault's cell is counted from the band's first.
fn evaluate_band(
    leaves: &[u32; LEAF_WORDS],
    words: &[u32],
    rule: Rule,
    sizes: &[u32],
    shape: &[u32],
    row: usize,
    before: usize,
    behind: usize,
    first: usize,
    last: usize,
    grid: &[i32],
    scratch: &mut [i32],
    room: &mut [i32],
    time: u32,
    count: u64,
) -> Step
    requires { Grounds leaves.now words.now rule sizes.now shape.now row (bound before behind) (length grid.now) (length scratch.old) (length room.old) time × BandFits sizes.now shape.now row (bound before behind) first last count }
    ensures { BandEvaluated (Bordered words.now rule (bound before behind)) rule sizes.now (first * row) ((suc last - first) * row) grid.now scratch.old time count result scratch.new }
{
    let fields = rule.fields as usize;
    let own = last + 1 - first;
    let lent = before + own + behind;
    fill_room(sizes, row, fields, grid, first, before, lent, room);
    let from = first * row * fields;
    let end = from + own * row * fields;
    step_rows(
        leaves,
        words,
        rule,
        shape,
        row,
        before,
        own,
        room,
        &mut scratch[from..end],
        time,
        count,
    )
}

// Evaluates the bands of a plan in turn, up to the first fault.
fn evaluate_bands(
    leaves: &[u32; LEAF_WORDS],
    words: &[u32],
    rule: Rule,
    sizes: &[u32],
    shape: &[u32],
    row: usize,
    before: usize,
    behind: usize,
    plan: &[u32],
    grid: &[i32],
    scratch: &mut [i32],
    room: &mut [i32],
    time: u32,
    count: u64,
) -> Step
    requires { Grounds leaves.now words.now rule sizes.now shape.now row (bound before behind) (length grid.now) (length scratch.old) (length room.old) time × PlanRuns sizes.now shape.now (bound before behind) plan.now count }
    ensures { AllEvaluated (Bordered words.now rule (bound before behind)) rule sizes.now grid.now time count result scratch.new }
{
    let mut total = count;
    let mut k: usize = 0;
    while k < plan.len() {
        let first = plan[k] as usize;
        let last = plan[k + 1] as usize;
        let band = evaluate_band(
            leaves, words, rule, sizes, shape, row, before, behind, first, last, grid, scratch,
            room, time, total,
        );
        if let Err(stop) = band.outcome {
            return Step {
                count: band.count,
                outcome: Err(CellFault {
                    cell: (first * row) as u32 + stop.cell,
                    fault: stop.fault,
                }),
            };
        }
        total = band.count;
        k += 2;
    }
    Step {
        count: total,
        outcome: Ok(()),
    }
}

// One step of a grid under an accepted plan, at a given time, made of steps of its bands. `row` is the number of cells of a row, `before` and `behind` are
// the border rows; the room has the grid's sizes after the first, and as many rows as every band is passed at the most. All cells are marked. Grid, fault,
// count and `scratch` are those of a step of the whole grid.
pub fn step_under(
    leaves: &[u32; LEAF_WORDS],
    words: &[u32],
    rule: Rule,
    sizes: &[u32],
    shape: &[u32],
    row: usize,
    before: usize,
    behind: usize,
    plan: &[u32],
    grid: &mut [i32],
    scratch: &mut [i32],
    room: &mut [i32],
    marks: &[u8],
    time: u32,
    count: u64,
) -> Step
    requires { Grounds leaves.now words.now rule sizes.now shape.now row (bound before behind) (length grid.old) (length scratch.old) (length room.old) time × PlanRuns sizes.now shape.now (bound before behind) plan.now count × AllMarked sizes.now marks.now }
    ensures { SteppedFor (Bordered words.now rule (bound before behind)) rule sizes.now grid.old scratch.old marks.now time count result grid.new scratch.new }
{
    let done = evaluate_bands(
        leaves, words, rule, sizes, shape, row, before, behind, plan, grid, scratch, room, time,
        count,
    );
    if done.outcome.is_ok() {
        exchange_marked(grid, scratch, marks, rule.fields as usize);
    }
    done
}
