// The steps of a run.
ghost use Rattle.std.specs.Prelude.{◌≡◌, length};
ghost use Rattle.run_marking.specs.Promises.Opened as marking;
ghost use Rattle.cell_meaning.specs.Promises.Leaves.{Leaves};
ghost use Rattle.run_marking.specs.Promises.Opened.{WayOf};
ghost use Rattle.run_steps.specs.Promises.Countwise.{CountsFit, CountsFilled, Tallied};
ghost use Rattle.run_steps.specs.Promises.OneStep.{Making};
ghost use Rattle.run_steps.specs.Promises.Stepwise.{without_fault, Copying, from_lent, pending_in, Started, Begins, Standing, Renewed, RanMarked, Ran};

use crate::blocks::set_due;
use crate::counting::{fill_asked, move_asked, recounts};
use crate::single::one_step;
use crate::{Bands, Report};
use cell_leaves::fill_leaves;
use list_reader::setting::next_time;
use program::Rule;
use run_marked_cells::rooms::{copy_numbers, flag_marks};
use run_marking::mark_open;
use run_marking::ways::set_ways;
use run_meaning::{Bounds, Reach};
use value::limits::{LEAF_WORDS, PLACE_WORDS};

// The report of a run without a fault.
fn ended(steps: u32, count: u64) -> Report
    ensures { result ≡ without_fault steps count }
{
    Report {
        number: 0,
        place: 0,
        line: 0,
        cell: 0,
        steps: steps,
        count: count,
    }
}

// Whether a run begins from the marks that it is passed: not where all cells are open.
fn lent_marks(resumed: bool, all_open: bool) -> bool
    ensures { result ≡ from_lent resumed all_open }
{
    resumed && !all_open
}

// The marks with which a run begins: those of all cells, or 1 for each of the caller's marks that is not 0. Then `scratch` takes the grid, so that a cell without a
// mark has the same fields in both.
fn begin_marks(resumed: bool, all_open: bool, grid: &[i32], scratch: &mut [i32], marks: &mut [u8])
    requires { Copying grid.now scratch.old }
    ensures { Started (from_lent resumed all_open) grid.now marks.old scratch.new marks.new }
{
    if lent_marks(resumed, all_open) {
        copy_numbers(grid, scratch);
        flag_marks(marks);
        return;
    }
    marks.fill(1);
}

// The marks for the next step: all cells stay open, or those are marked that the last step opened. `old` holds the fields before it.
fn renew_marks(
    sizes: &[u32],
    bounds: Bounds,
    backs: &[u32],
    listed: usize,
    all_open: bool,
    fields: usize,
    old: &[i32],
    grid: &[i32],
    marks: &mut [u8],
)
    requires { marking.MarksReady sizes.now bounds backs.now listed fields old.now grid.now marks.old }
    ensures { Renewed sizes.now bounds backs.now listed all_open fields old.now grid.now marks.old marks.new }
{
    if !all_open {
        mark_open(sizes, bounds, backs, listed, fields, old, grid, marks);
    }
}

// Runs so many steps from a time on, up to the first that faults. Before each the block of its time is set, and after the last the block of the time then
// reached. In the first step the marked cells are open, and those that its block opens; later all, or those that the step before or a block since then
// opened. Each step evaluates the open cells alone, of the whole grid or by bands: then under the plan, with a room of the sizes `shape`. After the last
// step the cells are marked that one more would open, at a fault none.
fn run_marked(
    leaves: &[u32; LEAF_WORDS],
    words: &[u32],
    rule: Rule,
    sizes: &[u32],
    reach: Reach,
    backs: &[u32],
    listed: usize,
    all_open: bool,
    grid: &mut [i32],
    scratch: &mut [i32],
    marks: &mut [u8],
    values: &[u8],
    start: u32,
    steps: u32,
    counts: &mut [u32],
    counted: bool,
    field: u32,
    shape: &[u32],
    bands: Bands,
    plan: &[u32],
    room: &mut [i32],
) -> Report
    requires { (Begins words.now rule sizes.now reach grid.old scratch.old marks.old values.now start steps) × (Standing rule sizes.now all_open grid.old scratch.old marks.old) × (Leaves leaves.now words.now shape.now rule.tokens rule.fields rule.slots) × (WayOf sizes.now reach backs.now listed) × (CountsFit counted rule.fields sizes.now field (length counts.old)) × (CountsFilled counted sizes.now rule.fields field grid.old counts.old counts.old) × (Making words.now rule sizes.now shape.now bands plan.now reach all_open (length room.old)) }
    ensures ran_marked { RanMarked words.now rule sizes.now reach all_open values.now start steps grid.old marks.old result grid.new marks.new }
    ensures counts { Tallied words.now rule sizes.now reach all_open counted field grid.new counts.old counts.new }
{
    let mut next = next_time(values, 0);
    let mut done: u32 = 0;
    let mut count: u64 = 0;
    while done <= steps {
        let bounds = reach.bounds;
        let anew = recounts(next, start + done, counted);
        next = set_due(
            values,
            sizes,
            bounds,
            backs,
            listed,
            all_open,
            rule.fields,
            grid,
            scratch,
            marks,
            start + done,
            next,
        );
        fill_asked(anew, sizes, rule.fields, field, grid, counts);
        if done == steps {
            return ended(steps, count);
        }
        let made = one_step(
            leaves,
            words,
            rule,
            sizes,
            shape,
            bands,
            plan,
            grid,
            scratch,
            room,
            marks,
            start + done,
            count,
        );
        if let Err(stop) = made.outcome {
            marks.fill(0);
            return Report {
                number: stop.fault.number,
                place: stop.fault.place,
                line: 0,
                cell: stop.cell,
                steps: done,
                count: made.count,
            };
        }
        count = made.count;
        move_asked(
            counted,
            marks,
            sizes,
            rule.fields,
            field,
            scratch,
            grid,
            counts,
        );
        renew_marks(
            sizes,
            bounds,
            backs,
            listed,
            all_open,
            rule.fields as usize,
            scratch,
            grid,
            marks,
        );
        done += 1;
    }
    // the loop is left by its returns alone
    ended(steps, count)
}

// Runs so many steps from a time on, with their blocks, up to the first that faults. In the first step all cells are open; where the run is resumed, those
// with a mark of the caller's that is not 0, and those that its block opens. The marks that are left are those of the cells that one more step would open, at a
// fault none. The steps are of the whole grid, and `shape` has its sizes; or by bands, under the plan, and `shape` has the sizes of the room.
pub fn run_by(
    words: &[u32],
    rule: Rule,
    sizes: &[u32],
    reach: Reach,
    all_open: bool,
    grid: &mut [i32],
    scratch: &mut [i32],
    marks: &mut [u8],
    values: &[u8],
    start: u32,
    steps: u32,
    resumed: bool,
    counts: &mut [u32],
    counted: bool,
    field: u32,
    shape: &[u32],
    bands: Bands,
    plan: &[u32],
    room: &mut [i32],
) -> Report
    requires { Begins words.now rule sizes.now reach grid.old scratch.old marks.old values.now start steps × CountsFit counted rule.fields sizes.now field (length counts.old) × Making words.now rule sizes.now shape.now bands plan.now reach all_open (length room.old) }
    ensures ran { Ran words.now rule sizes.now reach all_open values.now start steps (pending_in resumed marks.old) grid.old result grid.new marks.new }
    ensures counts { Tallied words.now rule sizes.now reach all_open counted field grid.new counts.old counts.new }
{
    let mut leaves = [0u32; LEAF_WORDS];
    fill_leaves(
        words,
        shape,
        rule.tokens,
        rule.fields as usize,
        rule.slots as usize,
        &mut leaves,
    );
    let mut backs = [0u32; PLACE_WORDS];
    let listed = set_ways(sizes, reach, &mut backs);
    begin_marks(resumed, all_open, grid, scratch, marks);
    fill_asked(counted, sizes, rule.fields, field, grid, counts);
    run_marked(
        &leaves, words, rule, sizes, reach, &backs, listed, all_open, grid, scratch, marks, values,
        start, steps, counts, counted, field, shape, bands, plan, room,
    )
}

// The same, each step of the whole grid.
pub fn run_steps(
    words: &[u32],
    rule: Rule,
    sizes: &[u32],
    reach: Reach,
    all_open: bool,
    grid: &mut [i32],
    scratch: &mut [i32],
    marks: &mut [u8],
    values: &[u8],
    start: u32,
    steps: u32,
    resumed: bool,
    counts: &mut [u32],
    counted: bool,
    field: u32,
) -> Report
    requires { Begins words.now rule sizes.now reach grid.old scratch.old marks.old values.now start steps × CountsFit counted rule.fields sizes.now field (length counts.old) }
    ensures ran { Ran words.now rule sizes.now reach all_open values.now start steps (pending_in resumed marks.old) grid.old result grid.new marks.new }
    ensures counts { Tallied words.now rule sizes.now reach all_open counted field grid.new counts.old counts.new }
{
    let mut none = [0i32; 1];
    run_by(
        words,
        rule,
        sizes,
        reach,
        all_open,
        grid,
        scratch,
        marks,
        values,
        start,
        steps,
        resumed,
        counts,
        counted,
        field,
        sizes,
        Bands {
            banded: false,
            row: 0,
            before: 0,
            behind: 0,
        },
        sizes,
        &mut none,
    )
}
