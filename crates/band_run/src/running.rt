// A full run under a plan.
ghost use Rattle.std.specs.Prelude.{◌≡◌, true, false, List, ℕ, length, replicate, pos};
ghost use Rattle.run_calls.specs.Calls.{flat_names, memory, lent};
ghost use Rattle.band_planner.specs.Promises.Borders.{border_of};
ghost use Rattle.run_steps.specs.Promises.Stepwise.{pending_in, Begins, Ran};
ghost use Rattle.run_steps.specs.Promises.Countwise.{CountsFit, Tallied};
ghost use Rattle.band_run.specs.BandedRun.{banded_lent};
ghost use Rattle.band_run.specs.Promises.Running.{UnderPlan, BandedLeaves, BandsListed};

use crate::rooms::{tried_length, used_rows};
use band_call::asking::row_cells;
use band_planner::borders::{Border, border_rows};
use band_planner::plans::plan_accepted;
use band_step::lending::room_shape;
use program::Rule;
use program::reply::{Reason, Refusal};
use run_meaning::Reach;
use run_source::opening::{Stop, open_run};
use run_steps::{Bands, Report, run_by};
use spelling::is_built_in;

// The steps of an admitted run, by bands. The room is left with zeros.
fn run_admitted(
    words: &[u32],
    rule: Rule,
    sizes: &[u32],
    reach: Reach,
    border: Border,
    grid: &mut [i32],
    scratch: &mut [i32],
    marks: &mut [u8],
    values: &[u8],
    start: u32,
    steps: u32,
    counts: &mut [u32],
    counted: bool,
    field: u32,
    held: u32,
    plan: &[u32],
    room: &mut [i32],
) -> Report
    requires { Begins words.now rule sizes.now reach grid.old scratch.old marks.old values.now start steps × CountsFit counted rule.fields sizes.now field (length counts.old) × UnderPlan words.now rule sizes.now reach (border_of border) held plan.now (length room.old) }
    ensures ran { Ran words.now rule sizes.now reach true values.now start steps (pending_in false marks.old) grid.old result grid.new marks.new }
    ensures counts { Tallied words.now rule sizes.now reach true counted field grid.new counts.old counts.new }
    ensures room { room.new ≡ replicate (length room.old) (pos 0) }
{
    let row = row_cells(sizes);
    let rows = used_rows(held, sizes[0], border);
    let shape = room_shape(sizes, rows);
    let dims = sizes.len();
    let used = rows as usize * row * rule.fields as usize;
    let report = run_by(
        words,
        rule,
        sizes,
        reach,
        true,
        grid,
        scratch,
        marks,
        values,
        start,
        steps,
        false,
        counts,
        counted,
        field,
        &shape[..dims],
        Bands {
            banded: true,
            row,
            before: border.before as usize,
            behind: border.behind as usize,
        },
        plan,
        &mut room[..used],
    );
    room.fill(0);
    report
}

// Runs a source under a plan, where the built-in list is the one there is.
fn run_planned(
    source: &[u8],
    words: &mut [u32],
    names: &mut [u32],
    sizes: &[u32],
    grid: &mut [i32],
    scratch: &mut [i32],
    marks: &mut [u8],
    values: &[u8],
    start: i64,
    steps: i64,
    counts: &mut [u32],
    counted: bool,
    field: u32,
    held: u32,
    plan: &[u32],
    room: &mut [i32],
) -> Report
    ensures { BandsListed (λ (list : List ℕ). banded_lent (lent source.now list sizes.now (memory words.old names.old grid.old scratch.old marks.old counts.old) values.now start steps counted field) held plan.now room.old) result (memory words.new names.new grid.new scratch.new marks.new counts.new) room.new }
{
    let tried = tried_length(sizes, grid.len(), scratch.len(), held, room.len());
    let opening = match open_run(
        source,
        words,
        names,
        sizes,
        grid,
        tried,
        marks.len(),
        values,
        start,
        steps,
        counts.len(),
        counted,
        field,
    ) {
        Ok(opening) => opening,
        Err(stop) => return Report::from(stop),
    };
    let border = border_rows(opening.reach);
    if !plan_accepted(plan, sizes[0], border, held) {
        return Report::from(Stop::from(Refusal::new(Reason::WrongPlan, 0)));
    }
    let report = run_admitted(
        words,
        opening.rule,
        sizes,
        opening.reach,
        border,
        grid,
        scratch,
        marks,
        values,
        start as u32,
        steps as u32,
        counts,
        counted,
        field,
        held,
        plan,
        room,
    );
    scratch.fill(0);
    marks.fill(0);
    report
}

// Runs a source on a grid under a plan of bands of rows, two entries a band, where so many rows can be held: a full run, each step of which is made of its
// bands. Each band is evaluated by its old rows with its border rows, copied into the room, which is of as many rows as can be held. Numbers, grid,
// scratch, marks and counts are left as by the full run; the room holds zeros. Refused as a full run, with 21 for the room too, and last with 60 for a plan that
// is not accepted: then the room is as it was, as is all else but word table and name list.
pub fn run_banded(
    source: &[u8],
    list: &[u8],
    words: &mut [u32],
    names: &mut [u32],
    sizes: &[u32],
    grid: &mut [i32],
    scratch: &mut [i32],
    marks: &mut [u8],
    values: &[u8],
    start: i64,
    steps: i64,
    counts: &mut [u32],
    counted: bool,
    field: u32,
    held: u32,
    plan: &[u32],
    room: &mut [i32],
) -> Report
    ensures { BandedLeaves flat_names (banded_lent (lent source.now list.now sizes.now (memory words.old names.old grid.old scratch.old marks.old counts.old) values.now start steps counted field) held plan.now room.old) result (memory words.new names.new grid.new scratch.new marks.new counts.new) room.new }
{
    if !is_built_in(list) {
        return Report::from(Stop::from(Refusal::new(Reason::Buffers, 0)));
    }
    run_planned(
        source, words, names, sizes, grid, scratch, marks, values, start, steps, counts, counted,
        field, held, plan, room,
    )
}
