#![tactic(auto)]

// A full run by bands of rows, for a program: the plan for as many rows as can be held, and the run under this plan.
ghost use Rattle.std.specs.Prelude.{◌≡◌};
ghost use Rattle.run_calls.specs.Calls.{memory};
ghost use Rattle.tool_planned_run.specs.Promises.RunsBanded.{lent_listed, RunsBanded};

use program::reply::{Reason, Refusal};
use run_steps::Report;
use tool_console::rooms::{PLAN, ROWS, room};
use tool_console::shapes::{entries_of_rows, rows_of};
use value::limits::NAME_WORDS;

// What is asked of a run: its source, the sizes of its grid, its value list, the time it starts at, the steps, the field whose zeros are counted, if any, and how
// many rows can be held.
#[derive(Clone, Copy, Debug, PartialEq, Eq)]
pub struct Request<'a> {
    pub source: &'a [u8],
    pub sizes: &'a [u32],
    pub values: &'a [u8],
    pub start: i64,
    pub steps: i64,
    pub counted: Option<u32>,
    pub held: u32,
}

// The plan of a run.
#[derive(Clone, Copy, Debug, PartialEq, Eq)]
pub enum Plan {
    // None: fewer rows can be held than a band of one row needs, which is so many.
    Missing { needed: u64 },
    // None, since the request is refused.
    Refused,
    // So many bands.
    Made { bands: u32 },
}

// A report, and the plan that the run was made under.
#[derive(Clone, Copy)]
pub struct Banded {
    pub report: Report,
    pub plan: Plan,
}

// Whether the room of a run has as many rows of a grid as can be held.
pub fn can_be_held(sizes: &[u32], entries: usize, held: u32) -> bool {
    entries_of_rows(sizes, entries, held) <= ROWS
}

// How many rows a band of one row needs with its border rows.
#[inline(never)]
fn rows_needed(request: Request<'_>, words: &mut [u32]) -> u64 {
    let list = spelling::BUILT_IN;
    let mut names = [0u32; NAME_WORDS];
    match band_planner::borders_of(request.source, &list, words, &mut names, request.sizes) {
        Ok(border) => u64::from(border.before) + 1 + u64::from(border.behind),
        Err(_) => 1,
    }
}

// A run of a source on a grid with a value list under a plan, as requested. The report, the grid, the marks and the counts that are left are those of the
// definition.
fn run_under(
    source: &[u8],
    words: &mut [u32],
    names: &mut [u32],
    sizes: &[u32],
    grid: &mut [i32],
    scratch: &mut [i32],
    marks: &mut [u8],
    values: &[u8],
    start: i64,
    steps: i64,
    counts: &mut [u32],
    counted: bool,
    field: u32,
    held: u32,
    plan: &[u32],
    room: &mut [i32],
) -> Report
    ensures { RunsBanded (lent_listed source.now sizes.now (memory words.old names.old grid.old scratch.old marks.old counts.old) values.now start steps counted field held plan.now room.old) result grid.new marks.new counts.new }
{
    let list = spelling::BUILT_IN;
    band_run::run_banded(
        source, &list, words, names, sizes, grid, scratch, marks, values, start, steps, counts,
        counted, field, held, plan, room,
    )
}

// Puts the plan for as many rows as can be held at the start of a room, which has two entries for each row.
fn make_plan(
    request: Request<'_>,
    words: &mut [u32],
    names: &mut [u32],
    bands: &mut [u32],
) -> Result<u32, Refusal> {
    let list = spelling::BUILT_IN;
    let entries = bands.len().min(2 * rows_of(request.sizes) as usize);
    band_planner::plan_bands(
        request.source,
        &list,
        words,
        names,
        request.sizes,
        request.held,
        &mut bands[..entries],
    )
}

// The report of a run for which there is no plan.
fn without_plan() -> Report {
    Report {
        number: Reason::NoPlan.number(),
        place: 0,
        line: 0,
        cell: 0,
        steps: 0,
        count: 0,
    }
}

// A run under a plan, with as much of a room as the rows have that can be held. It is not inlined: the room is on the stack only while it runs.
#[inline(never)]
fn run_in_room(
    request: Request<'_>,
    words: &mut [u32],
    names: &mut [u32],
    grid: &mut [i32],
    scratch: &mut [i32],
    marks: &mut [u8],
    counts: &mut [u32],
    plan: &[u32],
) -> Report {
    let mut rows: [i32; ROWS] = room(0);
    let used = rows
        .len()
        .min(entries_of_rows(request.sizes, grid.len(), request.held));
    run_under(
        request.source,
        words,
        names,
        request.sizes,
        grid,
        scratch,
        marks,
        request.values,
        request.start,
        request.steps,
        counts,
        request.counted.is_some(),
        request.counted.unwrap_or(0),
        request.held,
        plan,
        &mut rows[..used],
    )
}

// Plans, and makes the run under the plan. A refusal of the planner other than 59 is one of the run too, under whatever plan: the run without one returns which of
// its refusals is the first.
pub fn plan_and_run(
    request: Request<'_>,
    words: &mut [u32],
    grid: &mut [i32],
    scratch: &mut [i32],
    marks: &mut [u8],
    counts: &mut [u32],
) -> Banded {
    let mut names = [0u32; NAME_WORDS];
    let mut bands: [u32; PLAN] = room(0);
    let planned = make_plan(request, words, &mut names, &mut bands);
    match planned {
        Ok(made) => {
            let end = bands.len().min(2 * made as usize);
            Banded {
                report: run_in_room(
                    request,
                    words,
                    &mut names,
                    grid,
                    scratch,
                    marks,
                    counts,
                    &bands[..end],
                ),
                plan: Plan::Made { bands: made },
            }
        }
        Err(refusal) if refusal.number == Reason::NoPlan.number() => Banded {
            report: without_plan(),
            plan: Plan::Missing {
                needed: rows_needed(request, words),
            },
        },
        Err(_) => Banded {
            report: run_in_room(
                request,
                words,
                &mut names,
                grid,
                scratch,
                marks,
                counts,
                &bands[..0],
            ),
            plan: Plan::Refused,
        },
    }
}
