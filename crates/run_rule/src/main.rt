#![tactic(auto)]

// Runs a rule on a grid, called as
//     run_rule RULE SHAPE START STEPS full|quiet|pause|resume GRID OUT [LIST [CHANGES [PAUSE]]] [--rows R] [--zeros FIELD]
// It writes the report of the run in words to standard output, the grid that is left to OUT, and the value list that leads there from the grid
// that was given to CHANGES. LIST is the value list of the run. A run that pauses writes the marks that stand to PAUSE, and one that resumes begins
// from those that it reads there. With --rows the run is made of bands of rows, each evaluated by R rows alone. With --zeros it says how many cells are left with
// 0 in a field. Where an argument or a file cannot be taken it says so on standard error, and writes nothing else.
ghost use Rattle.std.specs.Prelude.{◌≡◌, ◌≤◌, length};
ghost use Rattle.std.specs.Option.{is_some, unwrap_or};
ghost use Rattle.run_source.specs.Promises.Public.{manner_of};
ghost use Rattle.run_rule.specs.Promises.Runs.{RunsRule};

mod arguments;
mod banded;
mod changes;
mod fields;
mod pauses;
mod reports;
mod rows;
mod values;
mod zeros;

use api_naming::Ran;
use arguments::{Call, Order, file_argument, read_call, read_shape};
use rows::write_grid;
use run_steps::Report;
use tool_console::arguments::{Refusal, given_arguments, refuse};
use tool_console::grids::grid_argument;
use tool_console::rooms::{LIST, ROOM, SCRATCH, room};
use tool_console::shapes::{cells_of, fields_of, row};
use value::limits::TABLE_WORDS;

// What a run is made of: the arguments, the source, the sizes of the grid, the value list and the request.
#[derive(Clone, Copy)]
struct Task<'a> {
    call: Call,
    source: &'a [u8],
    sizes: &'a [u32],
    values: &'a [u8],
    order: Order,
}

// A run of a source on a grid with a value list, as requested. The report, the grid, the marks and the counts that are left are those of the
// definition.
fn run(
    source: &[u8],
    words: &mut [u32],
    sizes: &[u32],
    grid: &mut [i32],
    scratch: &mut [i32],
    marks: &mut [u8],
    values: &[u8],
    order: Order,
    counts: &mut [u32],
) -> Ran
    requires { 16384 ≡ length words.old }
    ensures { RunsRule (manner_of order.manner marks.old) source.now sizes.now grid.old (length scratch.old) marks.old values.now order.start order.steps (is_some order.zeros) (unwrap_or order.zeros 0) counts.old result.report grid.new marks.new counts.new }
{
    let list = spelling::BUILT_IN;
    let names = api_naming::no_names();
    let manner = order.manner;
    api_naming::run(
        source,
        &list,
        words,
        names,
        sizes,
        grid,
        scratch,
        marks,
        values,
        order.start,
        order.steps,
        manner,
        counts,
        order.zeros.is_some(),
        order.zeros.unwrap_or(0),
    )
}

// Writes where a run paused and which cells are left with 0 in a field, if requested, and then what is left.
#[inline(never)]
fn write_left(
    rt: &HostRuntime,
    task: &Task<'_>,
    report: Report,
    grid: &[i32],
    marks: &[u8],
    counts: &[u32],
) {
    pauses::tell(rt, task, report, marks);
    zeros::tell(rt, task, report, counts);
    let written = write_grid(
        rt,
        &task.call,
        grid,
        row(task.sizes, grid.len(), marks.len()),
    );
    pauses::write(rt, task, report, marks, written);
}

// Reports a run on a grid of so many entries and cells. Like the next functions with rooms or records of their own it is not inlined, so that the stack has
// these only when no run is on it.
#[inline(never)]
fn tell_ran(
    rt: &HostRuntime,
    task: &Task<'_>,
    ran: &Ran,
    words: &[u32; TABLE_WORDS],
    entries: usize,
    cells: usize,
) {
    let report = ran.report;
    let rows = ran.rows;
    let told = fields::field_told(report, words, fields_of(entries, cells));
    let named = told.and_then(|field| fields::field_name(task.source, rows, field));
    reports::tell(rt, task, report, named, entries, cells);
}

// Runs a source on a grid, reports, and writes what is left. Returns the report.
fn run_and_tell(
    rt: &HostRuntime,
    task: &Task<'_>,
    grid: &mut [i32],
    scratch: &mut [i32],
    marks: &mut [u8],
    counts: &mut [u32],
) -> Report {
    let mut words = [0u32; TABLE_WORDS];
    let ran = run(
        task.source,
        &mut words,
        task.sizes,
        grid,
        scratch,
        marks,
        task.values,
        task.order,
        counts,
    );
    let report = ran.report;
    tell_ran(rt, task, &ran, &words, grid.len(), marks.len());
    write_left(rt, task, report, grid, marks, counts);
    report
}

// Runs a source on a grid, by bands of rows if requested, with a count for each row if zeros are counted, else with none.
fn run_counted(
    rt: &HostRuntime,
    task: &Task<'_>,
    grid: &mut [i32],
    scratch: &mut [i32],
    marks: &mut [u8],
) -> Report {
    let mut rows = [0u32; 4096];
    let counted = rows.len().min(zeros::counts_of(task.sizes, task.order));
    let counts = &mut rows[..counted];
    match task.order.held {
        Some(held) => banded::run_and_tell(rt, task, held, grid, scratch, marks, counts),
        None => run_and_tell(rt, task, grid, scratch, marks, counts),
    }
}

// Runs a source on a grid, from the marks of PAUSE if it is resumed, with as much of two rooms as it needs. They are free again when it ends.
fn run_in_rooms(
    rt: &HostRuntime,
    task: &Task<'_>,
    cells: usize,
    grid: &mut [i32],
) -> Result<Report, Refusal> {
    let mut scratch: [i32; SCRATCH] = room(0);
    let mut marks: [u8; ROOM] = room(0);
    pauses::read(rt, task, &mut scratch, &mut marks, cells)?;
    let kept = scratch.len().min(grid.len());
    let marked = marks.len().min(cells);
    Ok(run_counted(rt, task, grid, &mut scratch[..kept], &mut marks[..marked]))
}

// Runs a source on the grid at the start of a room, and writes what changed, if requested: then a copy of the grid as given follows it.
fn run_and_compare(
    rt: &HostRuntime,
    task: &Task<'_>,
    cells: usize,
    room: &mut [i32],
    count: usize,
) -> Result<(), Refusal>
    requires { count ≤ length room.old }
{
    let (grid, rest) = room.split_at_mut(count);
    let earlier = changes::keep(&task.call, grid, rest);
    let report = run_in_rooms(rt, task, cells, grid)?;
    changes::write(rt, task, earlier, grid, report);
    Ok(())
}

// Reads the grid, and runs a source on it. Standard input is not left for GRID where RULE has read it.
fn run_on_grid(rt: &HostRuntime, task: &Task<'_>, cells: usize) -> Result<(), Refusal> {
    let call = task.call;
    if call.rule.is(rt, b"-") && call.grid.is(rt, b"-") {
        return Err(refuse(rt, "run_rule: GRID: Bad file descriptor\n"));
    }
    let mut grid: [i32; ROOM] = room(0);
    let count = grid_argument(rt, call.grid, "run_rule: GRID", &mut grid)?;
    changes::test_size(rt, &call, count)?;
    banded::test_size(rt, task.sizes, count, task.order)?;
    run_and_compare(rt, task, cells, &mut grid, count)
}

// Reads the value list.
fn run_with_list(
    rt: &HostRuntime,
    call: Call,
    source: &[u8],
    sizes: &[u32],
    cells: usize,
    order: Order,
) -> Result<(), Refusal> {
    let mut list: [u8; LIST] = room(0);
    let values = values::read_list(rt, &call, &mut list)?;
    let task = Task {
        call,
        source,
        sizes,
        values,
        order,
    };
    run_on_grid(rt, &task, cells)
}

// Takes the other arguments, and reads the rule.
fn run_in_shape(rt: &HostRuntime, call: Call, sizes: &[u32]) -> Result<(), Refusal> {
    let cells = cells_of(sizes);
    if cells > ROOM {
        return Err(refuse(rt, "run_rule: SHAPE has more than 786432 cells\n"));
    }
    let asked = call.order(rt)?;
    pauses::test_file(rt, &call, asked.manner)?;
    let mut buffer = io::large_buffer();
    let source = file_argument(rt, call.rule, "RULE", &mut buffer)?;
    let order = zeros::with_zeros(rt, &call, source, asked)?;
    run_with_list(rt, call, source, sizes, cells, order)
}

// Takes the shape.
fn run_rule(rt: &HostRuntime) -> Result<(), Refusal> {
    let given = given_arguments(rt);
    let call = read_call(rt, given.as_slice())?;
    let sizes = read_shape(rt, &call)?;
    run_in_shape(rt, call, sizes.as_slice())
}

// What goes wrong has been said when it ends.
fn main(rt: HostRuntime) {
    let _ = run_rule(&rt);
}
