// A full run by bands of rows, and what is reported of it.
use crate::arguments::Order;
use crate::fields::{field_name, field_told, records_of};
use crate::{Task, reports, write_left};
use run_steps::Report;
use tool_console::arguments::{Refusal, refuse};
use tool_console::replies::Reply;
use tool_console::shapes::fields_of;
use tool_console::texts::say;
use tool_planned_run::{Plan, Request, can_be_held, plan_and_run};
use value::limits::TABLE_WORDS;

// Tests that the rows that can be held of a grid of so many entries have their room, if the run is made of bands. If not, that is said.
pub fn test_size(
    rt: &HostRuntime,
    sizes: &[u32],
    entries: usize,
    order: Order,
) -> Result<(), Refusal> {
    match order.held {
        Some(held) if !can_be_held(sizes, entries, held) => Err(refuse(
            rt,
            "run_rule: R rows have more than 32768 entries\n",
        )),
        _ => Ok(()),
    }
}

// Writes of how many bands a run was made that began, and if there was no plan for it, how many rows are needed.
fn say_plan(rt: &HostRuntime, number: u32, plan: Plan, held: u32) {
    match plan {
        Plan::Missing { needed } => say(
            rt,
            format_args!(
                "bands: none, a band of one row needs {needed} rows with its border rows\n"
            ),
        ),
        Plan::Made { bands } if Reply(number).has_begun() => say(
            rt,
            format_args!("bands: {bands}, of at most {held} rows with their border rows\n"),
        ),
        _ => {}
    }
}

// Reports a run on a grid of so many entries and cells.
#[inline(never)]
fn tell_ran(
    rt: &HostRuntime,
    task: &Task<'_>,
    report: Report,
    words: &[u32; TABLE_WORDS],
    entries: usize,
    cells: usize,
) {
    let told = field_told(report, words, fields_of(entries, cells));
    let named = told.and_then(|field| field_name(task.source, records_of(task.source).rows, field));
    reports::tell(rt, task, report, named, entries, cells);
}

// Runs a source on a grid by bands of rows, reports, and writes what is left. Returns the report.
pub fn run_and_tell(
    rt: &HostRuntime,
    task: &Task<'_>,
    held: u32,
    grid: &mut [i32],
    scratch: &mut [i32],
    marks: &mut [u8],
    counts: &mut [u32],
) -> Report {
    let mut words = [0u32; TABLE_WORDS];
    let order = task.order;
    let request = Request {
        source: task.source,
        sizes: task.sizes,
        values: task.values,
        start: order.start,
        steps: order.steps,
        counted: order.zeros,
        held,
    };
    let made = plan_and_run(request, &mut words, grid, scratch, marks, counts);
    let report = made.report;
    tell_ran(rt, task, report, &words, grid.len(), marks.len());
    say_plan(rt, report.number, made.plan, held);
    write_left(rt, task, report, grid, marks, counts);
    report
}
