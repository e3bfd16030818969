// The cells that are left with 0 in a field, which is named after `--zeros`.
use crate::Task;
use crate::arguments::{Call, Order};
use crate::fields::{field_named, records_of};
use run_row_counts::queries::{first_zero_row, zeros_in_rows};
use run_steps::Report;
use tool_console::arguments::{Argument, Refusal};
use tool_console::replies::Reply;
use tool_console::shapes::rows_of;
use tool_console::texts::{complain, complain_bytes, say, say_bytes};

// The request of a run, with the field that is named, if any. If there is no such field, that is said. A rule that is refused has no fields, and is run to
// report why.
#[inline(never)]
pub fn with_zeros(
    rt: &HostRuntime,
    call: &Call,
    source: &[u8],
    order: Order,
) -> Result<Order, Refusal> {
    let Some(argument) = call.zeros else {
        return Ok(order);
    };
    let ran = records_of(source);
    let report = ran.report;
    if report.number != 20 {
        return Ok(order);
    }
    let rows = ran.rows;
    let mut buffer = io::buffer();
    let name = argument.read(rt, &mut buffer);
    match field_named(source, rows, name) {
        Some(field) => Ok(Order {
            zeros: Some(field),
            ..order
        }),
        None => {
            complain(rt, "run_rule: RULE has no field `");
            complain_bytes(rt, name);
            complain(rt, "`\n");
            Err(Refusal::Said)
        }
    }
}

// How many counts a run is passed: one for each row, if zeros are counted.
pub fn counts_of(sizes: &[u32], order: Order) -> usize {
    if order.zeros.is_some() {
        rows_of(sizes) as usize
    } else {
        0
    }
}

// Writes the name of the field.
#[inline(never)]
fn say_name(rt: &HostRuntime, argument: Argument) {
    let mut buffer = io::buffer();
    say_bytes(rt, argument.read(rt, &mut buffer));
}

// Writes what the counts say of the grid that is left, if zeros are counted and the run began: how many cells have 0 in the field, and which row is the first
// with one.
pub fn tell(rt: &HostRuntime, task: &Task<'_>, report: Report, counts: &[u32]) {
    let Some(argument) = task.call.zeros else {
        return;
    };
    let order = task.order;
    let Some(last) = rows_of(task.sizes).checked_sub(1) else {
        return;
    };
    if order.zeros.is_none() || !Reply(report.number).has_begun() {
        return;
    }
    say(rt, "zeros: field ");
    say_name(rt, argument);
    let total = zeros_in_rows(counts, 0, last).unwrap_or(0);
    say(rt, format_args!(", {total} cells in rows 0 to {last}"));
    if let Ok(row) = first_zero_row(counts) {
        say(rt, format_args!(", first in row {row}"));
    }
    say(rt, "\n");
}
