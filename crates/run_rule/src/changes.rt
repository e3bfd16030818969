// The value list that leads from the grid that is given to the grid that is left.
use crate::Task;
use crate::arguments::{Call, output_argument};
use list_writer::write_list;
use run_steps::Report;
use std::io::Write;
use tool_console::arguments::{Argument, Refusal, refuse};
use tool_console::replies::Reply;
use tool_console::rooms::{ROOM, TEXT, room};
use tool_console::texts::{complain, fail};
use value::limits::{NAME_WORDS, TABLE_WORDS};

// Tests that a grid of so many entries can be kept, if it has to be: it takes half of the room. If not, that is said.
pub fn test_size(rt: &HostRuntime, call: &Call, entries: usize) -> Result<(), Refusal> {
    if call.changes.is_none() || entries <= ROOM / 2 {
        return Ok(());
    }
    Err(refuse(
        rt,
        "run_rule: GRID has more than 393216 entries, too many for CHANGES\n",
    ))
}

// Keeps a copy of a grid at the start of a room, if the list of changes is requested.
pub fn keep<'a>(call: &Call, grid: &[i32], room: &'a mut [i32]) -> Option<&'a [i32]> {
    call.changes?;
    let copy = room.get_mut(..grid.len())?;
    copy.copy_from_slice(grid);
    Some(copy)
}

// The time that a run has reached after so many steps. No run begins at a negative start.
pub fn time_after(start: i64, steps: u32) -> u64 {
    u64::try_from(start).map_or(0, |start| start.wrapping_add(u64::from(steps)))
}

// The time that a run has reached, as `write_list` takes it; a negative number if it is none.
fn time_reached(start: i64, steps: u32) -> i64 {
    i32::try_from(time_after(start, steps)).map_or(-1, i64::from)
}

// Says why the list could not be written.
fn complain_reply(rt: &HostRuntime, number: u32) {
    let why = match number {
        57 => ": the list of changes is too long for this program",
        _ => "",
    };
    complain(rt, format_args!("run_rule: CHANGES: reply {number}{why}\n"));
}

// Writes a text to CHANGES. If that cannot be done, it is said.
fn write_text(rt: &HostRuntime, argument: Argument, text: &[u8]) {
    let Ok(mut file) = output_argument(rt, argument) else {
        return;
    };
    if let Err(error) = file.write_all(text) {
        fail(rt, b"CHANGES", &error);
    }
}

// Writes the list of changes, if it is requested, where a copy of the grid as given is kept, and the run began.
pub fn write(
    rt: &HostRuntime,
    task: &Task<'_>,
    earlier: Option<&[i32]>,
    later: &[i32],
    report: Report,
) {
    let (Some(argument), Some(earlier)) = (task.call.changes, earlier) else {
        return;
    };
    if !Reply(report.number).has_begun() {
        return;
    }
    let list = spelling::BUILT_IN;
    let mut words = [0u32; TABLE_WORDS];
    let mut names = [0u32; NAME_WORDS];
    let mut text: [u8; TEXT] = room(0);
    let time = time_reached(task.order.start, report.steps);
    let written = write_list(
        task.source,
        &list,
        &mut words,
        &mut names,
        task.sizes,
        earlier,
        later,
        time,
        &mut text,
    );
    match written {
        Ok(length) => write_text(rt, argument, &text[..text.len().min(length as usize)]),
        Err(refusal) => complain_reply(rt, refusal.number),
    }
}
