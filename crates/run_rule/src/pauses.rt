// The file by which a paused run is resumed: the time that the run has reached, in a line, and then the marks of the cells, 0 or 1, a line for each
// row. A mark is 1 where one more step would open the cell.
use crate::Task;
use crate::arguments::{Call, output_argument};
use crate::changes::time_after;
use crate::rows::Sink;
use run_steps::{Manner, Report};
use std::fmt::Write;
use std::io::Result as Written;
use tool_console::arguments::{Refusal, refuse};
use tool_console::grids::grid_argument;
use tool_console::replies::Reply;
use tool_console::shapes::row;
use tool_console::texts::{Target, complain, fail, say};

// Whether a run leaves its marks to the file.
fn leaves_marks(manner: Manner) -> bool {
    matches!(manner, Manner::Pausing | Manner::Resuming)
}

// Tests that the file is named if a run needs it, and only then. If not, that is said.
pub fn test_file(rt: &HostRuntime, call: &Call, manner: Manner) -> Result<(), Refusal> {
    match (leaves_marks(manner), call.pause) {
        (true, None) => Err(refuse(rt, "run_rule: pause and resume need the file PAUSE\n")),
        (false, Some(_)) => Err(refuse(rt, "run_rule: PAUSE is for pause and resume alone\n")),
        _ => Ok(()),
    }
}

// Takes the numbers of a file, a time, which is the start of the run, and one number for each cell, as the marks from which a run begins. If that cannot be
// done, it is said.
fn take(
    rt: &HostRuntime,
    numbers: &[i32],
    marks: &mut [u8],
    cells: usize,
    start: i64,
) -> Result<(), Refusal> {
    let Some((time, given)) = numbers.split_first() else {
        return Err(refuse(rt, "run_rule: PAUSE is empty\n"));
    };
    if i64::from(*time) != start {
        return Err(refuse(
            rt,
            format_args!("run_rule: PAUSE is of the time {time}, which is not START\n"),
        ));
    }
    let count = given.len();
    if count != cells {
        return Err(refuse(
            rt,
            format_args!("run_rule: PAUSE has {count} marks for {cells} cells\n"),
        ));
    }
    for (mark, n) in marks.iter_mut().zip(given) {
        *mark = match *n {
            0 => 0,
            1 => 1,
            _ => {
                return Err(refuse(rt, "run_rule: PAUSE has a mark that is neither 0 nor 1\n"));
            }
        };
    }
    Ok(())
}

// Reads the marks from which a run begins, if it is resumed, by way of a room of numbers. If they cannot be taken, that is said.
pub fn read(
    rt: &HostRuntime,
    task: &Task<'_>,
    room: &mut [i32],
    marks: &mut [u8],
    cells: usize,
) -> Result<(), Refusal> {
    let order = task.order;
    match (order.manner, task.call.pause) {
        (Manner::Resuming, Some(argument)) => {
            let count = grid_argument(rt, argument, "run_rule: PAUSE", room)?;
            take(rt, &room[..count], marks, cells, order.start)
        }
        _ => Ok(()),
    }
}

// Writes where a run paused, or why it did not, if it was to pause.
pub fn tell(rt: &HostRuntime, task: &Task<'_>, report: Report, marks: &[u8]) {
    let order = task.order;
    if !leaves_marks(order.manner) {
        return;
    }
    if Reply(report.number).is_fault() {
        say(rt, "pause: none, the run cannot be resumed from here\n");
    } else if report.number != 0 {
        say(rt, "pause: none, the run did not begin\n");
    } else {
        let time = time_after(order.start, report.steps);
        let open = marks.iter().filter(|mark| **mark != 0).count();
        say(rt, format_args!("pause: time {time}, {open} cells open\n"));
    }
}

// Writes a time in a line.
#[inline(never)]
fn write_time(file: &mut Target, time: u64) -> Written<()> {
    let mut sink = Sink::new(file);
    let _ = writeln!(sink, "{time}");
    sink.finish()
}

// Writes marks, as numbers.
#[inline(never)]
fn write_marks(file: &mut Target, marks: &[u8], row: usize) -> Written<()> {
    let mut sink = Sink::new(file);
    for (i, mark) in marks.iter().enumerate() {
        sink.put_entry(i32::from(*mark != 0), i, marks.len(), row);
    }
    sink.finish()
}

// Writes a time and then the marks, also where the time could not be written. Of two errors that of the marks is returned.
fn write_both(file: &mut Target, time: u64, marks: &[u8], row: usize) -> Written<()> {
    let timed = write_time(file, time);
    let marked = write_marks(file, marks, row);
    marked.and(timed)
}

// Writes the file, if a run has paused. It is of no use without the grid: if that was not written, the file is not either, which is said.
pub fn write(rt: &HostRuntime, task: &Task<'_>, report: Report, marks: &[u8], written: bool) {
    let order = task.order;
    let Some(argument) = task.call.pause else {
        return;
    };
    if report.number != 0 || !leaves_marks(order.manner) {
        return;
    }
    if !written {
        complain(rt, "run_rule: PAUSE is not written, since OUT is not\n");
        return;
    }
    let Ok(mut file) = output_argument(rt, argument) else {
        return;
    };
    let time = time_after(order.start, report.steps);
    let cells = marks.len();
    if let Err(error) = write_both(&mut file, time, marks, row(task.sizes, cells, cells)) {
        fail(rt, b"PAUSE", &error);
    }
}
