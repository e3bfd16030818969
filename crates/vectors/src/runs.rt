// A run, full and quiet, and a run in a manner, which has a tail.
use crate::answers::Start;
use crate::lines::{write_call, write_run};
use crate::reading::{End, front, grid_part, long, numbers, part, within, word};
use crate::rooms::{filled, left_of, marks_entry, scratch_entry};
use run_steps::{Manner, Report};
use std::io::Read;

// What a run is passed after its start: the bytes of the grid, the lengths of scratch and marks, the times and the value list.
#[derive(Clone, Copy, Debug)]
struct Run<'a> {
    entries: &'a [u8],
    scratch: usize,
    marks: usize,
    start: i64,
    steps: i64,
    values: &'a [u8],
}

// Reads the grid and what follows it, up to the value list.
fn read_run<'a, R: Read>(
    input: &mut R,
    start: &Start<'_>,
    grid_room: &'a mut [u8],
    list_room: &'a mut [u8],
) -> Result<Run<'a>, End> {
    let (entries, mut rest) = grid_part(input, grid_room, start.entries, 28)?;
    let scratch = word(&mut rest)?;
    let marks = word(&mut rest)?;
    let time = long(&mut rest)?;
    let steps = long(&mut rest)?;
    let length = word(&mut rest)?;
    Ok(Run {
        entries,
        scratch: scratch as usize,
        marks: marks as usize,
        start: time,
        steps,
        values: part(input, list_room, length as usize)?,
    })
}

// Whether the run that a reply is of began.
fn began(number: u32) -> bool {
    matches!(number, 0 | 30..=33)
}

// The manner of a number.
fn manner_of(number: u32) -> Option<Manner> {
    match number {
        0 => Some(Manner::Full),
        1 => Some(Manner::Quiet),
        2 => Some(Manner::Pausing),
        3 => Some(Manner::Resuming),
        _ => None,
    }
}

// Runs a source with the built-in list.
fn run_source(
    start: &Start<'_>,
    run: &Run<'_>,
    manner: Manner,
    words: &mut [u32],
    names: &mut [u32],
    grid: &mut [i32],
    scratch: &mut [i32],
    marks: &mut [u8],
    counts: &mut [u32],
    counted: Option<u32>,
) -> Report {
    let list = spelling::BUILT_IN;
    run_source::run(
        start.source,
        &list,
        words,
        names,
        start.sizes,
        grid,
        scratch,
        marks,
        run.values,
        run.start,
        run.steps,
        manner,
        counts,
        counted.is_some(),
        counted.unwrap_or(0),
    )
}

// Runs a source in one manner, and writes the line.
fn answer_way(
    rt: &HostRuntime,
    start: &Start<'_>,
    run: &Run<'_>,
    manner: Manner,
) -> Result<(), End> {
    let mut grid_room = [0i32; 4100];
    let mut scratch_room = [0i32; 4100];
    let mut marks_room = [0u8; 65540];
    let mut word_room = [0u32; 16400];
    let mut name_room = [0u32; 4096];
    let grid = numbers(run.entries, &mut grid_room, i32::from_le_bytes)?;
    let scratch = filled(&mut scratch_room, run.scratch, scratch_entry)?;
    let marks = filled(&mut marks_room, run.marks, marks_entry)?;
    let words = front(&mut word_room, start.words)?;
    let names = front(&mut name_room, start.names)?;
    let report = run_source(
        start,
        run,
        manner,
        words,
        names,
        grid,
        scratch,
        marks,
        &mut [],
        None,
    );
    let begun = began(report.number);
    write_run(
        rt,
        report,
        left_of(scratch, scratch_entry, begun),
        left_of(marks, marks_entry, begun),
        grid,
    )
}

// Reads the rest of a run, and runs the source full and then quiet.
pub fn answer_run<R: Read>(rt: &HostRuntime, input: &mut R, start: &Start<'_>) -> Result<(), End> {
    let mut grid_room = [0u8; 16428];
    let mut list_room = [0u8; 4096];
    let run = read_run(input, start, &mut grid_room, &mut list_room)?;
    answer_way(rt, start, &run, Manner::Full)?;
    answer_way(rt, start, &run, Manner::Quiet)
}

// What the tail of a run in a manner has before the marks and the counts: the manner, the field whose rows are counted, if any, and how many counts there are.
#[derive(Clone, Copy, Debug)]
struct Tail {
    manner: Manner,
    counted: Option<u32>,
    rows: u32,
}

// Reads the tail of a run in a manner, up to the marks.
fn read_tail<R: Read>(input: &mut R) -> Result<Tail, End> {
    let mut room = [0u8; 16];
    let mut tail = part(input, &mut room, 16)?;
    let manner = manner_of(word(&mut tail)?).ok_or(End::Over)?;
    let asked = within(word(&mut tail)?, 1)?;
    let field = word(&mut tail)?;
    Ok(Tail {
        manner,
        counted: (asked == 1).then_some(field),
        rows: word(&mut tail)?,
    })
}

// Reads the marks and the counts of a run in a manner, runs the source so, and writes the line. No more marks are read than a grid may have entries.
fn answer_tail<R: Read>(
    rt: &HostRuntime,
    input: &mut R,
    start: &Start<'_>,
    run: &Run<'_>,
    tail: Tail,
) -> Result<(), End> {
    let mut grid_room = [0i32; 4100];
    let mut scratch_room = [0i32; 4100];
    let mut marks_room = [0u8; 4100];
    let mut word_room = [0u32; 16400];
    let mut name_room = [0u32; 4096];
    let mut counts_part = [0u8; 16400];
    let mut counts_room = [0u32; 4100];
    let grid = numbers(run.entries, &mut grid_room, i32::from_le_bytes)?;
    let scratch = filled(&mut scratch_room, run.scratch, scratch_entry)?;
    let words = front(&mut word_room, start.words)?;
    let names = front(&mut name_room, start.names)?;
    let marks = front(&mut marks_room, run.marks)?;
    let counts_end = 4 * within(tail.rows, 4100)?;
    input.read_exact(marks)?;
    let given = part(input, &mut counts_part, counts_end)?;
    let counts = numbers(given, &mut counts_room, u32::from_le_bytes)?;
    let report = run_source(
        start,
        run,
        tail.manner,
        words,
        names,
        grid,
        scratch,
        marks,
        counts,
        tail.counted,
    );
    let left = left_of(scratch, scratch_entry, began(report.number));
    write_call(rt, report, left, grid, marks, counts)
}

// Reads the rest of a run in a manner, with its tail, runs the source so, and writes the line.
pub fn answer_call<R: Read>(rt: &HostRuntime, input: &mut R, start: &Start<'_>) -> Result<(), End> {
    let mut grid_room = [0u8; 16428];
    let mut list_room = [0u8; 4096];
    let run = read_run(input, start, &mut grid_room, &mut list_room)?;
    let tail = read_tail(input)?;
    answer_tail(rt, input, start, &run, tail)
}
