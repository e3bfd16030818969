// A writing.
use crate::answers::Start;
use crate::lines::write_writing;
use crate::reading::{End, front, grid_part, long, numbers, word};
use crate::rooms::{filled, room_entry};
use list_writer::write_list;
use std::io::Read;

// What a writing is passed after the earlier grid, but for the room's length: the bytes of both grids and the time.
#[derive(Clone, Copy, Debug)]
struct Writing<'a> {
    earlier: &'a [u8],
    later: &'a [u8],
    time: i64,
    length: usize,
}

// Reads the rest of a writing.
fn read_writing<'a, R: Read>(
    input: &mut R,
    start: &Start<'_>,
    earlier_room: &'a mut [u8],
    later_room: &'a mut [u8],
) -> Result<Writing<'a>, End> {
    let (earlier, mut rest) = grid_part(input, earlier_room, start.entries, 4)?;
    let entries = word(&mut rest)?;
    let (later, mut tail) = grid_part(input, later_room, entries, 12)?;
    Ok(Writing {
        earlier,
        later,
        time: long(&mut tail)?,
        length: word(&mut tail)? as usize,
    })
}

// Writes the list into a room, and writes the line.
fn answer_written(rt: &HostRuntime, start: &Start<'_>, writing: &Writing<'_>) -> Result<(), End> {
    let mut word_room = [0u32; 16400];
    let mut name_room = [0u32; 4096];
    let mut earlier_room = [0i32; 4100];
    let mut later_room = [0i32; 4100];
    let mut text_room = [0u8; 4096];
    let text = filled(&mut text_room, writing.length, room_entry)?;
    let list = spelling::BUILT_IN;
    let written = write_list(
        start.source,
        &list,
        front(&mut word_room, start.words)?,
        front(&mut name_room, start.names)?,
        start.sizes,
        numbers(writing.earlier, &mut earlier_room, i32::from_le_bytes)?,
        numbers(writing.later, &mut later_room, i32::from_le_bytes)?,
        writing.time,
        text,
    );
    write_writing(rt, written, text)
}

// Reads the rest of a writing, writes the list into a room, and writes the line.
pub fn answer_writing<R: Read>(
    rt: &HostRuntime,
    input: &mut R,
    start: &Start<'_>,
) -> Result<(), End> {
    let mut earlier_room = [0u8; 16404];
    let mut later_room = [0u8; 16412];
    let writing = read_writing(input, start, &mut earlier_room, &mut later_room)?;
    answer_written(rt, start, &writing)
}
