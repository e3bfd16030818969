// The value list of a run: its file, and its lines.
use crate::arguments::{Call, file_argument};
use tool_console::arguments::{Refusal, refuse};
use tool_console::lines::say_first_line;
use tool_console::texts::say;

// Puts the list that is named at the start of a room; it is empty where none is. If it cannot be taken, that is said.
pub fn read_list<'a>(
    rt: &HostRuntime,
    call: &Call,
    room: &'a mut [u8],
) -> Result<&'a [u8], Refusal> {
    let Some(path) = call.list else {
        return Ok(&[]);
    };
    let length = room.len();
    let list = file_argument(rt, path, "LIST", room)?;
    if list.len() >= length {
        return Err(refuse(rt, "run_rule: LIST is longer than 524287 bytes\n"));
    }
    Ok(list)
}

// The rest of a list from the line on that has a number, counted from 1: each line feed and each carriage return ends one.
fn from_line(list: &[u8], line: u64) -> &[u8] {
    let Some(before) = line.checked_sub(2) else {
        return list;
    };
    let ends = list
        .iter()
        .enumerate()
        .filter(|(_, b)| matches!(**b, b'\n' | b'\r'));
    match ends.map(|(i, _)| i).nth(before as usize) {
        Some(end) => list.get(end + 1..).unwrap_or(&[]),
        None => &[],
    }
}

// Writes the line of a list that has a number.
pub fn say_list_line(rt: &HostRuntime, list: &[u8], line: u64) {
    say(rt, format_args!("list: line {line}\n"));
    say_first_line(rt, from_line(list, line));
}
