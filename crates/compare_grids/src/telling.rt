// What a comparison returns, in words. At most 20 differences are listed, in a room of 60 numbers.
use std::fmt;
use tool_console::places::{Cell, Entry};
use tool_console::texts::say;

// Where an entry of a grid is: its cell, and its field where a cell has more than one. Without sizes nothing is written.
#[derive(Clone, Copy, Debug, PartialEq, Eq)]
struct Site<'a>(Entry<'a>);

impl fmt::Display for Site<'_> {
    fn fmt<W: fmt::Write>(&self, f: &mut fmt::Formatter<W>) -> fmt::Result {
        let entry = self.0;
        if entry.sizes.is_empty() {
            return Ok(());
        }
        if entry.fields == 1 {
            let cell = Cell {
                number: entry.number,
                sizes: entry.sizes,
            };
            return write!(f, ", cell {cell}");
        }
        write!(f, ", {entry}")
    }
}

// Writes that two grids cannot be compared, by how many entries they have.
pub fn tell_lengths(rt: &HostRuntime, left: usize, right: usize) {
    say(
        rt,
        format_args!(
            "reply 21: the grids do not have equally many entries, but {left} and {right}\n"
        ),
    );
}

// Writes how many entries differ.
pub fn tell_total(rt: &HostRuntime, total: u32, entries: usize) {
    say(
        rt,
        format_args!("differing entries: {total} of {entries}\n"),
    );
}

// Writes the differences that are listed in a room: the entry and the two values of each.
pub fn tell_differences(
    rt: &HostRuntime,
    room: &[i32; 60],
    total: u32,
    sizes: &[u32],
    fields: usize,
) {
    let (listed, _) = room.as_chunks::<3>();
    for [entry, left, right] in listed.iter().take(total as usize) {
        let number = entry.cast_unsigned();
        let fields = u32::try_from(fields).unwrap_or(0);
        let site = Site(Entry {
            number,
            sizes,
            fields,
        });
        say(
            rt,
            format_args!("entry {number}{site}: left {left}, right {right}\n"),
        );
    }
}

// Writes how many differences there are beside those listed.
pub fn tell_more(rt: &HostRuntime, total: u32) {
    if total > 20 {
        let more = total - 20;
        say(rt, format_args!("and {more} more\n"));
    }
}
