// A grid that is written as text: a line for each row.
use crate::arguments::{Call, output_argument};
use std::fmt;
use std::fmt::Write as Text;
use std::io::{Result, Write};
use tool_console::texts::{Target, fail};

// A file that is written by way of a buffer: how many bytes are in the buffer, and whether all could be written so far. A part that cannot be written is let go,
// and those after it are written all the same; the last error is the one that stays.
// Kept: only Drop, since it has an error.
#[derive(Drop)]
pub struct Sink<'a> {
    file: &'a mut Target,
    buffer: [u8; 4096],
    count: usize,
    written: Result<()>,
}

impl Sink<'_> {
    // Nothing is in the buffer yet.
    pub fn new(file: &mut Target) -> Sink<'_> {
        Sink {
            file,
            buffer: [0; 4096],
            count: 0,
            written: Ok(()),
        }
    }

    // Writes what is in the buffer.
    fn flush(&mut self) {
        let text = self.buffer.get(..self.count).unwrap_or(&[]);
        if let Err(error) = self.file.write_all(text) {
            self.written = Err(error);
        }
        self.count = 0;
    }

    // Puts entry i of so many, and the byte after it: these take 12 bytes at most, for which room is made, so that each part that is written ends with an entry.
    pub fn put_entry(&mut self, n: i32, i: usize, entries: usize, row: usize) {
        if self.count >= 4000 {
            self.flush();
        }
        let end = behind(i, entries, row);
        let _ = write!(self, "{n}{end}");
    }

    // Writes what is left in the buffer; whether all could be written.
    pub fn finish(mut self) -> Result<()> {
        self.flush();
        self.written
    }
}

impl fmt::Write for Sink<'_> {
    fn write_str(&mut self, text: &str) -> fmt::Result {
        let end = self.count.saturating_add(text.len());
        let Some(room) = self.buffer.get_mut(self.count..end) else {
            return Err(fmt::Error);
        };
        room.copy_from_slice(text.as_bytes());
        self.count = end;
        Ok(())
    }
}

// The byte after an entry: a line feed after the last of a row and after the last of all, else a blank.
fn behind(i: usize, entries: usize, row: usize) -> char {
    let next = i.saturating_add(1);
    if next == entries || next.checked_rem(row) == Some(0) {
        '\n'
    } else {
        ' '
    }
}

// Writes the entries of a grid by way of a buffer.
#[inline(never)]
fn write_rows(file: &mut Target, grid: &[i32], row: usize) -> Result<()> {
    let mut sink = Sink::new(file);
    for (i, n) in grid.iter().enumerate() {
        sink.put_entry(*n, i, grid.len(), row);
    }
    sink.finish()
}

// Writes a grid to OUT; whether that could be done. If not, it is said.
pub fn write_grid(rt: &HostRuntime, call: &Call, grid: &[i32], row: usize) -> bool {
    let Ok(mut file) = output_argument(rt, call.out) else {
        return false;
    };
    match write_rows(&mut file, grid, row) {
        Ok(()) => true,
        Err(error) => {
            fail(rt, b"OUT", &error);
            false
        }
    }
}
