// The lines of a check, and the line of a run, of a run in a manner, and of a writing.
use crate::reading::End;
use crate::rooms::Left;
use move_profile::Profile;
use program::reply::Refusal;
use run_steps::Report;
use std::fmt;
use std::fmt::{Display, Write};
use std::io::Stdout;

// A line that is written by way of a room: how many bytes are in the room.
// Kept: only Drop, since it is a room.
#[derive(Drop)]
struct Line {
    output: Stdout,
    room: [u8; 65536],
    count: usize,
}

impl Line {
    // Nothing is in the room yet.
    fn new(rt: &HostRuntime) -> Line {
        Line {
            output: rt.stdout(),
            room: [0; 65536],
            count: 0,
        }
    }

    // Writes what is in the room.
    fn flush(&mut self) -> fmt::Result {
        let text = self.room.get(..self.count).unwrap_or(&[]);
        self.count = 0;
        Print::write_all(&self.output, text).map_err(|_| fmt::Error)
    }

    // Puts bytes into the room, after what is in it is written where they have no room beside that.
    fn put(&mut self, bytes: &[u8]) -> fmt::Result {
        if self.room.len().saturating_sub(self.count) < bytes.len() {
            self.flush()?;
        }
        let end = self.count.saturating_add(bytes.len());
        let room = self.room.get_mut(self.count..end).ok_or(fmt::Error)?;
        room.copy_from_slice(bytes);
        self.count = end;
        Ok(())
    }

    // Puts values, each after a space.
    fn put_all<T: Display>(&mut self, values: &[T]) -> fmt::Result {
        for value in values {
            write!(self, " {value}")?;
        }
        Ok(())
    }

    // Puts bytes in hexadecimal digits.
    fn put_digits(&mut self, bytes: &[u8]) -> fmt::Result {
        for b in bytes {
            self.put(&[digit(*b / 16), digit(*b % 16)])?;
        }
        Ok(())
    }

    // Puts the numbers of a report, and what became of scratch.
    fn put_report(&mut self, report: Report, scratch: Left) -> fmt::Result {
        let number = report.number;
        let place = report.place;
        let list_line = report.line;
        let cell = report.cell;
        let steps = report.steps;
        let count = report.count;
        write!(
            self,
            "{number} {place} {list_line} {cell} {steps} {count} {scratch}"
        )
    }

    // Ends the line, and writes it.
    fn write_ended(mut self) -> Result<(), End> {
        self.put(b"\n")?;
        self.flush()?;
        Ok(())
    }
}

impl fmt::Write for Line {
    fn write_str(&mut self, text: &str) -> fmt::Result {
        self.put(text.as_bytes())
    }
}

// The hexadecimal digit of a number below 16.
fn digit(n: u8) -> u8 {
    match n {
        0..=9 => b'0' + n,
        10..=15 => b'a' - 10 + n,
        _ => b'?',
    }
}

// Writes the lines of a check at once: that of the reply, with its end, and that of the two sums and of the profile.
pub fn write_check(
    rt: &HostRuntime,
    reply: &[u8],
    word_sum: u64,
    name_sum: u64,
    fit: Profile,
) -> Result<(), End> {
    let mut line = Line::new(rt);
    line.put(reply)?;
    let rule = fit.rule;
    let number = fit.number;
    let place = fit.place;
    write!(line, "{word_sum} {name_sum} {rule} {number} {place}")?;
    line.write_ended()
}

// Writes the line of a run.
pub fn write_run(
    rt: &HostRuntime,
    report: Report,
    scratch: Left,
    marks: Left,
    grid: &[i32],
) -> Result<(), End> {
    let mut line = Line::new(rt);
    line.put_report(report, scratch)?;
    write!(line, " {marks} :")?;
    line.put_all(grid)?;
    line.write_ended()
}

// Writes the line of a run in a manner, up to its counts and then these.
pub fn write_call(
    rt: &HostRuntime,
    report: Report,
    scratch: Left,
    grid: &[i32],
    marks: &[u8],
    counts: &[u32],
) -> Result<(), End> {
    let mut line = Line::new(rt);
    line.put_report(report, scratch)?;
    line.put(b" :")?;
    line.put_all(grid)?;
    line.put(b" : ")?;
    line.put_digits(marks)?;
    line.put(b" :")?;
    line.flush()?;
    line.put_all(counts)?;
    line.write_ended()
}

// Writes the line of a writing.
pub fn write_writing(
    rt: &HostRuntime,
    written: Result<u64, Refusal>,
    room: &[u8],
) -> Result<(), End> {
    let mut line = Line::new(rt);
    match written {
        Ok(length) => write!(line, "0 0 {length} : ")?,
        Err(Refusal { number, place }) => write!(line, "{number} {place} 0 : ")?,
    }
    line.put_digits(room)?;
    line.write_ended()
}
