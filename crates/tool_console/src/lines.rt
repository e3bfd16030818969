// The line of a text that has a place, with a caret under it, or how a line of a text begins.
use crate::texts::{say, say_bytes};

// Whether a line ends with a byte.
fn breaks(b: &u8) -> bool {
    matches!(*b, b'\n' | b'\r')
}

// The line that a text begins with, of which at most so many bytes are taken.
fn line_of(text: &[u8], most: usize) -> &[u8] {
    let line = text.split(breaks).next().unwrap_or(&[]);
    line.get(..most).unwrap_or(line)
}

// The line that a text ends with, of which at most the last 60 bytes are taken.
fn line_before(text: &[u8]) -> &[u8] {
    let start = text.iter().rposition(breaks).map_or(0, |i| i + 1);
    let line = &text[start..];
    match line.split_last_chunk::<60>() {
        Some((_, last)) => last.as_slice(),
        None => line,
    }
}

// A byte as it is shown: one that would disturb the line as a question mark.
fn shown(b: &u8) -> u8 {
    match *b {
        b'\t' => b'\t',
        0..=31 => b'?',
        other => other,
    }
}

// Writes bytes, at most 120 of them, as they are shown.
fn say_shown(rt: &HostRuntime, text: &[u8]) {
    let mut line = [0u8; 120];
    for (to, b) in line.iter_mut().zip(text) {
        *to = shown(b);
    }
    let n = text.len().min(120);
    say_bytes(rt, &line[..n]);
}

// Writes blanks as wide as bytes are, of which at most 120 are taken, so that what follows is below what follows the bytes.
fn say_width(rt: &HostRuntime, text: &[u8]) {
    let mut line = [b' '; 120];
    let mut n: usize = 0;
    for b in text {
        if !matches!(*b, 128..=191) {
            if let Some(to) = line.get_mut(n) {
                *to = if *b == b'\t' { b'\t' } else { b' ' };
                n += 1;
            }
        }
    }
    say_bytes(rt, &line[..n.min(120)]);
}

// Writes the line of a source that has a place, and below it a caret under the place. Of a long line the part around the place is shown.
pub fn say_line(rt: &HostRuntime, source: &[u8], place: usize) {
    let (head, rest) = source.split_at_checked(place).unwrap_or((&[], &[]));
    let before = line_before(head);
    say(rt, "    ");
    say_shown(rt, before);
    say_shown(rt, line_of(rest, 60));
    say(rt, "\n    ");
    say_width(rt, before);
    say(rt, "^\n");
}

// Writes the line that a text begins with. Of a long line the first 120 bytes are shown.
pub fn say_first_line(rt: &HostRuntime, text: &[u8]) {
    say(rt, "    ");
    say_shown(rt, line_of(text, 120));
    say(rt, "\n");
}
