// Scratch, marks and a writer's room: what is in them on entry, and what is left of scratch and marks.
use crate::reading::{End, front};
use std::fmt;

// What became of a room: zeros throughout, what was there on entry, or something else.
#[derive(Clone, Copy, Debug, PartialEq, Eq)]
pub enum Left {
    Zero,
    Same,
    Other,
}

impl fmt::Display for Left {
    fn fmt<W: fmt::Write>(&self, f: &mut fmt::Formatter<W>) -> fmt::Result {
        f.write_str(match self {
            Left::Zero => "zero",
            Left::Same => "same",
            Left::Other => "other",
        })
    }
}

// Entry i of scratch on entry.
pub fn scratch_entry(i: usize) -> i32 {
    ((i % 1000 * 7 + 3) % 1000) as i32
}

// Entry i of the marks on entry.
pub fn marks_entry(i: usize) -> u8 {
    ((i % 256 * 5 + 1) % 256) as u8
}

// Byte i of a writer's room on entry.
pub fn room_entry(i: usize) -> u8 {
    ((i % 256 * 3 + 5) % 256) as u8
}

// The first n entries of a room, each as a function makes it of its number, if there are as many.
pub fn filled<T: Copy, F: Fn(usize) -> T>(
    room: &mut [T],
    n: usize,
    entry: F,
) -> Result<&mut [T], End>
    requires { F.IsAlwaysCallable entry }
{
    let used = front(room, n)?;
    for (i, to) in used.iter_mut().enumerate() {
        *to = entry(i);
    }
    Ok(used)
}

// What became of a room. One that is zero and the same, as an empty one, counts as cleared where the run began, and as untouched where it did not.
pub fn left_of<T: Copy + Default + PartialEq, F: Fn(usize) -> T>(
    room: &[T],
    entry: F,
    began: bool,
) -> Left
    requires { F.IsAlwaysCallable entry }
{
    let zero = room.iter().all(|x| *x == T::default());
    let same = room.iter().enumerate().all(|(i, x)| *x == entry(i));
    match (zero, same) {
        (true, false) => Left::Zero,
        (true, true) if began => Left::Zero,
        (_, true) => Left::Same,
        (false, false) => Left::Other,
    }
}
