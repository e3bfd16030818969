// What a case has: numbers, the lowest byte first, and bytes. A case is read in parts, each in a room that has a little more than a case may use.
ghost use Rattle.std.specs.Prelude.{◌≤◌, IfOk};

use std::fmt;
use std::io::{Error, Read};

// Why the answers end.
#[derive(Clone, Copy, Debug, PartialEq, Eq)]
pub enum End {
    // The input has ended, a case does not fit, or an answer cannot be written.
    Over,
}

impl From<Error> for End {
    fn from(_error: Error) -> End {
        End::Over
    }
}

impl From<fmt::Error> for End {
    fn from(_error: fmt::Error) -> End {
        End::Over
    }
}

// A length, if it is not over what a case may have.
pub fn within(length: u32, most: u32) -> Result<usize, End>
    ensures { IfOk result (λ n. n ≤ most) }
{
    if length <= most {
        Ok(length as usize)
    } else {
        Err(End::Over)
    }
}

// The first n entries of a room, if it has as many.
pub fn front<T>(room: &mut [T], n: usize) -> Result<&mut [T], End> {
    room.get_mut(..n).ok_or(End::Over)
}

// Reads the next n bytes into a room, at once.
pub fn part<'a, R: Read>(input: &mut R, room: &'a mut [u8], n: usize) -> Result<&'a [u8], End> {
    let bytes = front(room, n)?;
    input.read_exact(bytes)?;
    Ok(bytes)
}

// Reads the bytes of a grid that has so many entries, and so many bytes after it.
pub fn grid_part<'a, R: Read>(
    input: &mut R,
    room: &'a mut [u8],
    entries: u32,
    after: usize,
) -> Result<(&'a [u8], &'a [u8]), End> {
    let n = 4 * within(entries, 4100)?;
    part(input, room, n.saturating_add(after))?
        .split_at_checked(n)
        .ok_or(End::Over)
}

// The next bytes, as many as an array has.
fn array<R: Read, const N: usize>(input: &mut R) -> Result<[u8; N], End> {
    let mut bytes = [0u8; N];
    input.read_exact(&mut bytes)?;
    Ok(bytes)
}

// The next number of four bytes.
pub fn word<R: Read>(input: &mut R) -> Result<u32, End> {
    Ok(u32::from_le_bytes(array(input)?))
}

// The next signed number of eight bytes.
pub fn long<R: Read>(input: &mut R) -> Result<i64, End> {
    Ok(i64::from_le_bytes(array(input)?))
}

// Puts the numbers of four bytes each that a part has into a room, each as a function makes it of them.
pub fn numbers<'a, T: Copy, F: Fn([u8; 4]) -> T>(
    part: &[u8],
    room: &'a mut [T],
    number: F,
) -> Result<&'a mut [T], End>
    requires { F.IsAlwaysCallable number }
{
    let (each, _) = part.as_chunks::<4>();
    let made = front(room, each.len())?;
    for (to, four) in made.iter_mut().zip(each) {
        *to = number(*four);
    }
    Ok(made)
}
