// The cases, and what runs and writings begin with. Lengths may be a little more than a call takes, so that lengths that are wrong come in too; a case that is
// cut short, or that does not fit, ends the answers.
use crate::checks::answer_check;
use crate::reading::{End, numbers, part, within, word};
use crate::runs::{answer_call, answer_run};
use crate::writings::answer_writing;
use std::io::Read;

// What runs and writings are passed first: the source, the lengths of the word table and of the name list, in words, the sizes, and how many entries the grid has,
// in a writing the earlier one.
#[derive(Clone, Copy, Debug)]
pub struct Start<'a> {
    pub source: &'a [u8],
    pub words: usize,
    pub names: usize,
    pub sizes: &'a [u32],
    pub entries: u32,
}

// Reads the rest of a run or a writing, from the source on, which is so long, and answers it.
fn answer_longer<R: Read>(
    rt: &HostRuntime,
    input: &mut R,
    kind: u32,
    length: u32,
) -> Result<(), End> {
    let mut source_room = [0u8; 65552];
    let n = within(length, 65540)?;
    let (source, mut lengths) = part(input, &mut source_room, n + 12)?
        .split_at_checked(n)
        .ok_or(End::Over)?;
    let words = word(&mut lengths)?;
    let names = word(&mut lengths)?;
    let sizes_end = 4 * within(word(&mut lengths)?, 8)?;
    let mut sizes_part = [0u8; 36];
    let (sizes, mut rest) = part(input, &mut sizes_part, sizes_end + 4)?
        .split_at_checked(sizes_end)
        .ok_or(End::Over)?;
    let mut sizes_room = [0u32; 8];
    let start = Start {
        source,
        words: words as usize,
        names: 4 * names as usize,
        sizes: numbers(sizes, &mut sizes_room, u32::from_le_bytes)?,
        entries: word(&mut rest)?,
    };
    match kind {
        0 => answer_run(rt, input, &start),
        1 => answer_writing(rt, input, &start),
        2 => answer_call(rt, input, &start),
        _ => Err(End::Over),
    }
}

// Answers the next case.
pub fn answer_next<R: Read>(rt: &HostRuntime, input: &mut R) -> Result<(), End> {
    let mut room = [0u8; 8];
    let mut head = part(input, &mut room, 8)?;
    let kind = word(&mut head)?;
    let length = word(&mut head)?;
    if kind == 3 {
        answer_check(rt, input, length)
    } else {
        answer_longer(rt, input, kind, length)
    }
}
