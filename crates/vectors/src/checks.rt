// Reading the source of a check, and writing its lines.
use crate::lines::write_check;
use crate::reading::End;
use move_profile::{Profile, check_one_move};
use std::io::Read;
use tool_text::read_full;
use value::limits::{NAME_WORDS, TABLE_WORDS};

// The sum of the words in use in a row of records of four words, each times its number in the row, counted from 1. In use are the records before the first whose
// word at `mark` is 0, where a token or a name has its kind.
fn total(words: &[u32], mark: usize) -> u64 {
    let used = words
        .chunks_exact(4)
        .take_while(|record| record.get(mark) != Some(&0))
        .count();
    let numbered = words.iter().zip(1u64..).take(used.saturating_mul(4));
    numbered.fold(0, |sum, (word, i)| {
        sum.wrapping_add(i.wrapping_mul(u64::from(*word)))
    })
}

// Checks a source of so many bytes, of which one more than a source may have is enough to see that it is too long, and writes its lines. Of more the rest, up to
// as many again, is read and dropped.
pub fn answer_check<R: Read>(rt: &HostRuntime, input: &mut R, length: u32) -> Result<(), End> {
    let mut room = io::large_buffer();
    let kept = room.len().min(length as usize);
    let n = read_full(input, &mut room[..kept]);
    if 65536 < length {
        let mut rest = io::large_buffer();
        let dropped = rest.len().min(length as usize - 65536);
        read_full(input, &mut rest[..dropped]);
    }
    let source = &room[..n];
    let mut words = [0u32; TABLE_WORDS];
    let mut names = [0u32; NAME_WORDS];
    let list = spelling::BUILT_IN;
    let reply = read_source::check(source, &list, &mut words, &mut names);
    let part = spelling::told_part(source, reply.number, reply.place);
    let fit = Profile::from(check_one_move(source, &list, &mut words, &mut names));
    let mut line = [0u8; 66];
    let end = tool_reply_line::write_spelled(
        reply.number,
        reply.place,
        part.stands,
        part.start,
        part.len,
        &mut line,
    );
    write_check(
        rt,
        &line[..end.min(66)],
        total(&words, 0),
        total(&names, 2),
        fit,
    )
}
