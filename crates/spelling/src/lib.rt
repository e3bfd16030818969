#![tactic(auto)]

// The spelling that is returned with a refusal: a part of the source, or of the built-in list that is passed beside it.
ghost use Rattle.std.specs.Prelude.{◌≡◌, Some};
ghost use Rattle.token.specs.Lexeme.{is_built_in};
ghost use Rattle.spelling.specs.Spelling.{names_token, token_part, part_at, part_entries};
ghost use Rattle.spelling.specs.Promises.Parts.{told_entries, part_of, spelling_of, IsPart};

use token::kind;
use value::limits::MOST_BYTES;

// Where a spelling is: in the built-in list or in the source, its first byte and its length.
#[derive(Clone, Copy, Debug, PartialEq, Eq)]
pub enum Part {
    Listed { start: usize, len: usize },
    Source { start: usize, len: usize },
}

#[tactic(auto, unfolding(crate::specs::Spelling::names_token))]
fn names_token(number: u32) -> bool
    ensures { result ≡ names_token number }
{
    matches!(number, 3..=15 | 40..=45)
}

// The spelling of a token of a kind and a length at a place.
fn token_part(k: u32, len: usize, place: usize) -> Part
    ensures { part_of (Some result) ≡ token_part k len place }
{
    match k {
        kind::CELL => Part::Listed { start: 0, len: 4 },
        kind::TIME => Part::Listed { start: 5, len: 4 },
        kind::REFUSED if len == 6 => Part::Listed { start: 10, len: 6 },
        _ => Part::Source { start: place, len },
    }
}

// Where the spelling of a reply is, within the source or the built-in list; nowhere if it names no token, and at the end of the source.
fn part_at(source: &[u8], number: u32, place: u32) -> Option<Part>
    ensures { IsPart source.now number place result }
{
    let at = place as usize;
    if !names_token(number) {
        return None;
    }
    if source.len() <= at {
        return None;
    }
    if MOST_BYTES < source.len() {
        return None;
    }
    if number == 3 {
        return Some(Part::Source { start: at, len: 1 });
    }
    let token = token::read_at(source, at).token;
    Some(token_part(token.kind, token.len as usize, at))
}

// Where a spelling is, as numbers: 0 nowhere, 1 in the source, 2 in the built-in list; its first byte, and its length.
// Kept: the C interface. These three numbers stand in each reply.
#[derive(Clone, Copy, Debug, PartialEq, Eq)]
pub struct Told {
    pub stands: u32,
    pub start: u32,
    pub len: u32,
}

// Where the spelling of a reply is, in numbers.
pub fn told_part(source: &[u8], number: u32, place: u32) -> Told
    ensures { told_entries result ≡ part_entries (part_at source.now number place) }
{
    match part_at(source, number, place) {
        Some(Part::Listed { start, len }) => Told {
            stands: 2,
            start: start as u32,
            len: len as u32,
        },
        Some(Part::Source { start, len }) => Told {
            stands: 1,
            start: start as u32,
            len: len as u32,
        },
        None => Told {
            stands: 0,
            start: 0,
            len: 0,
        },
    }
}

// The built-in list.
pub const BUILT_IN: [u8; 16] = *b"cell time random";

pub fn is_built_in(list: &[u8]) -> bool
    ensures { result ≡ is_built_in list.now }
{
    list == BUILT_IN.as_slice()
}

// The spelling of a reply: a part of either the source or the built-in list.
pub fn spelling<'a>(source: &'a [u8], list: &'a [u8], number: u32, place: u32) -> &'a [u8]
    ensures { result.now ≡ spelling_of source.now list.now number place }
{
    if !is_built_in(list) {
        return &[];
    }
    match part_at(source, number, place) {
        Some(Part::Listed { start, len }) => &list[start..start + len],
        Some(Part::Source { start, len }) => &source[start..start + len],
        None => &[],
    }
}
