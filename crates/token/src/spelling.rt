// The fixed spellings: the keywords and the predefined names by their length, and after them the two-byte tokens.
ghost use Rattle.std.specs.Prelude.{◌≡◌, map};
ghost use Rattle.token.specs.Bytes.{fold, same};
ghost use Rattle.token.specs.Lexeme.{keywords, two_byte_tokens};
ghost use Rattle.token.specs.Promises.Promises.{spellings, spelled_of, of_length, Groups, FindsKind};

use crate::kind;
use std::ops::Range;

// A fixed spelling, in lower case, and the kind of its token.
pub type Fixed = (&'static [u8], u32);

static FIXED: [Fixed; 25] = [
    (b"if", kind::IF_WORD),
    (b"of", kind::OF_WORD),
    (b"end", kind::END_WORD),
    (b"for", kind::FOR_WORD),
    (b"else", kind::ELSE_WORD),
    (b"exit", kind::EXIT_WORD),
    (b"then", kind::THEN_WORD),
    (b"when", kind::WHEN_WORD),
    (b"cell", kind::CELL),
    (b"time", kind::TIME),
    (b"agent", kind::REFUSED),
    (b"const", kind::CONST_WORD),
    (b"elsif", kind::ELSIF_WORD),
    (b"forall", kind::FORALL_WORD),
    (b"random", kind::REFUSED),
    (b"otherwise", kind::OTHERWISE_WORD),
    (b"dimensions", kind::DIMENSIONS_WORD),
    (b":=", kind::ASSIGN),
    (b"..", kind::DOTS),
    (b"<=", kind::AT_MOST),
    (b">=", kind::AT_LEAST),
    (b"!=", kind::UNEQUAL),
    (b"->", kind::REFUSED),
    (b"+%", kind::REFUSED),
    (b"-%", kind::REFUSED),
];

fn fixed() -> &'static [Fixed; 25]
    ensures { spelled_of result.now ≡ spellings }
{
    &FIXED
}

// The numbers of the keywords and predefined names of n letters.
fn group_of(n: usize) -> Range<usize>
    ensures { Groups n result }
{
    match n {
        2 => 0..2,
        3 => 2..4,
        4 => 4..10,
        5 => 10..13,
        6 => 13..15,
        9 => 15..16,
        10 => 16..17,
        _ => 0..0,
    }
}

// The keywords and predefined names of n letters.
pub fn of_length(n: usize) -> &'static [Fixed]
    ensures { spelled_of result.now ≡ of_length n keywords }
{
    &fixed()[group_of(n)]
}

// The tokens of two bytes.
pub fn two_byte() -> &'static [Fixed]
    ensures { spelled_of result.now ≡ two_byte_tokens }
{
    &fixed()[17..]
}

// Whether a word has a spelling, which is in lower case, letter case aside.
#[tactic(auto, using(crate::proofs::Words::Compares))]
fn spells(word: &[u8], letters: &[u8]) -> bool
    ensures { result ≡ same (map fold word.now) letters.now }
{
    if word.len() != letters.len() {
        return false;
    }
    for (b, letter) in word.iter().zip(letters) {
        if b.to_ascii_lowercase() != *letter {
            return false;
        }
    }
    true
}

// The kind of a word in a table, letter case aside.
pub fn find_kind(word: &[u8], table: &[Fixed]) -> Option<u32>
    ensures { FindsKind (map fold word.now) (spelled_of table.now) result }
{
    for &(letters, kind) in table {
        if spells(word, letters) {
            return Some(kind);
        }
    }
    None
}
