#![tactic(auto)]

// The word table of a program, four words a token, and an accepted source as it stands in it.
ghost use Rattle.std.specs.Prelude.{◌≡◌, ◌<◌, ◌≤◌, length};
ghost use Rattle.value.specs.Limits.{most_tokens, table_words};
ghost use Rattle.token.specs.Scanning.{kind_in};
ghost use Rattle.program.specs.Table.{word_at, with_word};
ghost use Rattle.program.specs.Promises.Standing.{Stands};

pub mod reply;

use token::{Scan, Token, kind};
use value::limits::MOST_TOKENS;

// An accepted source, as it stands in the word table: the number of its tokens, the position of the token that has the first field's range,
// that of its first statement, the numbers of dimensions, of fields and of slots that its variables need, and whether `time` occurs in it.
#[derive(Clone, Copy, Debug, PartialEq, Eq, Hash)]
pub struct Rule {
    pub tokens: usize,
    pub base: usize,
    pub body: usize,
    pub dims: u32,
    pub fields: u32,
    pub slots: u32,
    pub timed: bool,
}

// The token at position i, or the stop after the last one.
pub fn token_at(words: &[u32], scan: Scan, i: usize) -> Token
    requires { (scan.count ≤ most_tokens) × (length words.now ≡ table_words) }
    ensures { Stands words.now scan i result }
{
    if i < scan.count {
        let span = words[4 * i + 1];
        return Token {
            kind: words[4 * i],
            start: span % 65536,
            len: span / 65536,
            value: words[4 * i + 2],
        };
    }
    Token {
        kind: kind::STOP,
        start: scan.place,
        len: 0,
        value: scan.number,
    }
}

// The kind of the token at position i, also of the one after the last at which the sequence stops.
pub fn kind_at(words: &[u32], scan: Scan, i: usize) -> u32
    requires { (scan.count ≤ most_tokens) × (length words.now ≡ table_words) }
    ensures { result ≡ kind_in words.now scan i }
{
    if i < scan.count {
        return words[4 * i];
    }
    scan.kind
}

// Word w of the token at position i; 0 after the table's end.
pub fn word_at(words: &[u32], i: usize, w: usize) -> u32
    requires { (w < 4) × (length words.now ≡ table_words) }
    ensures { result ≡ word_at words.now i w }
{
    if i < MOST_TOKENS {
        return words[4 * i + w];
    }
    0
}

// Writes word w of the token at position i; after the table's end there is nothing to write.
pub fn put_word(words: &mut [u32], i: usize, w: usize, v: u32)
    requires { (w < 4) × (length words.old ≡ table_words) }
    ensures { words.new ≡ with_word words.old i w v }
{
    if i < MOST_TOKENS {
        words[4 * i + w] = v;
    }
}
