#![tactic(auto)]

// Tokens: the bytes of a source sorted into tokens, and the stop after the last of them.
ghost use Rattle.std.specs.Prelude.{◌≡◌, ◌≤◌, ◌<◌, length, drop, false};
ghost use Rattle.value.specs.Limits.{most_bytes, table_words};
ghost use Rattle.token.specs.Scanning.{blanks};
ghost use Rattle.token.specs.Promises.Promises.{WalksTokens, ReadsToken, Scans};

pub mod bytes;
pub mod kind;
mod lexing;
pub mod runs;
pub mod scanning;
mod spelling;

use bytes::ByteKind;

// A token: its kind, the place of its first byte, its length in bytes, and a literal's value (else 0).
#[derive(Clone, Copy, Debug, PartialEq, Eq)]
pub struct Token {
    pub kind: u32,
    pub start: u32,
    pub len: u32,
    pub value: u32,
}

// What scanning a source finds: how many tokens, the number and the place of the stop after them, and the kind of the token there.
// Kept: no plainer. Each scan stops, so the number always says why; the definition `scan_of` has these fields.
#[derive(Clone, Copy, Debug, PartialEq, Eq)]
pub struct Scan {
    pub count: usize,
    pub number: u32,
    pub place: u32,
    pub kind: u32,
}

// A reading position, passed by value from token to token.
#[derive(Clone, Copy, Debug, PartialEq, Eq)]
pub struct Cursor {
    pub at: usize,
}

// A token that was read, and the position after it.
#[derive(Clone, Copy, Debug, PartialEq, Eq)]
pub struct Lexed {
    pub token: Token,
    pub next: Cursor,
}

impl Cursor {
    // The beginning of a source.
    pub fn start() -> Cursor
        ensures { result.at ≡ 0 }
    {
        Cursor { at: 0 }
    }

    // The position after the separators and comments here.
    pub fn past_blanks(self, source: &[u8]) -> Cursor
        ensures { WalksTokens (blanks false (drop self.at source.now)) source.now self.at result.at }
    {
        let at = runs::blanks_end(source, self.at);
        Cursor { at }
    }

    // The token here, where there is neither a separator nor a comment; where no token can be read, a stop with its number.
    #[tactic(auto, using(crate::proofs::Lexemes::Tokens))]
    pub fn next(self, source: &[u8]) -> Lexed
        requires { (self.at < length source.now) × (length source.now ≤ most_bytes) }
        ensures { ReadsToken source.now self.at result }
    {
        let at = self.at;
        let kind = bytes::kind_at(source, at);
        if kind == ByteKind::Letter {
            return lexing::read_word(source, at);
        }
        if kind == ByteKind::Digit {
            return lexing::read_digits(source, at);
        }
        if kind == ByteKind::Sign {
            return lexing::read_sign(source, at);
        }
        lexing::token_of(kind::STOP, at, 1, 3)
    }
}

// The token at a place of a source.
pub fn read_at(source: &[u8], at: usize) -> Lexed
    requires { (at < length source.now) × (length source.now ≤ most_bytes) }
    ensures { ReadsToken source.now at result }
{
    Cursor { at }.next(source)
}

// Scans a source: its tokens are written to the word table, four words a token, with zeros after them, whatever the table held before.
pub fn scan_source(source: &[u8], words: &mut [u32]) -> Scan
    requires { (length source.now ≤ most_bytes) × (length words.old ≡ table_words) }
    ensures { Scans source.now result words.new }
{
    let scan = scanning::read_tokens(source, &mut *words);
    words[4 * scan.count..].fill(0);
    scan
}
