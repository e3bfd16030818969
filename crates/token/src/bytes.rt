// Bytes sorted by kind.
ghost use Rattle.std.specs.Prelude.{◌≡◌, drop};
ghost use Rattle.token.specs.Bytes.{kind_of};
ghost use Rattle.token.specs.Promises.Promises.{Sorts, kind_number, head_kind};

use ByteKind::{
    Blank as B, Comment as C, Digit as D, Letter as A, LineEnd as L, Other as O, Sign as S,
    Underscore as U,
};

// The kind of a byte. No byte has kind `End`, which stands for the end of the source.
#[derive(Clone, Copy, Debug, PartialEq, Eq)]
pub enum ByteKind {
    Other,
    Blank,
    LineEnd,
    Letter,
    Digit,
    Underscore,
    Comment,
    Sign,
    End,
}

// The kind of each byte: A for a letter, O for another, and else the first letter of its kind.
const KINDS: [ByteKind; 256] = [
    O, O, O, O, O, O, O, O, O, B, L, B, B, L, O, O, O, O, O, O, O, O, O, O, O, O, O, O, O, O, O, O,
    B, S, S, C, O, S, S, O, S, S, S, S, S, S, S, S, D, D, D, D, D, D, D, D, D, D, S, O, S, S, S, O,
    O, A, A, A, A, A, A, A, A, A, A, A, A, A, A, A, A, A, A, A, A, A, A, A, A, A, A, S, O, S, O, U,
    O, A, A, A, A, A, A, A, A, A, A, A, A, A, A, A, A, A, A, A, A, A, A, A, A, A, A, O, S, O, O, O,
    O, O, O, O, O, O, O, O, O, O, O, O, O, O, O, O, O, O, O, O, O, O, O, O, O, O, O, O, O, O, O, O,
    O, O, O, O, O, O, O, O, O, O, O, O, O, O, O, O, O, O, O, O, O, O, O, O, O, O, O, O, O, O, O, O,
    O, O, O, O, O, O, O, O, O, O, O, O, O, O, O, O, O, O, O, O, O, O, O, O, O, O, O, O, O, O, O, O,
    O, O, O, O, O, O, O, O, O, O, O, O, O, O, O, O, O, O, O, O, O, O, O, O, O, O, O, O, O, O, O, O,
];

// The table in one place of memory: each use of a constant of this size writes all of it anew.
static TABLE: [ByteKind; 256] = KINDS;

fn table() -> &'static [ByteKind; 256]
    ensures { Sorts result.now }
{
    &TABLE
}

fn kind_of(b: u8) -> ByteKind
    ensures { kind_number result ≡ kind_of b }
{
    table()[b as usize]
}

// The kind of the byte at a position of the source, and `End` past its end.
pub fn kind_at(source: &[u8], i: usize) -> ByteKind
    ensures { kind_number result ≡ head_kind (drop i source.now) }
{
    match source.get(i) {
        Some(&b) => kind_of(b),
        None => ByteKind::End,
    }
}
