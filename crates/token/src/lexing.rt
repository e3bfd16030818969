// One token, read at a position of the source where there is neither a separator nor a comment.
ghost use Rattle.std.specs.Prelude.{◌≡◌, ◌≤◌, ◌<◌, length, take, drop};
ghost use Rattle.value.specs.Limits.{most_bytes};
ghost use Rattle.token.specs.Lexeme.{two_byte_tokens, lexeme_of, punctuation};
ghost use Rattle.token.specs.Promises.Promises.{FindsKind, lexed_of, word_here, digits_here};

use crate::bytes::{ByteKind, kind_at};
use crate::runs::{Run, TOO_LARGE, literal_value, run_end};
use crate::spelling::{find_kind, of_length, two_byte};
use crate::{Cursor, Lexed, Token, kind};

// A token of a kind, a length and a value at a place, and the cursor after it.
pub fn token_of(kind: u32, at: usize, len: usize, value: u32) -> Lexed
    requires { (at ≤ most_bytes) × (len ≤ most_bytes) }
    ensures { result ≡ lexed_of (lexeme_of kind len value) at }
{
    let token = Token {
        kind,
        start: at as u32,
        len: len as u32,
        value,
    };
    let next = Cursor { at: at + len };
    Lexed { token, next }
}

// A keyword, a predefined name or an identifier.
#[tactic(auto, using(crate::proofs::Lexemes::word_read))]
pub fn read_word(source: &[u8], at: usize) -> Lexed
    requires { (at < length source.now) × (length source.now ≤ most_bytes) }
    ensures { result ≡ lexed_of (word_here (drop at source.now)) at }
{
    let end = run_end(source, at, Run::Name);
    let word = &source[at..end];
    let kind = find_kind(word, of_length(word.len())).unwrap_or(kind::NAME);
    token_of(kind, at, word.len(), 0)
}

// A literal. A letter or an underscore right after it is refused 3, a value over 2147483647 is refused 4.
#[tactic(auto, using(crate::proofs::Lexemes::Digits))]
pub fn read_digits(source: &[u8], at: usize) -> Lexed
    requires { (at < length source.now) × (length source.now ≤ most_bytes) }
    ensures { result ≡ lexed_of (digits_here (drop at source.now)) at }
{
    let end = run_end(source, at, Run::Literal);
    if matches!(
        kind_at(source, end),
        ByteKind::Letter | ByteKind::Underscore
    ) {
        return token_of(kind::STOP, at, 1, 3);
    }
    let value = literal_value(source, at, end);
    if TOO_LARGE <= value {
        return token_of(kind::STOP, at, end - at, 4);
    }
    token_of(kind::LITERAL, at, end - at, value as u32)
}

// The kind of the two-byte token at a position.
#[tactic(auto, using(crate::proofs::Lexemes::pair_read, crate::proofs::Lexemes::pair_none))]
fn pair_kind(source: &[u8], at: usize) -> Option<u32>
    requires { (at < length source.now) × (length source.now ≤ most_bytes) }
    ensures { FindsKind (take 2 (drop at source.now)) two_byte_tokens result }
{
    let pair = source.get(at..at + 2)?;
    find_kind(pair, two_byte())
}

// A token of signs: the longest wins.
#[tactic(auto, using(crate::proofs::Lexemes::Signs))]
pub fn read_sign(source: &[u8], at: usize) -> Lexed
    requires { (at < length source.now) × (length source.now ≤ most_bytes) }
    ensures { result ≡ lexed_of (punctuation (drop at source.now)) at }
{
    if let Some(two) = pair_kind(source, at) {
        return token_of(two, at, 2, 0);
    }
    match source[at] {
        b'"' => token_of(kind::REFUSED, at, 1, 0),
        one => token_of(one as u32, at, 1, 0),
    }
}
