// The tokens of a source, written into the word table one after the other.
ghost use Rattle.std.specs.Prelude.{◌≡◌, [], ◌∷◌, ◌++◌, ◌+◌, ◌*◌, ◌≤◌, ◌<◌, length, take, drop};
ghost use Rattle.value.specs.Limits.{most_bytes, most_tokens, table_words};
ghost use Rattle.token.specs.Scanning.{token_words};
ghost use Rattle.token.specs.Promises.Promises.{Stops, Fills};

use crate::{Cursor, Lexed, Scan, Token, kind};
use value::limits::MOST_TOKENS;
use value::tables::put_four;

// The number at which the sequence stops at a token read after `count` tokens, if it does.
// Kept: no plainer, here and below. The reasons have names in `program`, which stands on this crate.
#[tactic(auto, using(crate::proofs::Scans::Stopping))]
fn stop_number(count: usize, t: Token) -> Option<u32>
    requires { 1 ≤ t.kind + t.value }
    ensures { Stops count t result }
{
    if t.kind == kind::STOP {
        return Some(t.value);
    }
    if MOST_TOKENS <= count {
        return Some(5);
    }
    if t.kind == kind::REFUSED {
        return Some(6);
    }
    None
}

// Writes token number i: its kind, its place and its length, its value, and 0.
fn write_token(words: &mut [u32], i: usize, t: Token)
    requires { (i < most_tokens) × (length words.old ≡ table_words) × (t.start ≤ most_bytes) × (t.len ≤ most_bytes) }
    ensures { words.new ≡ take (4 * i) words.old ++ token_words (t ∷ []) ++ drop (4 * i + 4) words.old }
{
    put_four(words, 4 * i, t.kind, t.start + 65536 * t.len, t.value, 0);
}

// Reads the tokens of a source and writes them from the table's beginning on, up to the stop.
// Kept: no plainer. The loop has no range: it ends at the stop, and counts the tokens before it.
pub fn read_tokens(source: &[u8], words: &mut [u32]) -> Scan
    requires { (length source.now ≤ most_bytes) × (length words.old ≡ table_words) }
    ensures { Fills source.now result words.new }
{
    let mut cursor = Cursor::start();
    let mut count: usize = 0;
    loop {
        let here = cursor.past_blanks(source);
        let at = here.at;
        if source.len() <= at {
            return Scan {
                count,
                number: 7,
                place: at as u32,
                kind: kind::STOP,
            };
        }
        let Lexed { token, next } = here.next(source);
        if let Some(number) = stop_number(count, token) {
            return Scan {
                count,
                number,
                place: at as u32,
                kind: token.kind,
            };
        }
        write_token(words, count, token);
        cursor = next;
        count += 1;
    }
}
