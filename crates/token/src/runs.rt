// Runs of bytes: where an identifier, a literal, or separators and comments end; and a literal's value.
ghost use Rattle.std.specs.Prelude.{◌≡◌, false, ◌-◌, ◌≤◌, ◌<◌, min, length, take, drop};
ghost use Rattle.token.specs.Lexeme.{extent, decimal};
ghost use Rattle.token.specs.Scanning.{blanks};
ghost use Rattle.token.specs.Promises.Promises.{WalksTokens, Skips, kind_number, in_run, run_test, goes_on, with_digit, too_large};

use crate::bytes::{ByteKind, kind_at};

// The least value that is too large for a literal.
pub const TOO_LARGE: u64 = 2147483648;

// What a run of bytes is: an identifier or a literal.
#[derive(Clone, Copy, Debug, PartialEq, Eq)]
pub enum Run {
    Name,
    Literal,
}

impl Run {
    // Whether a byte of a kind can go on the run: a digit, or in a name a letter too.
    #[tactic(auto, using(crate::proofs::Extents::Tests))]
    fn fits(self, kind: ByteKind) -> bool
        ensures { result ≡ in_run self (kind_number kind) }
    {
        match kind {
            ByteKind::Digit => true,
            ByteKind::Letter => matches!(self, Run::Name),
            _ => false,
        }
    }

    // Whether the byte at i is in the run: it goes on the run, or it is an underscore and the byte after it does.
    #[tactic(auto, using(crate::proofs::Extents::Members))]
    fn has(self, source: &[u8], i: usize) -> bool
        requires { i < length source.now }
        ensures { result ≡ goes_on (run_test self) (drop i source.now) }
    {
        let kind = kind_at(source, i);
        match kind {
            ByteKind::Underscore => self.fits(kind_at(source, i + 1)),
            _ => self.fits(kind),
        }
    }
}

// The end of the longest run from a position on.
// Kept: no plainer, here and in the two walks below. The position is what is looked for, and no index of a range.
#[tactic(auto, using(crate::proofs::Extents::Walk))]
pub fn run_end(source: &[u8], at: usize, run: Run) -> usize
    ensures { WalksTokens (extent (run_test run) (drop at source.now)) source.now at result }
{
    let mut end = at;
    while end < source.len() && run.has(source, end) {
        end += 1;
    }
    end
}

// A value with one byte more after it, and TOO_LARGE if that is more; an underscore changes nothing.
#[tactic(auto, using(crate::proofs::Literals::Bytes))]
fn with_byte(value: u64, b: u8) -> u64
    requires { value ≤ too_large }
    ensures { result ≡ min too_large (with_digit value b) }
{
    if b == b'_' {
        return value;
    }
    let digit = b.saturating_sub(b'0');
    (value * 10 + digit as u64).min(TOO_LARGE)
}

// The value of the bytes from a position to an end, and TOO_LARGE if that is more.
#[tactic(auto, using(crate::proofs::Literals::Sums))]
pub fn literal_value(source: &[u8], at: usize, end: usize) -> u64
    requires { end ≤ length source.now }
    ensures { result ≡ min too_large (decimal 0 (take (end - at) (drop at source.now))) }
{
    let mut value: u64 = 0;
    for i in at..end {
        value = with_byte(value, source[i]);
    }
    value
}

// The position of the line end after a comment, or the end of the source.
#[tactic(auto, using(crate::proofs::Blanks::Comments))]
fn comment_end(source: &[u8], at: usize) -> usize
    ensures { Skips source.now at result }
{
    let mut end = at;
    while end < source.len() {
        match kind_at(source, end) {
            ByteKind::LineEnd => break,
            _ => end += 1,
        }
    }
    end
}

// The end of the separators and comments from a position on.
#[tactic(auto, using(crate::proofs::Blanks::Passes))]
pub fn blanks_end(source: &[u8], at: usize) -> usize
    ensures { WalksTokens (blanks false (drop at source.now)) source.now at result }
{
    let mut end = at;
    while end < source.len() {
        match kind_at(source, end) {
            ByteKind::Blank | ByteKind::LineEnd => end += 1,
            ByteKind::Comment => end = comment_end(source, end + 1),
            _ => return end,
        }
    }
    end
}
