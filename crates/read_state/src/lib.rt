#![tactic(auto)]

// The steps from which the readers of the code are put together: each is the reader of the same name in the grammar's definition.
ghost use Rattle.std.specs.Prelude.{◌≡◌, ◌≤◌, ◌<◌, length};
ghost use Rattle.value.specs.Limits.{most_tokens, table_words, most_names, name_words};
ghost use Rattle.program.specs.Reason.{reason_number};
ghost use Rattle.grammar.specs.Ranking.{rank, before, first_of, broken};
ghost use Rattle.grammar.specs.Reader.{expect_or, forbid, opening, fresh};
ghost use Rattle.read_state.specs.Promises.Reading.{anything, passed, Ready, Reads, Passes, note_refusal, refusal_noted, refusing, rule_number, Moved, Carries, carrying_value, carrying_number, carrying_fields, carrying_more, Noted, Named, Declares, Released, Uses};

use names::{Entry, find_name, write_entry};
use program::reply::{Reason, Refusal};
use program::{put_word, token_at};
use token::{Scan, Token, kind};
use value::limits::MOST_NAMES;

// A rule that was found broken, and the place, while reading goes on.
#[derive(Clone, Copy, Debug, PartialEq, Eq, Hash)]
pub struct Note {
    pub reason: Reason,
    pub place: u32,
}

// The state of a reading: the position of the next token, what is noted so far, how many names are declared; and what was read last: a value
// or a range (`value`, the upper bound; `low`, the lower one), the number of a slot, a field, a variable or a kind of names (`number`), how
// many fields there are and whether they have names (`fields`, `named`), whether one more part follows (`more`).
#[derive(Clone, Copy, Debug, Default, PartialEq, Eq, Hash)]
pub struct Reading {
    pub at: usize,
    pub count: usize,
    pub value: u32,
    pub low: u32,
    pub number: u32,
    pub fields: u32,
    pub noted: Option<Note>,
    pub named: bool,
    pub more: bool,
}

// How a reading ends: with its state then, or with the reply that refuses.
// What is refused and the steps over a token are put in place where they are called, so that such an answer stays in registers: else it is copied through
// memory, part by part, and reading takes 1.6 times as long.
pub type Read = Result<Reading, Refusal>;

// ---- refusals

// The rank of a rule's number where several are broken at one place: 40 to 45 rank where 10 did.
#[tactic(auto, unfolding(grammar::specs::Ranking::rank))]
fn rank(n: u32) -> u64
    ensures { result ≡ rank n }
{
    let n = n as u64;
    match n {
        40..=45 => 1000 + n,
        _ => 100 * n,
    }
}

// Whether refusal a goes before b, or is the same.
#[tactic(auto, unfolding(grammar::specs::Ranking::before))]
#[inline(always)]
fn goes_before(a: Refusal, b: Refusal) -> bool
    ensures { result ≡ before a b }
{
    a.place < b.place || a.place == b.place && rank(a.number) <= rank(b.number)
}

// What is refused for a reason at a token; at a stop, the first of the two.
#[tactic(auto, unfolding(grammar::specs::Ranking::broken, grammar::specs::Ranking::first_number))]
#[inline(always)]
fn broken(t: Token, reason: Reason) -> Refusal
    ensures { result ≡ broken (reason_number reason) t }
{
    let number = reason.number();
    let stops = t.kind == kind::STOP && rank(t.value) <= rank(number);
    Refusal {
        number: if stops { t.value } else { number },
        place: t.start,
    }
}

impl From<Note> for Refusal {
    ghost from_gives = { λ n r. r ≡ note_refusal n };

    fn from(note: Note) -> Self {
        Refusal::new(note.reason, note.place)
    }
}

// The first of what was noted, if there is anything, and a new refusal.
#[inline(always)]
fn first(noted: Option<Note>, new: Refusal) -> Refusal
    ensures { result ≡ first_of (refusal_noted noted) new }
{
    match noted {
        Some(note) if goes_before(note.into(), new) => note.into(),
        _ => new,
    }
}

// Refused for a reason at the token at position i, or by what was noted before.
#[inline(always)]
pub fn refuse(words: &[u32], scan: Scan, s: Reading, i: usize, reason: Reason) -> Read
    requires { (scan.count ≤ most_tokens) × (length words.now ≡ table_words) }
    ensures { result ≡ refusing words.now scan s i (reason_number reason) }
{
    Err(first(s.noted, broken(token_at(words, scan, i), reason)))
}

// A rule is broken at the next token, and reading goes on.
#[inline(always)]
pub fn noting(words: &[u32], scan: Scan, s: Reading, reason: Reason) -> Reading
    requires { (scan.count ≤ most_tokens) × (length words.now ≡ table_words) }
    ensures { Noted words.now scan s (reason_number reason) result }
{
    let place = token_at(words, scan, s.at).start;
    match s.noted {
        Some(old) if goes_before(old.into(), Refusal::new(reason, place)) => s,
        _ => Reading {
            noted: Some(Note { reason, place }),
            ..s
        },
    }
}

// ---- places of reading

impl Reading {
    // Over the next token.
    pub fn moved(self) -> Reading
        requires { self.at < most_tokens }
        ensures { Moved self result }
    {
        Reading {
            at: self.at + 1,
            ..self
        }
    }

    // The same place, with a value or a range that was read.
    pub fn with_value(self, value: u32, low: u32) -> Reading
        ensures { Carries self (carrying_value self value low) result }
    {
        Reading { value, low, ..self }
    }

    // With the number of a slot, a field, a variable or a kind of names.
    pub fn with_number(self, number: u32) -> Reading
        ensures { Carries self (carrying_number self number) result }
    {
        Reading { number, ..self }
    }

    // With the number of fields, and whether they have names.
    pub fn with_fields(self, fields: u32, named: bool) -> Reading
        ensures { Carries self (carrying_fields self fields named) result }
    {
        Reading {
            fields,
            named,
            ..self
        }
    }

    // With whether one more part follows.
    pub fn with_more(self, more: bool) -> Reading
        ensures { Carries self (carrying_more self more) result }
    {
        Reading { more, ..self }
    }

    // With one name less, if there is one.
    pub fn released(self) -> Reading
        ensures { Released self result }
    {
        Reading {
            count: self.count.saturating_sub(1),
            ..self
        }
    }
}

// ---- tokens

// Over a token of the kind, else refused for the reason.
#[inline(always)]
pub fn expect(words: &[u32], scan: Scan, s: Reading, kind: u32, reason: Reason) -> Read
    requires { (scan.count ≤ most_tokens) × (length words.now ≡ table_words) × (1 ≤ kind) }
    ensures { Passes anything (expect_or kind (reason_number reason)) scan 1 s words.now result }
{
    let t = token_at(words, scan, s.at);
    if t.kind == kind {
        return Ok(s.moved());
    }
    refuse(words, scan, s, s.at, reason)
}

// The next token must not be of the kind, else refused for the reason.
#[inline(always)]
pub fn forbid(words: &[u32], scan: Scan, s: Reading, kind: u32, reason: Reason) -> Read
    requires { (scan.count ≤ most_tokens) × (length words.now ≡ table_words) × (s.at ≤ scan.count) }
    ensures { Passes anything (forbid kind (reason_number reason)) scan 0 s words.now result }
{
    let t = token_at(words, scan, s.at);
    if t.kind == kind {
        return refuse(words, scan, s, s.at, reason);
    }
    Ok(s)
}

// Kept: whether one more may be open (`free`) is plain data, here and in read_constants.
// Over an opening token, where one more may be open, else refused 14.
#[inline(always)]
pub fn opening(words: &[u32], scan: Scan, s: Reading, free: bool) -> Read
    requires { (scan.count ≤ most_tokens) × (length words.now ≡ table_words) × (s.at < scan.count) }
    ensures { Passes anything (opening free) scan 1 s words.now result }
{
    if free {
        return Ok(s.moved());
    }
    refuse(words, scan, s, s.at, Reason::DeepNesting)
}

// ---- names

// Whether a token is an identifier, or `cell` or `time`.
#[tactic(auto, unfolding(grammar::specs::Reader::is_name))]
pub fn is_name(t: Token) -> bool
    ensures { Named t result }
{
    matches!(t.kind, kind::NAME | kind::CELL | kind::TIME)
}

// Over a name in declaration position, for which there is room: a free name is refused for the reason `full`, if there is one.
pub fn fresh(
    source: &[u8],
    names: &[u32],
    words: &[u32],
    scan: Scan,
    s: Reading,
    fields: bool,
    full: Option<Reason>,
) -> Read
    requires { Ready scan (length names.now) (length words.now) s }
    ensures { Reads passed (fresh fields (rule_number full)) source.now scan 255 s names.now words.now result names.now words.now }
{
    let t = token_at(words, scan, s.at);
    if !is_name(t) {
        return refuse(words, scan, s, s.at, Reason::NotAllowed);
    }
    if t.kind != kind::NAME {
        return refuse(words, scan, s, s.at, Reason::UsedName);
    }
    if let Some(_) = find_name(source, names, s.count, fields, t.start, t.len) {
        return refuse(words, scan, s, s.at, Reason::UsedName);
    }
    if let Some(reason) = full {
        return refuse(words, scan, s, s.at, reason);
    }
    if MOST_NAMES <= s.count {
        return refuse(words, scan, s, s.at, Reason::ManyNames);
    }
    Ok(s.moved())
}

// A record for the name at position i, of a kind and with a value's word.
pub fn declare(
    names: &mut [u32],
    words: &[u32],
    scan: Scan,
    s: Reading,
    i: usize,
    kind: u32,
    word: u32,
) -> Reading
    requires { (scan.count ≤ most_tokens) × (length words.now ≡ table_words) × (s.count < most_names) × (length names.old ≡ name_words) }
    ensures { Declares i kind word scan s names.old words.now result names.new }
{
    let Token { start, len, .. } = token_at(words, scan, i);
    let entry = Entry {
        start,
        len,
        kind,
        word,
    };
    write_entry(names, s.count, entry);
    Reading {
        count: s.count + 1,
        number: s.count as u32,
        ..s
    }
}

// Over a name in use, whose entry is e.
pub fn use_name(words: &mut [u32], s: Reading, e: Entry) -> Reading
    requires { (length words.old ≡ table_words) × (s.at < most_tokens) }
    ensures { Uses e s words.old result words.new }
{
    put_word(words, s.at, 2, e.kind);
    put_word(words, s.at, 3, e.word);
    s.moved()
}
