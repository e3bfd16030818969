#![tactic(auto)]

// Expressions, read off the word table: each function is the reader of the same name in the grammar's definition.
ghost use Rattle.std.specs.Prelude.{◌≡◌, Ok, List, ℕ, ◌≤◌, ◌<◌, length};
ghost use Rattle.value.specs.Limits.{most_tokens, table_words};
ghost use Rattle.token.specs.declared.Token.{Token};
ghost use Rattle.names.specs.declared.Entry.{Entry};
ghost use Rattle.grammar.specs.Expressions.{plain, field_name, dot_field, read_field, put_field, named_index, fixed_index, read_index, read_indices, read_neighbour, read_own, read_bracket, read_element, array_use, name_use, read_primary, operand_in};
ghost use Rattle.grammar.specs.Reader.{Reader};
ghost use Rattle.read_state.specs.Promises.Reading.{Read, anything, InNumber, Ready, Gives, Reads, Stays, Passes};
ghost use Rattle.read_expressions.specs.Promises.Promises.{cell_as, SlotIn, some_free, inner_in, is_unary_token, Climbs, are_relations};

use inside::Inside;
use names::{entry_in, find_name};
use program::reply::Reason;
use program::{put_word, token_at};
use read_constants::read_signed;
use read_state::{Read, Reading, expect, forbid, is_name, noting, opening, refuse, use_name};
use token::kind::level_of;
use token::{Scan, Token, kind};

pub mod inside;

// What the cell declaration says of a cell: how many dimensions there are, and whether its fields are named.
#[derive(Clone, Copy, Debug, PartialEq, Eq)]
pub struct Cell {
    pub dims: u32,
    pub named: bool,
}

// ---- fields

// After a plain number, neither `[` nor `.` is allowed.
fn plain(words: &[u32], scan: Scan, s: Reading) -> Read
    requires { (scan.count ≤ most_tokens) × (length words.now ≡ table_words) × (s.at ≤ scan.count) }
    ensures { Passes anything plain scan 0 s words.now result }
{
    // No `?` here and in the readers of expressions: it moves a refusal's two numbers as one word, which overlaps the place of reading, and each
    // place of reading waits for that.
    let r = forbid(words, scan, s, kind::BRACKET, Reason::OtherForm);
    let Ok(a) = r else {
        return r;
    };
    forbid(words, scan, a, kind::DOT, Reason::WrongUse)
}

// Over a field's name, which follows `.`; its slot.
fn field_name(source: &[u8], names: &[u32], words: &[u32], scan: Scan, s: Reading) -> Read
    requires { Ready scan (length names.now) (length words.now) s }
    ensures { Reads SlotIn field_name source.now scan s.count s names.now words.now result names.now words.now }
{
    let t = token_at(words, scan, s.at);
    if is_name(t) {
        let Some(slot) = find_name(source, names, s.count, true, t.start, t.len) else {
            return refuse(words, scan, s, s.at, Reason::WrongUse);
        };
        return Ok(s.moved().with_number(slot as u32));
    }
    refuse(words, scan, s, s.at, Reason::NotAllowed)
}

// `.name`: the field's slot.
pub fn dot_field(source: &[u8], names: &[u32], words: &[u32], scan: Scan, s: Reading) -> Read
    requires { Ready scan (length names.now) (length words.now) s }
    ensures { Reads SlotIn dot_field source.now scan s.count s names.now words.now result names.now words.now }
{
    let a = expect(words, scan, s, kind::DOT, Reason::OtherForm)?;
    field_name(source, names, words, scan, a)
}

// The number of the field after `cell` or a relative index: that of `.name` where fields are named, else 0, with `unnamed` to say what is
// not allowed there.
fn read_field<F: FnOnce(Reading) -> Read>(
    source: &[u8],
    names: &[u32],
    words: &[u32],
    scan: Scan,
    s: Reading,
    cell: Cell,
    unnamed: F,
) -> Read
    requires ready { Ready scan (length names.now) (length words.now) s }
    requires may_call { F.pre unnamed s }
    ensures { (m : Reader Unit) → ((r : Read) → F.post unnamed s r → Passes anything m scan 0 s words.now r) → Stays InNumber (read_field (cell_as cell) m) source.now scan s.count s names.now words.now result names.now words.now }
{
    if cell.named {
        let a = dot_field(source, names, words, scan, s)?;
        let b = forbid(words, scan, a, kind::BRACKET, Reason::OtherForm)?;
        let e = entry_in(names, a.number as usize);
        return Ok(b.with_number(e.word));
    }
    let after = unnamed(s)?;
    Ok(after.with_number(0))
}

// The field's number, which is read, and the position past it are noted at position i.
fn put_field(words: &mut [u32], s: Reading, i: usize)
    requires { (length words.old ≡ table_words) × (s.at ≤ most_tokens) }
    ensures { (source ns : List ℕ) (scan : Scan) → Gives anything (put_field i s.number) source scan s ns words.old (Ok s) ns words.new }
{
    put_word(words, i, 2, s.number);
    put_word(words, i, 3, s.at as u32);
}

// ---- relative indices

// Over the name in a slot where an index is wanted: an index variable or a simple constant.
fn named_index(names: &[u32], words: &mut [u32], scan: Scan, s: Reading, slot: usize) -> Read
    requires { Ready scan (length names.now) (length words.old) s × (s.at < scan.count) × (slot < s.count) }
    ensures { (source : List ℕ) (t : Token) → Reads anything (named_index t slot) source scan s.count s names.now words.old result names.now words.new }
{
    let e = entry_in(names, slot);
    if e.kind == names::kind::INDEX {
        return Ok(use_name(words, s, e));
    }
    if e.kind == names::kind::CONSTANT {
        return Ok(use_name(words, s, e));
    }
    refuse(words, scan, s, s.at, Reason::UnknownName)
}

// A signed constant, noted in word 3 of its first token.
fn fixed_index(source: &[u8], names: &[u32], words: &mut [u32], scan: Scan, s: Reading) -> Read
    requires { Ready scan (length names.now) (length words.old) s }
    ensures { (t : Token) → Reads anything (fixed_index t) source.now scan s.count s names.now words.old result names.now words.new }
{
    let a = read_signed(source, names, words, scan, s)?;
    put_word(words, s.at, 3, a.value);
    Ok(a)
}

// An element of a relative index: a signed constant, or a visible index variable without sign.
fn read_index(source: &[u8], names: &[u32], words: &mut [u32], scan: Scan, s: Reading) -> Read
    requires { Ready scan (length names.now) (length words.old) s }
    ensures { Reads anything read_index source.now scan s.count s names.now words.old result names.now words.new }
{
    let t = token_at(words, scan, s.at);
    if is_name(t) {
        let Some(slot) = find_name(source, names, s.count, false, t.start, t.len) else {
            return refuse(words, scan, s, s.at, Reason::UnknownName);
        };
        return named_index(names, words, scan, s, slot);
    }
    fixed_index(source, names, words, scan, s)
}

// The elements of a relative index and its `]`: k of them are read, and there are as many as dimensions.
// Kept: a loop that counts. It ends at a token and not at a number, so a `for` over the dimensions is no plainer.
fn read_indices(
    source: &[u8],
    names: &[u32],
    words: &mut [u32],
    scan: Scan,
    s: Reading,
    cell: Cell,
) -> Read
    requires { Ready scan (length names.now) (length words.old) s }
    ensures { Reads anything (read_indices (cell_as cell)) source.now scan s.count s names.now words.old result names.now words.new }
{
    let mut here = s;
    let mut k: u32 = 0;
    loop {
        let a = read_index(source, names, words, scan, here)?;
        k += 1;
        let t = token_at(words, scan, a.at);
        if t.kind != kind::COMMA {
            if t.kind != kind::UNBRACKET {
                return refuse(words, scan, a, a.at, Reason::NotAllowed);
            }
            if k == cell.dims {
                return Ok(a.moved());
            }
            return refuse(words, scan, a, a.at, Reason::WrongUse);
        }
        if k == cell.dims {
            return refuse(words, scan, a, a.at, Reason::WrongUse);
        }
        here = a.moved();
    }
}

// A relative index and the field after it.
fn read_neighbour(
    source: &[u8],
    names: &[u32],
    words: &mut [u32],
    scan: Scan,
    s: Reading,
    inside: Inside,
) -> Read
    requires { Ready scan (length names.now) (length words.old) s × (s.at < scan.count) }
    ensures { Reads anything (read_neighbour (cell_as inside.cell) (some_free inside.free)) source.now scan s.count s names.now words.old result names.now words.new }
{
    let a = opening(words, scan, s, 0 < inside.free)?;
    let b = read_indices(source, names, words, scan, a, inside.cell)?;
    let d = read_field(source, names, words, scan, b, inside.cell, |s| {
        forbid(words, scan, s, kind::DOT, Reason::WrongUse)
    })?;
    put_field(words, d, s.at);
    Ok(d)
}

// The own cell and the field after it.
fn read_own(
    source: &[u8],
    names: &[u32],
    words: &mut [u32],
    scan: Scan,
    s: Reading,
    cell: Cell,
) -> Read
    requires { Ready scan (length names.now) (length words.old) s × (s.at < scan.count) }
    ensures { Reads anything (read_own (cell_as cell)) source.now scan s.count s names.now words.old result names.now words.new }
{
    let a = read_field(source, names, words, scan, s.moved(), cell, |s| {
        plain(words, scan, s)
    })?;
    put_field(words, a, s.at);
    Ok(a)
}

// ---- operators

// Whether two levels are those of relations.
fn are_relations(own: u32, last: u32) -> bool
    ensures { result ≡ are_relations own last }
{
    own == 2 && last == 2
}

// Whether a token of this kind is a unary operator.
#[tactic(auto, unfolding(grammar::specs::Constants::is_sign))]
fn is_unary(kind: u32) -> bool
    ensures { result ≡ is_unary_token kind }
{
    matches!(kind, kind::PLUS | kind::MINUS | kind::NOT)
}

// ---- expressions

// An expression of operators of a level or tighter: an operand, then operators from left to right. A relation cannot take a bare relation
// as operand.
#[cycle(expressions)]
pub fn read_expression(
    source: &[u8],
    names: &[u32],
    words: &mut [u32],
    scan: Scan,
    s: Reading,
    inside: Inside,
    level: u32,
) -> Read
    requires { Ready scan (length names.now) (length words.old) s × (1 ≤ level) }
    ensures { Climbs inside level source.now scan s names.now words.old result words.new }
{
    let r = read_operand(source, names, words, scan, s, inside);
    let Ok(a) = r else {
        return r;
    };
    let mut here = a;
    let mut last: u32 = 0;
    loop {
        let t = token_at(words, scan, here.at);
        let own = level_of(t.kind);
        if own < level {
            return Ok(here);
        }
        if are_relations(own, last) {
            return refuse(words, scan, here, here.at, Reason::BareRelation);
        }
        let q = read_expression(source, names, words, scan, here.moved(), inside, own + 1);
        let Ok(b) = q else {
            return q;
        };
        here = b;
        last = own;
    }
}

// An operand: a primary with at most one unary operator.
#[cycle(expressions)]
fn read_operand(
    source: &[u8],
    names: &[u32],
    words: &mut [u32],
    scan: Scan,
    s: Reading,
    inside: Inside,
) -> Read
    requires { Ready scan (length names.now) (length words.old) s }
    ensures { Reads anything (operand_in (cell_as inside.cell) inside.free) source.now scan s.count s names.now words.old result names.now words.new }
{
    let t = token_at(words, scan, s.at);
    if is_unary(t.kind) {
        return read_primary(source, names, words, scan, s.moved(), inside);
    }
    read_primary(source, names, words, scan, s, inside)
}

// A primary: a literal, a bracket, a relative index, `cell`, `time` or a name.
#[cycle(expressions)]
fn read_primary(
    source: &[u8],
    names: &[u32],
    words: &mut [u32],
    scan: Scan,
    s: Reading,
    inside: Inside,
) -> Read
    requires { Ready scan (length names.now) (length words.old) s }
    ensures { Reads anything (read_primary (cell_as inside.cell) (some_free inside.free) (inner_in (cell_as inside.cell) inside.free)) source.now scan s.count s names.now words.old result names.now words.new }
{
    let t = token_at(words, scan, s.at);
    match t.kind {
        kind::LITERAL => Ok(s.moved()),
        kind::PAREN => read_bracket(source, names, words, scan, s, inside, kind::UNPAREN),
        kind::BRACKET => read_neighbour(source, names, words, scan, s, inside),
        kind::CELL => read_own(source, names, words, scan, s, inside.cell),
        kind::TIME => plain(words, scan, s.moved()),
        kind::NAME => {
            let Some(slot) = find_name(source, names, s.count, false, t.start, t.len) else {
                return refuse(words, scan, s, s.at, Reason::UnknownName);
            };
            name_use(source, names, words, scan, s, inside, slot)
        }
        _ => refuse(words, scan, s, s.at, Reason::NotAllowed),
    }
}

// The name in a slot, in an expression.
#[cycle(expressions)]
fn name_use(
    source: &[u8],
    names: &[u32],
    words: &mut [u32],
    scan: Scan,
    s: Reading,
    inside: Inside,
    slot: usize,
) -> Read
    requires { Ready scan (length names.now) (length words.old) s × (s.at < scan.count) × (slot < s.count) }
    ensures { Reads anything (name_use (some_free inside.free) (inner_in (cell_as inside.cell) inside.free) slot) source.now scan s.count s names.now words.old result names.now words.new }
{
    let e = entry_in(names, slot);
    let a = use_name(words, s, e);
    if e.kind == names::kind::ARRAY {
        return array_use(source, names, words, scan, a, inside);
    }
    plain(words, scan, a)
}

// After an array constant's name: without `[` it counts as a plain number, and 12 is noted.
#[cycle(expressions)]
fn array_use(
    source: &[u8],
    names: &[u32],
    words: &mut [u32],
    scan: Scan,
    s: Reading,
    inside: Inside,
) -> Read
    requires { Ready scan (length names.now) (length words.old) s }
    ensures { (e : Entry) → Stays anything (array_use (some_free inside.free) (inner_in (cell_as inside.cell) inside.free) e) source.now scan s.count s names.now words.old result names.now words.new }
{
    let t = token_at(words, scan, s.at);
    if t.kind == kind::BRACKET {
        return read_element(source, names, words, scan, s, inside);
    }
    plain(words, scan, noting(words, scan, s, Reason::WrongUse))
}

// An array constant's element, from the `[` after its name on.
#[cycle(expressions)]
fn read_element(
    source: &[u8],
    names: &[u32],
    words: &mut [u32],
    scan: Scan,
    s: Reading,
    inside: Inside,
) -> Read
    requires { Ready scan (length names.now) (length words.old) s × (s.at < scan.count) }
    ensures { (e : Entry) → Reads anything (read_element (some_free inside.free) (inner_in (cell_as inside.cell) inside.free) e) source.now scan s.count s names.now words.old result names.now words.new }
{
    let a = read_bracket(source, names, words, scan, s, inside, kind::UNBRACKET)?;
    forbid(words, scan, a, kind::DOT, Reason::WrongUse)
}

// An expression between brackets: `close` is the closing token's kind.
#[cycle(expressions)]
fn read_bracket(
    source: &[u8],
    names: &[u32],
    words: &mut [u32],
    scan: Scan,
    s: Reading,
    inside: Inside,
    close: u32,
) -> Read
    requires { Ready scan (length names.now) (length words.old) s × (s.at < scan.count) × (1 ≤ close) }
    ensures { Reads anything (read_bracket (some_free inside.free) (inner_in (cell_as inside.cell) inside.free) close) source.now scan s.count s names.now words.old result names.now words.new }
{
    let Some(inner) = inside.opened() else {
        return refuse(words, scan, s, s.at, Reason::DeepNesting);
    };
    let r = read_expression(source, names, words, scan, s.moved(), inner, 1);
    let Ok(a) = r else {
        return r;
    };
    expect(words, scan, a, close, Reason::NotAllowed)
}
