#![tactic(auto)]

// Constants, ranges and constant declarations: each reader is that of the same name in the grammar's definition.
ghost use Rattle.std.specs.Prelude.{◌≡◌, ◌<◌, ◌≤◌, length};
ghost use Rattle.value.specs.Limits.{most_names};
ghost use Rattle.grammar.specs.Constants.{read_constant, read_signed, range_rule, read_range, read_values, read_size, array_head, array_constant, simple_constant, constant_value, read_declaration, read_constants};
ghost use Rattle.read_state.specs.Promises.Reading.{anything, InValue, bounds, Ready, Reads, Stays, rule_number};
ghost use Rattle.value.specs.Worked.{decode_of};

use names::{entry_in, find_name};
use program::reply::Reason;
use program::{put_word, token_at};
use read_state::{
    Read, Reading, declare, expect, fresh, is_name, noting, opening, refuse, use_name,
};
use token::{Scan, kind};
use value::limits::MOST_ELEMENTS;
use value::{Value, opposite};

// ---- constants and ranges

// A literal, or the name of a simple constant.
pub fn read_constant(
    source: &[u8],
    names: &[u32],
    words: &mut [u32],
    scan: Scan,
    s: Reading,
) -> Read
    requires { Ready scan (length names.now) (length words.old) s }
    ensures { Reads InValue read_constant source.now scan s.count s names.now words.old result names.now words.new }
{
    let t = token_at(words, scan, s.at);
    if t.kind == kind::LITERAL {
        return Ok(s.moved().with_value(t.value, 0));
    }
    if !is_name(t) {
        return refuse(words, scan, s, s.at, Reason::NotAllowed);
    }
    if let Some(slot) = find_name(source, names, s.count, false, t.start, t.len) {
        let e = entry_in(names, slot);
        if e.kind == names::kind::CONSTANT {
            return Ok(use_name(words, s, e).with_value(e.word, 0));
        }
    }
    refuse(words, scan, s, s.at, Reason::UnknownName)
}

// A constant with at most one sign.
pub fn read_signed(source: &[u8], names: &[u32], words: &mut [u32], scan: Scan, s: Reading) -> Read
    requires { Ready scan (length names.now) (length words.old) s }
    ensures { Reads InValue read_signed source.now scan s.count s names.now words.old result names.now words.new }
{
    let t = token_at(words, scan, s.at);
    if t.kind == kind::MINUS {
        let a = read_constant(source, names, words, scan, s.moved())?;
        return Ok(a.with_value(opposite(a.value), 0));
    }
    if t.kind == kind::PLUS {
        return read_constant(source, names, words, scan, s.moved());
    }
    read_constant(source, names, words, scan, s)
}

// The rule that a range of at most so many values breaks, by the words of its bounds.
fn range_rule(low: u32, high: u32, most: u64) -> Option<Reason>
    ensures { rule_number result ≡ range_rule most (decode_of low) (decode_of high) }
{
    let span = Value::decode(low).span(Value::decode(high));
    if span == 0 {
        return Some(Reason::EmptyRange);
    }
    if most < span {
        return Some(Reason::LongLoop);
    }
    None
}

// low..high, of at most so many values.
pub fn read_range(
    source: &[u8],
    names: &[u32],
    words: &mut [u32],
    scan: Scan,
    s: Reading,
    most: u64,
) -> Read
    requires { Ready scan (length names.now) (length words.old) s }
    ensures { Reads bounds (read_range most) source.now scan s.count s names.now words.old result names.now words.new }
{
    let low = read_signed(source, names, words, scan, s)?;
    let a = expect(words, scan, low, kind::DOTS, Reason::NotAllowed)?;
    let high = read_signed(source, names, words, scan, a)?;
    if let Some(reason) = range_rule(low.value, high.value, most) {
        return refuse(words, scan, high, high.at - 1, reason);
    }
    Ok(high.with_value(high.value, low.value))
}

// ---- constant declarations

// The values of an array constant of a size. The k-th is noted in word 3 of the k-th token of the list.
fn read_values(
    source: &[u8],
    names: &[u32],
    words: &mut [u32],
    scan: Scan,
    s: Reading,
    size: u32,
) -> Read
    requires { Ready scan (length names.now) (length words.old) s }
    ensures { Reads anything (read_values size s.at) source.now scan s.count s names.now words.old result names.now words.new }
{
    let most = size as usize;
    let mut here = s;
    // Kept: a comma ends the loop, or the token where one is missing, not a count.
    let mut k: usize = 0;
    loop {
        let a = read_signed(source, names, words, scan, here)?;
        put_word(words, s.at + k, 3, a.value);
        let t = token_at(words, scan, a.at);
        let next = k + 1;
        if t.kind != kind::COMMA {
            if most <= next {
                return Ok(a);
            }
            return Ok(noting(words, scan, a, Reason::ArrayValues));
        }
        if most <= next {
            return refuse(words, scan, a, a.at, Reason::ArrayValues);
        }
        here = a.moved();
        k = next;
    }
}

// The size of an array constant, else refused 44.
fn read_size(source: &[u8], names: &[u32], words: &mut [u32], scan: Scan, s: Reading) -> Read
    requires { Ready scan (length names.now) (length words.old) s }
    ensures { Reads InValue read_size source.now scan s.count s names.now words.old result names.now words.new }
{
    let a = read_constant(source, names, words, scan, s)?;
    let v = Value::decode(a.value);
    if v.within(Value { n: 1 }, Value { n: MOST_ELEMENTS }) {
        return Ok(a);
    }
    refuse(words, scan, a, a.at - 1, Reason::ArraySize)
}

// From the `[` after the name up to the size.
fn array_head(
    source: &[u8],
    names: &[u32],
    words: &mut [u32],
    scan: Scan,
    s: Reading,
    free: bool,
) -> Read
    requires { Ready scan (length names.now) (length words.old) s × (s.at < scan.count) }
    ensures { Reads InValue (array_head free) source.now scan s.count s names.now words.old result names.now words.new }
{
    let a = opening(words, scan, s, free)?;
    let b = expect(words, scan, a, kind::UNBRACKET, Reason::NotAllowed)?;
    let d = expect(words, scan, b, kind::FOR_WORD, Reason::NotAllowed)?;
    read_size(source, names, words, scan, d)
}

// From the `[` after the name, which is at position i, on.
fn array_constant(
    source: &[u8],
    names: &mut [u32],
    words: &mut [u32],
    scan: Scan,
    s: Reading,
    free: bool,
    i: usize,
) -> Read
    requires { Ready scan (length names.old) (length words.old) s × (s.at < scan.count) × (s.count < most_names) × (i < scan.count) }
    ensures { Reads anything (array_constant free i) source.now scan 256 s names.old words.old result names.new words.new }
{
    let size = array_head(source, names, words, scan, s, free)?;
    let first = expect(words, scan, size, kind::ASSIGN, Reason::NotAllowed)?;
    let a = read_values(source, names, words, scan, first, size.value)?;
    put_word(words, i, 2, size.value);
    put_word(words, i, 3, first.at as u32);
    Ok(declare(names, words, scan, a, i, names::kind::ARRAY, i as u32))
}

// From the `:=` after the name, which is at position i, on.
fn simple_constant(
    source: &[u8],
    names: &mut [u32],
    words: &mut [u32],
    scan: Scan,
    s: Reading,
    i: usize,
) -> Read
    requires { Ready scan (length names.old) (length words.old) s × (s.at < scan.count) × (s.count < most_names) }
    ensures { Reads anything (simple_constant i) source.now scan 256 s names.old words.old result names.new words.new }
{
    let a = read_signed(source, names, words, scan, s.moved())?;
    Ok(declare(names, words, scan, a, i, names::kind::CONSTANT, a.value))
}

// What follows the name of a constant.
fn constant_value(
    source: &[u8],
    names: &mut [u32],
    words: &mut [u32],
    scan: Scan,
    s: Reading,
    free: bool,
    i: usize,
) -> Read
    requires { Ready scan (length names.old) (length words.old) s × (s.count < most_names) × (i < scan.count) }
    ensures { Reads anything (constant_value free i) source.now scan 256 s names.old words.old result names.new words.new }
{
    let t = token_at(words, scan, s.at);
    if t.kind == kind::ASSIGN {
        return simple_constant(source, names, words, scan, s, i);
    }
    if t.kind == kind::BRACKET {
        return array_constant(source, names, words, scan, s, free, i);
    }
    refuse(words, scan, s, s.at, Reason::NotAllowed)
}

// A declaration, from `const` on.
pub fn read_declaration(
    source: &[u8],
    names: &mut [u32],
    words: &mut [u32],
    scan: Scan,
    s: Reading,
    free: bool,
) -> Read
    requires { Ready scan (length names.old) (length words.old) s × (s.at < scan.count) }
    ensures { Reads anything (read_declaration free) source.now scan 256 s names.old words.old result names.new words.new }
{
    let a = fresh(source, names, words, scan, s.moved(), false, None)?;
    let past = constant_value(source, names, words, scan, a, free, a.at - 1)?;
    put_word(words, s.at, 3, past.at as u32);
    Ok(past)
}

// The constants before the cell declaration.
pub fn read_constants(
    source: &[u8],
    names: &mut [u32],
    words: &mut [u32],
    scan: Scan,
    s: Reading,
) -> Read
    requires { Ready scan (length names.old) (length words.old) s }
    ensures { Stays anything read_constants source.now scan 256 s names.old words.old result names.new words.new }
{
    let mut here = s;
    loop {
        let t = token_at(words, scan, here.at);
        if t.kind != kind::CONST_WORD {
            return Ok(here);
        }
        let a = read_declaration(source, names, words, scan, here, true)?;
        here = a;
    }
}
