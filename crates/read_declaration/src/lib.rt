#![tactic(auto)]

// The cell declaration: each reader is that of the same name in the grammar's definition.
ghost use Rattle.std.specs.Prelude.{◌≡◌, true, List, [], ◌+◌, ◌≤◌, ◌<◌, min, length, ℤ};
ghost use Rattle.value.specs.Limits.{most_tokens, table_words, most_fields};
ghost use Rattle.value.specs.Worked.{decode_of};
ghost use Rattle.program.specs.Syntax.{Range, range};
ghost use Rattle.grammar.specs.Reader.{repeat, turns};
ghost use Rattle.grammar.specs.Source.{field_turn, read_group, group_turn, read_dims, is_unnamed, read_fields, read_cell};
ghost use Rattle.read_state.specs.Promises.Reading.{Ready, Reads, rule_number};
ghost use Rattle.read_declaration.specs.Promises.Fields.{full_of, Counted, Ranges, Fields, FieldsEnd, Starts, Dims, Fielded, DeclaresCell, next_in, Ranged};

use program::reply::{Reason, Refusal};
use program::{kind_at, put_word, token_at};
use read_constants::{read_constant, read_range};
use read_state::{Read, Reading, declare, expect, forbid, fresh, is_name, refuse};
use token::{Scan, Token, kind};
use value::limits::{MOST_DIMS, MOST_FIELDS};

// ---- a group of fields

// Dimensions of a grid.
const DIMS: u32 = MOST_DIMS as u32;

// The rule that refuses one more field name after n fields.
fn full(n: u32) -> Option<Reason>
    ensures { rule_number result ≡ full_of n }
{
    if MOST_FIELDS <= n {
        return Some(Reason::ManyFields);
    }
    None
}

// The field names of a group, of a kind, after `got` fields, and the `of` after them: how many fields there are then.
fn read_names(
    source: &[u8],
    names: &mut [u32],
    words: &[u32],
    scan: Scan,
    s: Reading,
    kind: u32,
    got: u32,
) -> Read
    requires { Ready scan (length names.old) (length words.now) s × (got ≤ most_fields) }
    ensures { Reads (Counted got s.at) (repeat turns (field_turn kind) got) source.now scan 256 s names.old words.now result names.new words.now }
{
    let mut here = s;
    // Kept: a comma ends the loop, or the token where one is missing, not a count.
    let mut n = got;
    loop {
        let a = fresh(source, names, words, scan, here, true, full(n))?;
        let b = declare(names, words, scan, a, a.at - 1, kind, n);
        let f = forbid(words, scan, b, kind::BRACKET, Reason::OtherForm)?;
        n += 1;
        let t = token_at(words, scan, f.at);
        if t.kind != kind::COMMA {
            let d = expect(words, scan, f, kind::OF_WORD, Reason::NotAllowed)?;
            return Ok(d.with_fields(n, false));
        }
        here = f.moved();
    }
}

// Writes a range for each of n fields, the first of which has its range at position i.
fn write_ranges(words: &mut [u32], i: usize, n: usize, low: u32, high: u32)
    requires { (length words.old ≡ table_words) × (i + n ≤ most_tokens) }
    ensures { Ranged words.old i n (range (decode_of low) (decode_of high)) words.new }
{
    for k in 0..n {
        put_word(words, i + k, 2, low);
        put_word(words, i + k, 3, high);
    }
}

// A group of field names of a kind and their range, after `got` fields: how many fields there are then.
fn read_group(
    source: &[u8],
    names: &mut [u32],
    words: &mut [u32],
    scan: Scan,
    s: Reading,
    base: usize,
    got: u32,
    kind: u32,
) -> Read
    requires { Ready scan (length names.old) (length words.old) s × (base + got < s.at) × (got ≤ most_fields) }
    ensures { (ranges : List Range) → Ranges words.old base ranges got → Reads (Fields words.new base true) (read_group base ranges kind) source.now scan 256 s names.old words.old result names.new words.new }
{
    let a = read_names(source, names, words, scan, s, kind, got)?;
    let b = read_range(source, names, words, scan, a, 4294967296)?;
    let more = a.fields - got;
    write_ranges(words, base + got as usize, more as usize, b.low, b.value);
    Ok(b.with_fields(a.fields, true))
}

// ---- the fields

// Whether `end` follows n fields, of which there is one at least.
fn is_end(t: Token, n: u32) -> bool
    ensures { FieldsEnd t n result }
{
    t.kind == kind::END_WORD && 0 < n
}

// Where a group begins, after `const` if it is there, with the kind of its fields.
fn group_start(s: Reading, t: Token) -> Reading
    requires { s.at + min 1 t.kind ≤ most_tokens }
    ensures { Starts t s result }
{
    if t.kind == kind::CONST_WORD {
        return s.moved().with_number(names::kind::CONST_FIELD);
    }
    s.with_number(names::kind::FIELD)
}

// The groups of named fields, and the `end` after them: how many fields there are.
fn read_groups(
    source: &[u8],
    names: &mut [u32],
    words: &mut [u32],
    scan: Scan,
    s: Reading,
    base: usize,
) -> Read
    requires { Ready scan (length names.old) (length words.old) s × (base < s.at) }
    ensures { Reads (Fields words.new base true) (repeat turns (group_turn base) []) source.now scan 256 s names.old words.old result names.new words.new }
{
    let mut here = s;
    let mut n: u32 = 0;
    loop {
        let t = token_at(words, scan, here.at);
        if is_end(t, n) {
            return Ok(here.moved().with_fields(n, true));
        }
        let b = group_start(here, t);
        let a = read_group(source, names, words, scan, b, base, n, b.number)?;
        n = a.fields;
        here = a;
    }
}

// Whether a single unnamed range follows: a sign or a literal begins it, and a name exactly if `..` follows that (k is the kind of
// what follows).
#[tactic(auto, unfolding(grammar::specs::Source::is_unnamed, grammar::specs::Constants::is_sign))]
fn is_unnamed(t: Token, k: u32) -> bool
    ensures { result ≡ is_unnamed t k }
{
    matches!(t.kind, kind::PLUS | kind::MINUS | kind::LITERAL) || is_name(t) && k == kind::DOTS
}

// The fields after `of`, which is at position `base`: how many there are, and whether they are named.
fn read_fields(
    source: &[u8],
    names: &mut [u32],
    words: &mut [u32],
    scan: Scan,
    s: Reading,
    base: usize,
) -> Read
    requires { Ready scan (length names.old) (length words.old) s × (base < s.at) }
    ensures { (dims : ℤ) → Reads (Fielded words.new base dims) (read_fields base dims) source.now scan 256 s names.old words.old result names.new words.new }
{
    let t = token_at(words, scan, s.at);
    let k = kind_at(words, scan, s.at + 1);
    if is_unnamed(t, k) {
        let a = read_range(source, names, words, scan, s, 4294967296)?;
        write_ranges(words, base, 1, a.low, a.value);
        return Ok(a.with_fields(1, false));
    }
    read_groups(source, names, words, scan, s, base)
}

// ---- the cell declaration

// The number of dimensions, else refused 40.
fn read_dims(source: &[u8], names: &[u32], words: &mut [u32], scan: Scan, s: Reading) -> Read
    requires { Ready scan (length names.now) (length words.old) s }
    ensures { Reads Dims read_dims source.now scan s.count s names.now words.old result names.now words.new }
{
    let a = read_constant(source, names, words, scan, s)?;
    if a.value < 1 || DIMS < a.value {
        return refuse(words, scan, a, a.at - 1, Reason::Dimensions);
    }
    Ok(a)
}

// A cell declaration that was read: where reading goes on, how many dimensions there are, whether the fields are named, how many there are,
// and the position from which on they have their ranges in the table.
#[derive(Clone, Copy, Debug, PartialEq, Eq, Hash)]
pub struct CellRead {
    pub next: Reading,
    pub dims: u32,
    pub named: bool,
    pub fields: u32,
    pub base: usize,
}

pub fn read_cell(
    source: &[u8],
    names: &mut [u32],
    words: &mut [u32],
    scan: Scan,
    s: Reading,
) -> Result<CellRead, Refusal>
    requires { Ready scan (length names.old) (length words.old) s }
    ensures { Reads (DeclaresCell words.new result) read_cell source.now scan 256 s names.old words.old (next_in result) names.new words.new }
{
    let a = read_dims(source, names, words, scan, s)?;
    let b = expect(words, scan, a, kind::DIMENSIONS_WORD, Reason::NotAllowed)?;
    let e = expect(words, scan, b, kind::OF_WORD, Reason::NotAllowed)?;
    let d = read_fields(source, names, words, scan, e, b.at)?;
    Ok(CellRead {
        next: d,
        dims: a.value,
        named: d.named,
        fields: d.fields,
        base: b.at,
    })
}
