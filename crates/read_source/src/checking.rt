// The core call: check a source, and what a run needs of an accepted one.
ghost use Rattle.std.specs.Prelude.{◌≡◌, ◌≤◌, length};
ghost use Rattle.value.specs.Limits.{most_bytes, most_tokens, table_words, name_words};
ghost use Rattle.grammar.specs.Checking.{rooms_fit};
ghost use Rattle.grammar.specs.Promises.Flat.{lent_fit};
ghost use Rattle.read_source.specs.Promises.Promises.{Ends, Programs, Checks, Loads, refusal_in, is_loaded, rule_in};

use crate::{has_kind, settle_values};
use program::reply::{Reason, Refusal};
use program::{Rule, token_at};
use read_constants::read_constants;
use read_declaration::read_cell;
use read_expressions::Cell;
use read_expressions::inside::Inside;
use read_state::{Read, Reading, refuse};
use read_statements::read_block;
use spelling::is_built_in;
use token::{Scan, kind, scan_source};
use value::limits::{MOST_BYTES, NAME_WORDS, TABLE_WORDS};

// A reply: its number, 0 if the source is accepted, and its place.
#[derive(Clone, Copy, Debug, PartialEq, Eq, Hash)]
pub struct Reply {
    pub number: u32,
    pub place: u32,
}

// A program that was read: where reading ends, the position of the token that has the first field's range, that of the first statement, and
// the numbers of dimensions and of fields.
#[derive(Clone, Copy, Debug, PartialEq, Eq, Hash)]
struct ProgramRead {
    next: Reading,
    base: usize,
    body: usize,
    dims: u32,
    fields: u32,
}

// The end of the source follows the last statement, and no refusal is noted.
fn finish(words: &[u32], scan: Scan, s: Reading) -> Read
    requires { (scan.count ≤ most_tokens) × (length words.now ≡ table_words) }
    ensures { Ends words.now scan s result }
{
    let t = token_at(words, scan, s.at);
    if t.kind != kind::STOP || t.value != Reason::NotAllowed.number() {
        return refuse(words, scan, s, s.at, Reason::NotAllowed);
    }
    if let Some(note) = s.noted {
        return Err(note.into());
    }
    Ok(s)
}

// Reads a source whose tokens are in the table, where no name is declared. The fields' ranges are there from the `of` after `dimensions` on,
// two tokens after the constants.
fn read_program(
    source: &[u8],
    names: &mut [u32],
    words: &mut [u32],
    scan: Scan,
) -> Result<ProgramRead, Refusal>
    requires { (scan.count ≤ most_tokens) × (length words.old ≡ table_words) × (length names.old ≡ name_words) }
    ensures { Programs source.now scan names.old words.old result names.new words.new }
{
    let a = read_constants(source, names, words, scan, Reading::default())?;
    let cell = read_cell(source, names, words, scan, a)?;
    let inside = Inside::new(Cell {
        dims: cell.dims,
        named: cell.named,
    });
    let b = read_block(source, names, words, scan, cell.next, inside)?;
    Ok(ProgramRead {
        next: finish(words, scan, b)?,
        base: a.at + 2,
        body: cell.next.at,
        dims: cell.dims,
        fields: cell.fields,
    })
}

// Reads a source of allowed length into rooms that fit.
fn load_into(source: &[u8], words: &mut [u32], names: &mut [u32]) -> Result<Rule, Refusal>
    requires { (length words.old ≡ table_words) × (length names.old ≡ name_words) × (length source.now ≤ most_bytes) }
    ensures checks { Checks (rooms_fit (length words.old) (length names.old)) source.now words.old names.old (refusal_in result).number (refusal_in result).place words.new names.new }
    ensures loads { Loads source.now words.old names.old (is_loaded result) (rule_in result) }
{
    let scan = scan_source(source, words);
    names.fill(0);
    match read_program(source, names, words, scan) {
        Ok(p) => {
            settle_values(words, names, p.next.count);
            Ok(Rule {
                tokens: scan.count,
                base: p.base,
                body: p.body,
                dims: p.dims,
                fields: p.fields,
                slots: p.next.count as u32,
                timed: has_kind(words, scan.count, kind::TIME),
            })
        }
        Err(e) => {
            words.fill(0);
            names.fill(0);
            Err(e)
        }
    }
}

// Reads a source for a run: the rule of an accepted source, which leaves its program in the table and its names in the list, else the reply
// that refuses it.
pub fn load(source: &[u8], words: &mut [u32], names: &mut [u32]) -> Result<Rule, Refusal>
    ensures checks { Checks (rooms_fit (length words.old) (length names.old)) source.now words.old names.old (refusal_in result).number (refusal_in result).place words.new names.new }
    ensures loads { Loads source.now words.old names.old (is_loaded result) (rule_in result) }
{
    if words.len() != TABLE_WORDS || names.len() != NAME_WORDS {
        return Err(Refusal::new(Reason::Buffers, 0));
    }
    if MOST_BYTES < source.len() {
        return Err(Refusal::new(Reason::LongSource, 65535));
    }
    load_into(source, words, names)
}

// Checks a source: the number and place of the reply. The table and the list of names are left as reading leaves them.
pub fn check(source: &[u8], list: &[u8], words: &mut [u32], names: &mut [u32]) -> Reply
    ensures { Checks (lent_fit list.now (length words.old) (length names.old)) source.now words.old names.old result.number result.place words.new names.new }
{
    if !is_built_in(list) {
        return Reply {
            number: 1,
            place: 0,
        };
    }
    match load(source, words, names) {
        Ok(_) => Reply {
            number: 0,
            place: 0,
        },
        Err(e) => Reply {
            number: e.number,
            place: e.place,
        },
    }
}
