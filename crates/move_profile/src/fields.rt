// Rule 2: the field of the flag, off the name list and the fields' ranges.
ghost use Rattle.std.specs.Prelude.{◌≡◌, ◌*◌, ◌<◌, ◌≤◌, length};
ghost use Rattle.value.specs.Limits.{most_tokens, most_names, name_words};
ghost use Rattle.token.specs.Bytes.{as_bytes, same};
ghost use Rattle.names.specs.Names.{letters};
ghost use Rattle.program.specs.Promises.Fitting.{Sized};
ghost use Rattle.move_profile.specs.Promises.Fields.{NamesMoved, MovedSlot, IsFlag, FlagField};

use cell_operands::table::word_at;
use names::{entry_in, folded, is_field};
use program::Rule;
use value::Value;
use value::limits::MOST_NAMES;

// The name of the flag's field.
const MOVED: [u8; 5] = [b'm', b'o', b'v', b'e', b'd'];

// Whether so many bytes of the source from a place on spell `moved`, letter case aside.
#[tactic(auto, using(crate::proofs::FieldLaws::Spellings))]
fn is_moved(source: &[u8], start: u32, len: u32) -> bool
    ensures { result ≡ same (as_bytes "moved") (letters source.now start len) }
{
    if len as usize != MOVED.len() {
        return false;
    }
    for k in 0..MOVED.len() {
        if folded(source, start as usize + k) != u32::from(MOVED[k]) {
            return false;
        }
    }
    true
}

// Whether the name in a slot is a field's, const or not, and is `moved`.
#[tactic(auto, using(crate::proofs::FieldLaws::Namings))]
fn names_moved(source: &[u8], names: &[u32], slot: usize) -> bool
    requires { (slot < most_names) × (length names.now ≡ name_words) }
    ensures { NamesMoved source.now names.now slot result }
{
    let e = entry_in(names, slot);
    is_field(e) && is_moved(source, e.start, e.len)
}

// The slot of the field named `moved`.
#[tactic(auto, using(crate::proofs::FieldLaws::Seekings))]
fn moved_slot(source: &[u8], names: &[u32]) -> Option<usize>
    requires { length names.now ≡ name_words }
    ensures { MovedSlot source.now names.now result }
{
    for slot in 0..MOST_NAMES {
        if names_moved(source, names, slot) {
            return Some(slot);
        }
    }
    None
}

// Whether the range at a position is 0..1.
#[tactic(auto, using(crate::proofs::FieldLaws::range_is))]
fn is_flag(words: &[u32], n: usize, at: usize) -> bool
    requires { (4 * n ≤ length words.now) × (n ≤ most_tokens) }
    ensures { IsFlag words.now n at result }
{
    let low = Value::decode(word_at(words, n, 2, at));
    let high = Value::decode(word_at(words, n, 3, at));
    low.n == 0 && high.n == 1
}

// The field named `moved`, if it is not const and its range is 0..1; else the number of fields.
#[tactic(auto, using(crate::proofs::FieldLaws::Fields))]
pub fn flag_field(source: &[u8], words: &[u32], names: &[u32], rule: Rule) -> u32
    requires { (Sized (length words.now) rule) × (length names.now ≡ name_words) }
    ensures { FlagField source.now words.now names.now rule result }
{
    let Some(slot) = moved_slot(source, names) else {
        return rule.fields;
    };
    let e = entry_in(names, slot);
    if e.kind != names::kind::FIELD || e.word >= rule.fields {
        return rule.fields;
    }
    if !is_flag(words, rule.tokens, rule.base + e.word as usize) {
        return rule.fields;
    }
    e.word
}
