#![tactic(auto)]

// The name list on flat words: four words a name, in order of declaration.
// Kept: rows of words by arithmetic, since C lends the list as words (docs/LAYOUT.md).
ghost use Rattle.std.specs.Prelude.{◌≡◌, ◌<◌, ◌≤◌, length, get_or};
ghost use Rattle.value.specs.Limits.{most_names, name_words};
ghost use Rattle.token.specs.Bytes.{fold, same};
ghost use Rattle.names.specs.Names.{entry_at, with_entry, with_value, without_entry, variables_in, is_field, in_space, letters};
ghost use Rattle.names.specs.Promises.Finding.{Matches, Finds};

pub mod kind;

use value::limits::NAME_WORDS;
use value::tables::put_four;

// A name: the place of its first byte, its length, its kind, and its value as a word.
#[derive(Clone, Copy, Debug, PartialEq, Eq, Hash)]
pub struct Entry {
    pub start: u32,
    pub len: u32,
    pub kind: u32,
    pub word: u32,
}

// ---- slots

// The name in a slot.
pub fn entry_in(names: &[u32], slot: usize) -> Entry
    requires { (slot < most_names) × (length names.now ≡ name_words) }
    ensures { result ≡ entry_at names.now slot }
{
    Entry {
        start: names[4 * slot],
        len: names[4 * slot + 1],
        kind: names[4 * slot + 2],
        word: names[4 * slot + 3],
    }
}

// Writes a name into a slot.
pub fn write_entry(names: &mut [u32], slot: usize, e: Entry)
    requires { (slot < most_names) × (length names.old ≡ name_words) }
    ensures { names.new ≡ with_entry names.old slot e }
{
    put_four(names, 4 * slot, e.start, e.len, e.kind, e.word);
}

// Sets the value of the name in a slot.
pub fn write_value(names: &mut [u32], slot: usize, v: u32)
    requires { (slot < most_names) × (length names.old ≡ name_words) }
    ensures { names.new ≡ with_value names.old slot v }
{
    names[4 * slot + 3] = v;
}

// Takes the name in a slot out: those after it move down by one, and the last slot is zero.
// Kept: word by word, since `copy_within` would have the static library need `memmove` from outside.
pub fn remove_entry(names: &mut [u32], slot: usize)
    requires { (slot < most_names) × (length names.old ≡ name_words) }
    ensures { names.new ≡ without_entry names.old slot }
{
    let from = 4 * slot;
    let many = NAME_WORDS - 4 - from;
    for k in 0..many {
        names[from + k] = names[from + k + 4];
    }
    names[NAME_WORDS - 4..].fill(0);
}

// How many of the first n names are variables.
#[tactic(auto, using(crate::proofs::Removing::variable_more, crate::proofs::Removing::variable_not))]
pub fn count_variables(names: &[u32], n: usize) -> u32
    requires { (n ≤ most_names) × (length names.now ≡ name_words) }
    ensures { result ≡ variables_in names.now n }
{
    let mut k: u32 = 0;
    for i in 0..n {
        if names[4 * i + 2] == kind::VARIABLE {
            k += 1;
        }
    }
    k
}

// ---- which names are seen

// Whether a name is a field's.
pub fn is_field(e: Entry) -> bool
    ensures { result ≡ is_field e }
{
    e.kind == kind::FIELD || e.kind == kind::CONST_FIELD
}

// Kept: here and below `fields` is plain data, which is compared and switches nothing.
// Whether a name is of a name space: that of fields, or that of all other names.
fn in_space(fields: bool, e: Entry) -> bool
    ensures { result ≡ in_space fields e }
{
    fields == is_field(e)
}

// ---- spelling

// A byte of the source without letter case; 0 after the source's end.
#[tactic(auto, using(crate::proofs::Spelling::lower_fold, crate::proofs::Spelling::fold_end))]
pub fn folded(source: &[u8], i: usize) -> u32
    ensures { result ≡ fold (get_or source.now i 0) }
{
    match source.get(i) {
        Some(b) => b.to_ascii_lowercase() as u32,
        None => 0,
    }
}

// Whether the n bytes from a on and the n bytes from b on spell the same.
fn same_spelling(source: &[u8], a: u32, b: u32, n: u32) -> bool
    ensures { result ≡ same (letters source.now a n) (letters source.now b n) }
{
    for k in 0..n as usize {
        let p = folded(source, a as usize + k);
        let q = folded(source, b as usize + k);
        if p != q {
            return false;
        }
    }
    true
}

// Whether the name in a slot is of the name space and spelled as the bytes from start on. A name of another length is no match, whatever it is.
fn matches(source: &[u8], names: &[u32], slot: usize, fields: bool, start: u32, len: u32) -> bool
    requires { (slot < most_names) × (length names.now ≡ name_words) }
    ensures { Matches source.now names.now slot fields start len result }
{
    if names[4 * slot + 1] != len {
        return false;
    }
    let e = entry_in(names, slot);
    if in_space(fields, e) {
        return same_spelling(source, start, e.start, len);
    }
    false
}

// The slot of the first of so many names that is of the name space and spelled as the bytes from start on.
pub fn find_name(
    source: &[u8],
    names: &[u32],
    count: usize,
    fields: bool,
    start: u32,
    len: u32,
) -> Option<usize>
    requires { (count ≤ most_names) × (length names.now ≡ name_words) }
    ensures { Finds source.now names.now count fields start len result }
{
    for i in 0..count {
        if matches(source, names, i, fields, start, len) {
            return Some(i);
        }
    }
    None
}
