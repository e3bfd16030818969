// What is looked up in a row of records.
ghost use Rattle.std.specs.Prelude.{◌≡◌, ◌<◌, get_or};
ghost use Rattle.value.specs.Limits.{most_names};
ghost use Rattle.api_records.specs.Rows.{no_name, counted_on, is_at, is_field_record, record_count, record_number, IsInRow, FindsPlace, FindsField};

use crate::Name;
use names::kind;
use value::Value;
use value::limits::MOST_NAMES;

// How many records a row has.
const RECORDS: u32 = MOST_NAMES as u32;

// The record k, zero past the end.
pub fn record(names: &[Name], k: u32) -> Name
    ensures { result ≡ get_or names.now k no_name }
{
    match names.get(k as usize) {
        Some(r) => *r,
        None => Name::default(),
    }
}

// The kind of the record k, 0 past the end.
pub fn kind_of(names: &[Name], k: u32) -> u32
    ensures { result ≡ (get_or names.now k no_name).kind }
{
    record(names, k).kind
}

// A count of declared names, with one record more.
fn counted(n: u32, r: Name) -> u32
    requires { n < most_names }
    ensures { result ≡ counted_on n r }
{
    if r.kind == 0 { n } else { n + 1 }
}

// Whether a record is of a name that is declared at a place.
fn is_at(r: Name, place: u32) -> bool
    ensures { result ≡ is_at place r }
{
    r.kind != 0 && r.start == place
}

// Whether a record is of the field that has a number.
fn is_field(r: Name, number: u32) -> bool
    ensures { result ≡ is_field_record number r }
{
    (r.kind == kind::FIELD || r.kind == kind::CONST_FIELD)
        && Value { n: r.value }.encode() == number
}

// How many names are declared.
#[tactic(auto, using(crate::proofs::LookupLaws::count_few, crate::proofs::LookupLaws::count_is))]
pub fn count(names: &[Name]) -> u32
    ensures { result ≡ record_count names.now }
{
    let mut n: u32 = 0;
    for k in 0..RECORDS {
        n = counted(n, record(names, k));
    }
    n
}

// The number of the record of the name that is declared at a place.
pub fn find_by_place(names: &[Name], place: u32) -> Option<u32>
    ensures first { FindsPlace names.now place (record_number result) }
    ensures found { IsInRow result }
{
    for k in 0..RECORDS {
        if is_at(record(names, k), place) {
            return Some(k);
        }
    }
    None // No name is declared there.
}

// The number of the record of the field that has a number.
pub fn find_field(names: &[Name], number: u32) -> Option<u32>
    ensures first { FindsField names.now number (record_number result) }
    ensures found { IsInRow result }
{
    for k in 0..RECORDS {
        if is_field(record(names, k), number) {
            return Some(k);
        }
    }
    None // No field has the number.
}
