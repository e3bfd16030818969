// The fields of a rule, and which of them a report speaks of.
use api_naming::Ran;
use api_records::Name;
use program::word_at;
use run_steps::{Manner, Report};
use token::kind;
use value::limits::{MOST_FIELDS, MOST_NAMES, MOST_TOKENS, TABLE_WORDS};

// The records of the names of a source: those of a run that is refused for its one size, 0, once the source is accepted.
#[inline(never)]
pub fn records_of(source: &[u8]) -> Ran {
    let list = spelling::BUILT_IN;
    api_naming::run(
        source,
        &list,
        &mut [0u32; TABLE_WORDS],
        api_naming::no_names(),
        &[0],
        &mut [0],
        &mut [0],
        &mut [0],
        &[0],
        0,
        0,
        Manner::Full,
        &mut [0],
        false,
        0,
    )
}

// The name of the field that has a number, as a source declares it.
pub fn field_name(source: &[u8], rows: [Name; MOST_NAMES], field: u32) -> Option<&[u8]> {
    let name = api_naming::field_record(rows, field);
    if name.kind == 0 {
        return None;
    }
    source
        .get(name.start as usize..)?
        .get(..name.length as usize)
}

// The number of the field that has a name, without letter case. The one field of a rule that names none is `cell`.
pub fn field_named(source: &[u8], rows: [Name; MOST_NAMES], name: &[u8]) -> Option<u32> {
    if field_name(source, rows, 0).is_none() {
        return name.eq_ignore_ascii_case(b"cell").then_some(0);
    }
    (0..MOST_FIELDS).find(|field| {
        field_name(source, rows, *field).is_some_and(|text| text.eq_ignore_ascii_case(name))
    })
}

// The `:=` at a place.
fn assignment_at(words: &[u32; TABLE_WORDS], place: u32) -> Option<usize> {
    (0..MOST_TOKENS).rev().find(|i| {
        word_at(words, *i, 0) == kind::ASSIGN && word_at(words, *i, 1) % 65536 == place
    })
}

// The field that the assignment around a token sets: its first token is a `cell` that says where it ends.
fn target_of(words: &[u32; TABLE_WORDS], at: usize) -> Option<u32> {
    (0..at)
        .rev()
        .find(|i| word_at(words, *i, 0) == kind::CELL && word_at(words, *i, 3) as usize > at)
        .map(|i| word_at(words, i, 2))
}

// The number of the field that a report speaks of, where a cell has so many: at 24 that of the entry, at 33 the one that is assigned to.
pub fn field_told(report: Report, words: &[u32; TABLE_WORDS], fields: usize) -> Option<u32> {
    match report.number {
        24 if fields <= MOST_FIELDS as usize => report.place.checked_rem(fields as u32),
        33 => target_of(words, assignment_at(words, report.place)?),
        _ => None,
    }
}
