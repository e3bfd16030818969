#![tactic(auto)]

// The public calls for programs: they pass the row of records by value, and it is passed on by reference.
ghost use Rattle.std.specs.Prelude.{◌≡◌, length};
ghost use Rattle.value.specs.Limits.{most_names};
ghost use Rattle.run_calls.specs.Calls.{memory, lent};
ghost use Rattle.run_source.specs.Promises.Public.{manner_of, RunLeaves};
ghost use Rattle.cellang.specs.Left.{row_names};
ghost use Rattle.cellang.specs.Storing.{lent_rows_fit};
ghost use Rattle.api_naming.specs.Promises.Promises.{ChecksNamed, NamesField};

use api_records::Name;
use read_source::Reply;
use run_steps::{Manner, Report};
use value::limits::MOST_NAMES;

// What a run returns: the report, and the row of records.
// Kept: only Clone and Copy, as the row is large.
#[derive(Clone, Copy)]
pub struct Ran {
    pub report: Report,
    pub rows: [Name; MOST_NAMES],
}

// Checks a source.
pub fn check(source: &[u8], list: &[u8], words: &mut [u32], mut rows: [Name; MOST_NAMES]) -> Reply
    ensures { ChecksNamed (lent_rows_fit list.now (length words.old) most_names) source.now words.old result words.new }
{
    cellang::check(source, list, words, &mut rows)
}

// Runs a source on a grid, and returns the row of records.
pub fn run(
    source: &[u8],
    list: &[u8],
    words: &mut [u32],
    mut rows: [Name; MOST_NAMES],
    sizes: &[u32],
    grid: &mut [i32],
    scratch: &mut [i32],
    marks: &mut [u8],
    values: &[u8],
    start: i64,
    steps: i64,
    manner: Manner,
    counts: &mut [u32],
    counted: bool,
    field: u32,
) -> Ran
    ensures { RunLeaves row_names (manner_of manner marks.old) (lent source.now list.now sizes.now (memory words.old rows grid.old scratch.old marks.old counts.old) values.now start steps counted field) result.report (memory words.new result.rows grid.new scratch.new marks.new counts.new) }
{
    let report = cellang::run(
        source, list, words, &mut rows, sizes, grid, scratch, marks, values, start, steps, manner,
        counts, counted, field,
    );
    Ran { report, rows }
}

// The record of the field that has a number, the zero record if there is none.
pub fn field_record(rows: [Name; MOST_NAMES], number: u32) -> Name
    ensures { NamesField rows number result }
{
    match cellang::find_field(&rows, number) {
        Some(k) => cellang::record(&rows, k),
        None => Name::default(),
    }
}

// A row in which no name is declared.
pub fn no_names() -> [Name; MOST_NAMES]
    ensures { 256 ≡ length result }
{
    [Name::default(); MOST_NAMES]
}
