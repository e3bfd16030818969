#![tactic(auto)]

// The tests of a run before it begins: replies 20 to 22 by the sizes, rooms and times, and reply 24 by the entries of the grid.
ghost use Rattle.std.specs.Prelude.{◌≡◌, ◌+◌, ◌*◌, ◌%◌, ◌<◌, ◌≤◌, length, get_or, pos};
ghost use Rattle.value.specs.Limits.{most_dims, most_cells, most_fields};
ghost use Rattle.value.specs.Worked.{value};
ghost use Rattle.program.specs.Syntax.{no_range};
ghost use Rattle.cell_meaning.specs.Evaluation.{in_field};
ghost use Rattle.cell_meaning.specs.Promises.Stands.{rule_table, ranges_in};
ghost use Rattle.run_meaning.specs.Admission.{good_times};
ghost use Rattle.program.specs.Promises.Fitting.{Sized};
ghost use Rattle.run_admission.specs.Promises.Admitting.{times_of, cells_of, rooms_of, number_told, AdmissionAsked, InFields};

mod admitting;

pub use admitting::admit;
use cell_operands::table::word_at;
use program::Rule;
use program::reply::{Reason, Refusal};
use run_meaning::next_coordinate;
use value::Value;
use value::limits::{MOST_ALONG, MOST_CELLS};

// The product with one size more before it; 0 where that size is not 1 to 4,096, or the product is over 1,048,576.
#[tactic(auto, using(crate::proofs::RequestLaws::times_low, crate::proofs::RequestLaws::times_high, crate::proofs::RequestLaws::times_over, crate::proofs::RequestLaws::times_in))]
fn times(n: u32, total: u64) -> u64
    requires { total ≤ most_cells }
    ensures { result ≡ times_of n total }
{
    if n < 1 || MOST_ALONG < n {
        return 0;
    }
    let more = u64::from(n) * total;
    if MOST_CELLS < more {
        return 0;
    }
    more
}

// The number of cells of a grid with these sizes; 0 where a size is not 1 to 4,096, or there are more than 1,048,576 cells.
pub fn cells(sizes: &[u32]) -> u64
    requires { length sizes.now ≤ most_dims }
    ensures { result ≡ cells_of sizes.now }
{
    let mut total = 1;
    for k in (0..sizes.len()).rev() {
        total = times(sizes[k], total);
        if total == 0 {
            return 0;
        }
    }
    total
}

// Whether grid and scratch have so many entries as there are fields in all cells, and marks one a cell.
#[tactic(auto, using(crate::proofs::RequestLaws::rooms_entries, crate::proofs::RequestLaws::rooms_scratch, crate::proofs::RequestLaws::rooms_marks))]
fn good_rooms(cells: u64, fields: u32, entries: usize, scratch: usize, marks: usize) -> bool
    requires { (cells ≤ most_cells) × (fields ≤ most_fields) }
    ensures { result ≡ rooms_of cells fields entries scratch marks }
{
    entries as u64 == cells * u64::from(fields) && scratch == entries && marks as u64 == cells
}

// Whether start and steps are not negative, and their sum is at most 2147483647.
#[tactic(auto, using(crate::proofs::RequestLaws::good_sum, crate::proofs::RequestLaws::bad_start, crate::proofs::RequestLaws::bad_steps))]
pub fn good_times(start: i64, steps: i64) -> bool
    ensures { result ≡ good_times start steps }
{
    0 <= start && 0 <= steps && (start as u64) + (steps as u64) <= 2147483647
}

// The first of 20 to 22 that holds, by the sizes, the lengths of grid, scratch and marks, and the times.
pub fn refused_request(
    rule: Rule,
    sizes: &[u32],
    entries: usize,
    scratch: usize,
    marks: usize,
    start: i64,
    steps: i64,
) -> Result<(), Reason>
    requires { (rule.dims ≤ most_dims) × (rule.fields ≤ most_fields) }
    ensures { AdmissionAsked rule sizes.now entries scratch marks start steps (number_told result) }
{
    if sizes.len() != rule.dims as usize {
        return Err(Reason::Shape);
    }
    let n = cells(sizes);
    if n == 0 {
        return Err(Reason::Shape);
    }
    if !good_rooms(n, rule.fields, entries, scratch, marks) {
        return Err(Reason::GridLength);
    }
    if !good_times(start, steps) {
        return Err(Reason::Times);
    }
    Ok(())
}

// The value of an entry.
fn value_at(grid: &[i32], e: usize) -> Value
    requires { e < length grid.now }
    ensures { result ≡ value (get_or grid.now e (pos 0)) }
{
    Value { n: grid[e] }
}

// Whether a value is in the range of a field.
#[tactic(auto, using(crate::proofs::EntryLaws::fits_known))]
fn fits(words: &[u32], rule: Rule, which: usize, entry: Value) -> bool
    requires { (Sized (length words.now) rule) × (which < rule.fields) }
    ensures { result ≡ in_field (get_or (ranges_in (rule_table words.now rule) rule.base rule.fields) which no_range) entry.n }
{
    let n = rule.tokens;
    let at = rule.base + which;
    let low = Value::decode(word_at(words, n, 2, at));
    let high = Value::decode(word_at(words, n, 3, at));
    entry.within(low, high)
}

// The lowest entry of a grid that is out of its field's range is refused with 24 at its number.
#[tactic(auto, using(crate::proofs::EntryLaws::passed_start, crate::proofs::EntryLaws::passed_field, crate::proofs::EntryLaws::passed_out, crate::proofs::EntryLaws::passed_on, crate::proofs::EntryLaws::passed_end))]
pub fn out_of_field(words: &[u32], rule: Rule, grid: &[i32]) -> Result<(), Refusal>
    requires { (Sized (length words.now) rule) × (0 < rule.fields) × (length grid.now ≤ 33554432) }
    ensures { InFields words.now rule grid.now result }
{
    let fields = rule.fields as usize;
    let mut which = 0;
    for e in 0..grid.len() {
        if !fits(words, rule, which, value_at(grid, e)) {
            return Err(Refusal::new(Reason::FieldRange, e as u32));
        }
        which = next_coordinate(which, fields);
    }
    Ok(())
}
