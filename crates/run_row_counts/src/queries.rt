// Questions that row counts alone answer.
ghost use Rattle.std.specs.Prelude.{◌≡◌};
ghost use Rattle.run_row_counts.specs.RowQueries.{one_a_row, rows_within, rows_asked, row_asked};
ghost use Rattle.run_row_counts.specs.Promises.Queries.{row_reply_of};

use program::reply::Reason;
use value::limits::MOST_ALONG;

// Whether so many counts can be one for each row of a grid.
#[tactic(auto, using(crate::proofs::QueryLaws::no_counts, crate::proofs::QueryLaws::some_counts))]
fn one_a_row(counts: usize) -> bool
    ensures { result ≡ one_a_row counts }
{
    counts != 0 && counts <= MOST_ALONG as usize
}

// Whether so many counts have the rows from a first to a last one.
#[tactic(auto, using(crate::proofs::QueryLaws::no_rows, crate::proofs::QueryLaws::rows_reversed, crate::proofs::QueryLaws::rows_in_order))]
fn rows_within(counts: usize, first: u32, last: u32) -> bool
    ensures { result ≡ rows_within counts first last }
{
    one_a_row(counts) && first <= last && (last as usize) < counts
}

// How many cells have 0 in the field in the rows from the first to the last, both included. Refused if the counts are not one a
// row, or the rows are reversed or outside.
pub fn zeros_in_rows(counts: &[u32], first: u32, last: u32) -> Result<u64, Reason>
    ensures { row_reply_of result ≡ rows_asked counts.now first last }
{
    if !rows_within(counts.len(), first, last) {
        return Err(Reason::RowCounts);
    }
    let mut sum: u64 = 0;
    for &count in &counts[first as usize..last as usize + 1] {
        sum += u64::from(count);
    }
    Ok(sum)
}

// The first row with a cell that has 0 in the field. Refused if the counts are not one a row, or no row has one.
pub fn first_zero_row(counts: &[u32]) -> Result<u64, Reason>
    ensures { row_reply_of result ≡ row_asked counts.now }
{
    if !one_a_row(counts.len()) {
        return Err(Reason::RowCounts);
    }
    match counts.iter().position(|&count| count != 0) {
        Some(row) => Ok(row as u64),
        None => Err(Reason::NoZeroRow),
    }
}
