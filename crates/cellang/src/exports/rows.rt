// What row counts alone tell.
ghost use Rattle.run_row_counts.specs.RowQueries.{rows_asked, row_asked};
ghost use Rattle.run_row_counts.specs.Promises.Queries.{row_reply_of};
ghost use Rattle.cellang.specs.Promises.Told.{Tells, row_entries};

use api_entries::put_rows;
use program::reply::Reason;
use run_row_counts::queries::{first_zero_row, zeros_in_rows};

// Writes the number and the value of an answer to `reply`, and returns the number.
fn put_answer(answer: Result<u64, Reason>, reply: &mut [u64]) -> u32
    ensures { Tells (row_entries (row_reply_of answer)) reply.old result reply.new }
{
    let (number, value) = match answer {
        Ok(value) => (0, value),
        Err(reason) => (reason.number(), 0),
    };
    put_rows(reply, number, value);
    number
}

// How many zeros there are in rows, from a first to a last one. Writes the number and how many to `reply`.
pub fn cellang_zeros_in_rows(counts: &[u32], first: u32, last: u32, reply: &mut [u64]) -> u32
    ensures { Tells (row_entries (rows_asked counts.now first last)) reply.old result reply.new }
{
    put_answer(zeros_in_rows(counts, first, last), reply)
}

// The first row that has a zero. Writes the number and the row to `reply`.
pub fn cellang_first_zero_row(counts: &[u32], reply: &mut [u64]) -> u32
    ensures { Tells (row_entries (row_asked counts.now)) reply.old result reply.new }
{
    put_answer(first_zero_row(counts), reply)
}
