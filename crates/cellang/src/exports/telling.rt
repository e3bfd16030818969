// Replies and reports, written to a slice.
ghost use Rattle.std.specs.Prelude.{◌≡◌, []};
ghost use Rattle.run_meaning.specs.Report.{full};
ghost use Rattle.run_calls.specs.Calls.{flat_names, memory, lent, asked, read_lent, run_report};
ghost use Rattle.run_calls.specs.RangesKept.{RangesKept};
ghost use Rattle.run_admission.specs.Promises.Admitting.{refusal_told};
ghost use Rattle.run_steps.specs.Told.{told};
ghost use Rattle.run_source.specs.Promises.Public.{manner_of};
ghost use Rattle.run_source.specs.Promises.Agreement.{AgreesFresh};
ghost use Rattle.cellang.specs.Promises.Told.{Tells, TellsRun, reply_entries, report_entries};

use api_entries::{put_reply, put_report};
use program::reply::Refusal;
use run_source::run;
use run_steps::{Manner, Report};
use spelling::told_part;

// The number and the place of a reply: 0 and 0 where nothing is refused.
pub fn reply_of<T: Copy>(told: Result<T, Refusal>) -> Refusal
    ensures { result ≡ refusal_told told }
{
    match told {
        Ok(_) => Refusal {
            number: 0,
            place: 0,
        },
        Err(refusal) => refusal,
    }
}

// Writes a reply to a slice, and where its spelling is, and returns its number.
pub fn tell_reply(source: &[u8], number: u32, place: u32, reply: &mut [u32]) -> u32
    ensures { Tells (reply_entries source.now number place) reply.old result reply.new }
{
    let part = told_part(source, number, place);
    put_reply(reply, number, place, part.stands, part.start, part.len);
    number
}

// Writes a report to a slice, and where its reply's spelling is, and returns the reply's number.
pub fn tell_report(source: &[u8], said: Report, report: &mut [u64]) -> u32
    ensures { Tells (report_entries source.now (told said [])) report.old result report.new }
{
    let part = told_part(source, said.number, said.place);
    put_report(
        report,
        said.number,
        said.place,
        said.cell,
        said.steps,
        said.count,
        part.stands,
        part.start,
        part.len,
        said.line,
    );
    said.number
}

// Runs a source, writes the report to a slice, and returns the reply's number.
pub fn run_told(
    source: &[u8],
    list: &[u8],
    words: &mut [u32],
    names: &mut [u32],
    sizes: &[u32],
    grid: &mut [i32],
    scratch: &mut [i32],
    marks: &mut [u8],
    values: &[u8],
    start: i64,
    steps: i64,
    manner: Manner,
    counts: &mut [u32],
    counted: bool,
    field: u32,
    report: &mut [u64],
) -> u32
    ensures tells_run { TellsRun (manner_of manner marks.old) (lent source.now list.now sizes.now (memory words.old names.old grid.old scratch.old marks.old counts.old) values.now start steps counted field) report.old result (memory words.new names.new grid.new scratch.new marks.new counts.new) report.new }
    ensures ranges { RangesKept source.now (read_lent flat_names (lent source.now list.now sizes.now (memory words.old names.old grid.old scratch.old marks.old counts.old) values.now start steps counted field)) (asked (lent source.now list.now sizes.now (memory words.old names.old grid.old scratch.old marks.old counts.old) values.now start steps counted field)) grid.new }
    ensures agrees { AgreesFresh manner (run_report flat_names (manner_of manner marks.old) (lent source.now list.now sizes.now (memory words.old names.old grid.old scratch.old marks.old counts.old) values.now start steps counted field)) (run_report flat_names full (lent source.now list.now sizes.now (memory words.old names.old grid.old scratch.old marks.old counts.old) values.now start steps counted field)) }
{
    let said = run(
        source, list, words, names, sizes, grid, scratch, marks, values, start, steps, manner,
        counts, counted, field,
    );
    tell_report(source, said, report)
}
