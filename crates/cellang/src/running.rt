// A source run on a grid.
ghost use Rattle.run_meaning.specs.Report.{full};
ghost use Rattle.run_calls.specs.Calls.{memory, lent, asked, read_lent, run_report};
ghost use Rattle.run_calls.specs.RangesKept.{RangesKept};
ghost use Rattle.run_steps.specs.Told.{told};
ghost use Rattle.run_source.specs.Promises.Public.{manner_of, RunLeaves};
ghost use Rattle.run_source.specs.Promises.Agreement.{AgreesFresh};
ghost use Rattle.cellang.specs.Left.{row_names};

use crate::rows::{row_fits, store_row};
use api_records::Name;
use program::reply::{Reason, Refusal};
use run_source::opening::Stop;
use run_steps::{Manner, Report};
use value::limits::NAME_WORDS;

// Runs a source on a grid: so many steps from a start time, with the blocks of a value list, which is empty where there is none. A full run evaluates
// every cell in each step, the others only the cells that are open in it: the answer and the grid are the same, and the count is of the open cells. A
// pausing run leaves the marks of the cells that one more step would open; a resuming one begins, besides, from the marks that it is passed, whatever
// they are. Where `counted` is set the run keeps row counts: how many cells of each row of the first dimension have 0 in the field.
// Kept: what is lent stands in parameters, as in the C interface; the definition's record of them is `lent`.
pub fn run(
    source: &[u8],
    list: &[u8],
    words: &mut [u32],
    names: &mut [Name],
    sizes: &[u32],
    grid: &mut [i32],
    scratch: &mut [i32],
    marks: &mut [u8],
    values: &[u8],
    start: i64,
    steps: i64,
    manner: Manner,
    counts: &mut [u32],
    counted: bool,
    field: u32,
) -> Report
    ensures { (RunLeaves row_names (manner_of manner marks.old) (lent source.now list.now sizes.now (memory words.old names.old grid.old scratch.old marks.old counts.old) values.now start steps counted field) result (memory words.new names.new grid.new scratch.new marks.new counts.new)) × (AgreesFresh manner (told result grid.new) (run_report row_names full (lent source.now list.now sizes.now (memory words.old names.old grid.old scratch.old marks.old counts.old) values.now start steps counted field))) × (RangesKept source.now (read_lent row_names (lent source.now list.now sizes.now (memory words.old names.old grid.old scratch.old marks.old counts.old) values.now start steps counted field)) (asked (lent source.now list.now sizes.now (memory words.old names.old grid.old scratch.old marks.old counts.old) values.now start steps counted field)) grid.new) }
{
    if !row_fits(list, names.len()) {
        return Report::from(Stop::from(Refusal::new(Reason::Buffers, 0)));
    }
    let table = words.len();
    let mut flat = [0; NAME_WORDS];
    let report = run_source::run(
        source, list, words, &mut flat, sizes, grid, scratch, marks, values, start, steps, manner,
        counts, counted, field,
    );
    store_row(names, &flat, source.len(), table);
    report
}
