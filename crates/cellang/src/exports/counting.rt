// The runs that keep row counts: how many cells of each row of the first dimension have 0 in the field with a number.
ghost use Rattle.std.specs.Prelude.{true};
ghost use Rattle.run_meaning.specs.Report.{full, quiet, pausing, resuming};
ghost use Rattle.run_calls.specs.Calls.{flat_names, memory, lent, asked, read_lent, run_report};
ghost use Rattle.run_calls.specs.RangesKept.{RangesKept};
ghost use Rattle.run_source.specs.Promises.Agreement.{Agree};
ghost use Rattle.cellang.specs.Promises.Told.{TellsRun};

use crate::exports::telling::run_told;
use run_steps::Manner;

// The full run with a value list. The counts are those of the grid that is left; after a refusal they are as they were.
pub fn cellang_run_full_counts(
    source: &[u8],
    list: &[u8],
    words: &mut [u32],
    names: &mut [u32],
    sizes: &[u32],
    grid: &mut [i32],
    scratch: &mut [i32],
    marks: &mut [u8],
    values: &[u8],
    start: i64,
    steps: i64,
    counts: &mut [u32],
    field: u32,
    report: &mut [u64],
) -> u32
    ensures tells_run { TellsRun full (lent source.now list.now sizes.now (memory words.old names.old grid.old scratch.old marks.old counts.old) values.now start steps true field) report.old result (memory words.new names.new grid.new scratch.new marks.new counts.new) report.new }
    ensures ranges { RangesKept source.now (read_lent flat_names (lent source.now list.now sizes.now (memory words.old names.old grid.old scratch.old marks.old counts.old) values.now start steps true field)) (asked (lent source.now list.now sizes.now (memory words.old names.old grid.old scratch.old marks.old counts.old) values.now start steps true field)) grid.new }
{
    run_told(
        source,
        list,
        words,
        names,
        sizes,
        grid,
        scratch,
        marks,
        values,
        start,
        steps,
        Manner::Full,
        counts,
        true,
        field,
        report,
    )
}

// The quiet run, likewise.
pub fn cellang_run_quiet_counts(
    source: &[u8],
    list: &[u8],
    words: &mut [u32],
    names: &mut [u32],
    sizes: &[u32],
    grid: &mut [i32],
    scratch: &mut [i32],
    marks: &mut [u8],
    values: &[u8],
    start: i64,
    steps: i64,
    counts: &mut [u32],
    field: u32,
    report: &mut [u64],
) -> u32
    ensures tells_run { TellsRun quiet (lent source.now list.now sizes.now (memory words.old names.old grid.old scratch.old marks.old counts.old) values.now start steps true field) report.old result (memory words.new names.new grid.new scratch.new marks.new counts.new) report.new }
    ensures ranges { RangesKept source.now (read_lent flat_names (lent source.now list.now sizes.now (memory words.old names.old grid.old scratch.old marks.old counts.old) values.now start steps true field)) (asked (lent source.now list.now sizes.now (memory words.old names.old grid.old scratch.old marks.old counts.old) values.now start steps true field)) grid.new }
    ensures agrees { Agree (run_report flat_names quiet (lent source.now list.now sizes.now (memory words.old names.old grid.old scratch.old marks.old counts.old) values.now start steps true field)) (run_report flat_names full (lent source.now list.now sizes.now (memory words.old names.old grid.old scratch.old marks.old counts.old) values.now start steps true field)) }
{
    run_told(
        source,
        list,
        words,
        names,
        sizes,
        grid,
        scratch,
        marks,
        values,
        start,
        steps,
        Manner::Quiet,
        counts,
        true,
        field,
        report,
    )
}

// The pausing run, likewise.
pub fn cellang_run_pausing_counts(
    source: &[u8],
    list: &[u8],
    words: &mut [u32],
    names: &mut [u32],
    sizes: &[u32],
    grid: &mut [i32],
    scratch: &mut [i32],
    marks: &mut [u8],
    values: &[u8],
    start: i64,
    steps: i64,
    counts: &mut [u32],
    field: u32,
    report: &mut [u64],
) -> u32
    ensures tells_run { TellsRun pausing (lent source.now list.now sizes.now (memory words.old names.old grid.old scratch.old marks.old counts.old) values.now start steps true field) report.old result (memory words.new names.new grid.new scratch.new marks.new counts.new) report.new }
    ensures ranges { RangesKept source.now (read_lent flat_names (lent source.now list.now sizes.now (memory words.old names.old grid.old scratch.old marks.old counts.old) values.now start steps true field)) (asked (lent source.now list.now sizes.now (memory words.old names.old grid.old scratch.old marks.old counts.old) values.now start steps true field)) grid.new }
    ensures agrees { Agree (run_report flat_names pausing (lent source.now list.now sizes.now (memory words.old names.old grid.old scratch.old marks.old counts.old) values.now start steps true field)) (run_report flat_names full (lent source.now list.now sizes.now (memory words.old names.old grid.old scratch.old marks.old counts.old) values.now start steps true field)) }
{
    run_told(
        source,
        list,
        words,
        names,
        sizes,
        grid,
        scratch,
        marks,
        values,
        start,
        steps,
        Manner::Pausing,
        counts,
        true,
        field,
        report,
    )
}

// The resuming run, likewise: the counts are filled anew from the grid.
pub fn cellang_run_resuming_counts(
    source: &[u8],
    list: &[u8],
    words: &mut [u32],
    names: &mut [u32],
    sizes: &[u32],
    grid: &mut [i32],
    scratch: &mut [i32],
    marks: &mut [u8],
    values: &[u8],
    start: i64,
    steps: i64,
    counts: &mut [u32],
    field: u32,
    report: &mut [u64],
) -> u32
    ensures tells_run { TellsRun (resuming marks.old) (lent source.now list.now sizes.now (memory words.old names.old grid.old scratch.old marks.old counts.old) values.now start steps true field) report.old result (memory words.new names.new grid.new scratch.new marks.new counts.new) report.new }
    ensures ranges { RangesKept source.now (read_lent flat_names (lent source.now list.now sizes.now (memory words.old names.old grid.old scratch.old marks.old counts.old) values.now start steps true field)) (asked (lent source.now list.now sizes.now (memory words.old names.old grid.old scratch.old marks.old counts.old) values.now start steps true field)) grid.new }
{
    run_told(
        source,
        list,
        words,
        names,
        sizes,
        grid,
        scratch,
        marks,
        values,
        start,
        steps,
        Manner::Resuming,
        counts,
        true,
        field,
        report,
    )
}
