// A quiet run that is paused, and one that is resumed.
ghost use Rattle.std.specs.Prelude.{false, []};
ghost use Rattle.run_meaning.specs.Report.{full, pausing, resuming};
ghost use Rattle.run_calls.specs.Calls.{flat_names, memory, lent, asked, read_lent, run_report};
ghost use Rattle.run_calls.specs.RangesKept.{RangesKept};
ghost use Rattle.run_source.specs.Promises.Agreement.{Agree};
ghost use Rattle.cellang.specs.Promises.Told.{TellsRun};

use crate::exports::telling::run_told;
use run_steps::Manner;

// Runs a source on a grid with the blocks of a value list. Each step evaluates the open cells alone. Returns the reply's number. After success the marks
// are left standing: 1 for a cell that one more step would open, else 0. `report` is written as by the quiet run, and is the same.
pub fn cellang_run_pausing(
    source: &[u8],
    list: &[u8],
    words: &mut [u32],
    names: &mut [u32],
    sizes: &[u32],
    grid: &mut [i32],
    scratch: &mut [i32],
    marks: &mut [u8],
    values: &[u8],
    start: i64,
    steps: i64,
    report: &mut [u64],
) -> u32
    ensures tells_run { TellsRun pausing (lent source.now list.now sizes.now (memory words.old names.old grid.old scratch.old marks.old []) values.now start steps false 0) report.old result (memory words.new names.new grid.new scratch.new marks.new []) report.new }
    ensures ranges { RangesKept source.now (read_lent flat_names (lent source.now list.now sizes.now (memory words.old names.old grid.old scratch.old marks.old []) values.now start steps false 0)) (asked (lent source.now list.now sizes.now (memory words.old names.old grid.old scratch.old marks.old []) values.now start steps false 0)) grid.new }
    ensures agrees { Agree (run_report flat_names pausing (lent source.now list.now sizes.now (memory words.old names.old grid.old scratch.old marks.old []) values.now start steps false 0)) (run_report flat_names full (lent source.now list.now sizes.now (memory words.old names.old grid.old scratch.old marks.old []) values.now start steps false 0)) }
{
    let mut none = [0u32; 0];
    run_told(
        source,
        list,
        words,
        names,
        sizes,
        grid,
        scratch,
        marks,
        values,
        start,
        steps,
        Manner::Pausing,
        &mut none,
        false,
        0,
        report,
    )
}

// The same, begun from the marks that are passed: in the first step those cells are open whose mark is not 0, and those that its block or `time` opens. The
// marks may be any; what joins an earlier run are those that it left.
pub fn cellang_run_resuming(
    source: &[u8],
    list: &[u8],
    words: &mut [u32],
    names: &mut [u32],
    sizes: &[u32],
    grid: &mut [i32],
    scratch: &mut [i32],
    marks: &mut [u8],
    values: &[u8],
    start: i64,
    steps: i64,
    report: &mut [u64],
) -> u32
    ensures tells_run { TellsRun (resuming marks.old) (lent source.now list.now sizes.now (memory words.old names.old grid.old scratch.old marks.old []) values.now start steps false 0) report.old result (memory words.new names.new grid.new scratch.new marks.new []) report.new }
    ensures ranges { RangesKept source.now (read_lent flat_names (lent source.now list.now sizes.now (memory words.old names.old grid.old scratch.old marks.old []) values.now start steps false 0)) (asked (lent source.now list.now sizes.now (memory words.old names.old grid.old scratch.old marks.old []) values.now start steps false 0)) grid.new }
{
    let mut none = [0u32; 0];
    run_told(
        source,
        list,
        words,
        names,
        sizes,
        grid,
        scratch,
        marks,
        values,
        start,
        steps,
        Manner::Resuming,
        &mut none,
        false,
        0,
        report,
    )
}
