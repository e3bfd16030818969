// Running a source.
ghost use Rattle.std.specs.Prelude.{false, []};
ghost use Rattle.run_meaning.specs.Report.{full, quiet};
ghost use Rattle.run_calls.specs.Calls.{flat_names, memory, lent, asked, read_lent, run_report};
ghost use Rattle.run_calls.specs.RangesKept.{RangesKept};
ghost use Rattle.run_source.specs.Promises.Agreement.{Agree};
ghost use Rattle.cellang.specs.Promises.Told.{TellsRun};

use crate::exports::telling::run_told;
use run_steps::Manner;

// Runs a source on a grid, each step of which evaluates every cell, and returns the reply's number.
// `report` gets number, place, cell, steps and count, the spelling: where it is, its first byte and its length, and the line of a value list.
pub fn cellang_run_full(
    source: &[u8],
    list: &[u8],
    words: &mut [u32],
    names: &mut [u32],
    sizes: &[u32],
    grid: &mut [i32],
    scratch: &mut [i32],
    marks: &mut [u8],
    start: i64,
    steps: i64,
    report: &mut [u64],
) -> u32
    ensures tells_run { TellsRun full (lent source.now list.now sizes.now (memory words.old names.old grid.old scratch.old marks.old []) [] start steps false 0) report.old result (memory words.new names.new grid.new scratch.new marks.new []) report.new }
    ensures ranges { RangesKept source.now (read_lent flat_names (lent source.now list.now sizes.now (memory words.old names.old grid.old scratch.old marks.old []) [] start steps false 0)) (asked (lent source.now list.now sizes.now (memory words.old names.old grid.old scratch.old marks.old []) [] start steps false 0)) grid.new }
{
    let mut none = [0u32; 0];
    run_told(
        source,
        list,
        words,
        names,
        sizes,
        grid,
        scratch,
        marks,
        &source[..0],
        start,
        steps,
        Manner::Full,
        &mut none,
        false,
        0,
        report,
    )
}

// Runs a source on a grid, each step of which evaluates the open cells alone, and returns the reply's number.
// `report` is written as by the full run; but for the count its numbers are the full run's, and so is the grid.
pub fn cellang_run_quiet(
    source: &[u8],
    list: &[u8],
    words: &mut [u32],
    names: &mut [u32],
    sizes: &[u32],
    grid: &mut [i32],
    scratch: &mut [i32],
    marks: &mut [u8],
    start: i64,
    steps: i64,
    report: &mut [u64],
) -> u32
    ensures tells_run { TellsRun quiet (lent source.now list.now sizes.now (memory words.old names.old grid.old scratch.old marks.old []) [] start steps false 0) report.old result (memory words.new names.new grid.new scratch.new marks.new []) report.new }
    ensures ranges { RangesKept source.now (read_lent flat_names (lent source.now list.now sizes.now (memory words.old names.old grid.old scratch.old marks.old []) [] start steps false 0)) (asked (lent source.now list.now sizes.now (memory words.old names.old grid.old scratch.old marks.old []) [] start steps false 0)) grid.new }
    ensures agrees { Agree (run_report flat_names quiet (lent source.now list.now sizes.now (memory words.old names.old grid.old scratch.old marks.old []) [] start steps false 0)) (run_report flat_names full (lent source.now list.now sizes.now (memory words.old names.old grid.old scratch.old marks.old []) [] start steps false 0)) }
{
    let mut none = [0u32; 0];
    run_told(
        source,
        list,
        words,
        names,
        sizes,
        grid,
        scratch,
        marks,
        &source[..0],
        start,
        steps,
        Manner::Quiet,
        &mut none,
        false,
        0,
        report,
    )
}
