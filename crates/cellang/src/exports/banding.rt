// Plans of bands of rows, one band's call, and a run under a plan.
ghost use Rattle.run_calls.specs.Calls.{flat_names, source_lent, memory, lent};
ghost use Rattle.run_meaning.specs.Report.{Report};
ghost use Rattle.band_meaning.specs.BorderCall.{borders_left};
ghost use Rattle.band_meaning.specs.Plans.{Planned};
ghost use Rattle.band_meaning.specs.PlanCalls.{plan_check_left, planner_left};
ghost use Rattle.band_call.specs.BandCall.{band_asked, band_left};
ghost use Rattle.band_run.specs.BandedRun.{banded_lent};
ghost use Rattle.cellang.specs.Promises.Told.{TellsSource, TellsRoom, reply_entries, border_entries, planned_entries, report_entries, is_asked, TellsBanded};

use crate::exports::telling::{reply_of, tell_reply, tell_report};
use api_entries::{put_borders, put_planned};
use band_call::step_band;
use band_planner::borders::Border;
use band_planner::{borders_of, check_plan, plan_bands};
use band_run::run_banded;
use spelling::told_part;

// How many border rows a band has: returns the reply's number. `reply` gets number, place, the rows before and behind, and the spelling: where it is, its
// first byte and its length.
pub fn cellang_border_rows(
    source: &[u8],
    list: &[u8],
    words: &mut [u32],
    names: &mut [u32],
    sizes: &[u32],
    reply: &mut [u32],
) -> u32
    ensures { TellsSource (borders_left flat_names (source_lent source.now list.now words.old names.old) sizes.now) (border_entries source.now) reply.old result words.new names.new reply.new }
{
    let told = borders_of(source, list, words, names, sizes);
    let refusal = reply_of(told);
    let border = told.unwrap_or(Border {
        before: 0,
        behind: 0,
    });
    let part = told_part(source, refusal.number, refusal.place);
    put_borders(
        reply,
        refusal.number,
        refusal.place,
        border.before,
        border.behind,
        part.stands,
        part.start,
        part.len,
    );
    refusal.number
}

// Checks a plan, and returns the reply's number. `reply` gets number and place, and the spelling: where it is, its first byte and its length.
pub fn cellang_check_plan(
    source: &[u8],
    list: &[u8],
    words: &mut [u32],
    names: &mut [u32],
    sizes: &[u32],
    held: u32,
    plan: &[u32],
    reply: &mut [u32],
) -> u32
    ensures { TellsSource (plan_check_left flat_names (source_lent source.now list.now words.old names.old) sizes.now held plan.now) (λ c. reply_entries source.now c.number c.place) reply.old result words.new names.new reply.new }
{
    let told = reply_of(check_plan(source, list, words, names, sizes, held, plan));
    tell_reply(source, told.number, told.place, reply)
}

// Plans the bands, and returns the reply's number. `reply` gets number, place and how many bands there are, and the spelling: where it is, its first byte
// and its length.
pub fn cellang_plan_bands(
    source: &[u8],
    list: &[u8],
    words: &mut [u32],
    names: &mut [u32],
    sizes: &[u32],
    held: u32,
    bands: &mut [u32],
    reply: &mut [u32],
) -> u32
    ensures { TellsRoom (planner_left flat_names (source_lent source.now list.now words.old names.old) sizes.now held bands.old) (planned_entries source.now) (λ (x : Planned). x.room) reply.old result words.new names.new bands.new reply.new }
{
    let told = plan_bands(source, list, words, names, sizes, held, bands);
    let refusal = reply_of(told);
    let part = told_part(source, refusal.number, refusal.place);
    put_planned(
        reply,
        refusal.number,
        refusal.place,
        told.unwrap_or(0),
        part.stands,
        part.start,
        part.len,
    );
    refusal.number
}

// One band's step, from the band's old rows with borders and the time alone: returns the reply's number. `report` gets that of a run of one step.
pub fn cellang_step_band(
    source: &[u8],
    list: &[u8],
    words: &mut [u32],
    names: &mut [u32],
    sizes: &[u32],
    first: u32,
    last: u32,
    held: u32,
    rows: &[i32],
    room: &mut [i32],
    time: i64,
    report: &mut [u64],
) -> u32
    ensures { TellsRoom (band_left flat_names (source_lent source.now list.now words.old names.old) (band_asked sizes.now first last held rows.now room.old time)) (report_entries source.now) (λ (x : Report). x.grid) report.old result words.new names.new room.new report.new }
{
    let told = step_band(
        source, list, words, names, sizes, first, last, held, rows, room, time,
    );
    tell_report(source, told, report)
}

// A full run under a plan, with a value list; it keeps row counts if `counted` is not 0: returns the reply's number. `report` gets that of a run.
pub fn cellang_run_banded(
    source: &[u8],
    list: &[u8],
    words: &mut [u32],
    names: &mut [u32],
    sizes: &[u32],
    grid: &mut [i32],
    scratch: &mut [i32],
    marks: &mut [u8],
    values: &[u8],
    start: i64,
    steps: i64,
    counts: &mut [u32],
    counted: u32,
    field: u32,
    held: u32,
    plan: &[u32],
    room: &mut [i32],
    report: &mut [u64],
) -> u32
    ensures { TellsBanded (banded_lent (lent source.now list.now sizes.now (memory words.old names.old grid.old scratch.old marks.old counts.old) values.now start steps (is_asked counted) field) held plan.now room.old) report.old result (memory words.new names.new grid.new scratch.new marks.new counts.new) room.new report.new }
{
    let told = run_banded(
        source,
        list,
        words,
        names,
        sizes,
        grid,
        scratch,
        marks,
        values,
        start,
        steps,
        counts,
        counted != 0,
        field,
        held,
        plan,
        room,
    );
    tell_report(source, told, report)
}
