// The calls: the plan check and the planner.
ghost use Rattle.std.specs.Prelude.{◌≡◌, ◌*◌, length};
ghost use Rattle.grammar.specs.Checking.{rooms_fit};
ghost use Rattle.run_calls.specs.Calls.{flat_names, source_lent};
ghost use Rattle.band_planner.specs.Promises.Borders.{border_of};
ghost use Rattle.band_planner.specs.Promises.Planning.{planned_of, plan_or_none, ChecksSource, CheckLeaves, PlansSource, PlannerLeaves};

use crate::borders::Border;
use crate::opening::open_rows;
use crate::plans::{plan_accepted, write_plan};
use program::reply::{Reason, Refusal};
use spelling::is_built_in;

// Checks a plan, where the built-in list is the one there is.
fn check_listed(
    source: &[u8],
    words: &mut [u32],
    names: &mut [u32],
    sizes: &[u32],
    held: u32,
    plan: &[u32],
) -> Result<(), Refusal>
    ensures { ChecksSource (rooms_fit (length words.old) (length names.old)) source.now sizes.now held plan.now words.old names.old result words.new names.new }
{
    let opened = open_rows(source, words, names, sizes)?;
    if let Some(refusal) = opened.far {
        return Err(refusal);
    }
    if !plan_accepted(plan, opened.rows, opened.border, held) {
        return Err(Refusal::new(Reason::WrongPlan, 0));
    }
    Ok(())
}

// Checks a plan of bands of rows for a source on a grid of given sizes, where so many rows can be held: two entries a band, its first and its last row. Ok
// exactly if it is accepted: the bands are not empty and run from row 0 to the last in order without gap or overlap, and each has, with its border
// rows, at most so many rows. Else the source's refusal, 20, 23, or 60. Word table and name list are left as after a run.
pub fn check_plan(
    source: &[u8],
    list: &[u8],
    words: &mut [u32],
    names: &mut [u32],
    sizes: &[u32],
    held: u32,
    plan: &[u32],
) -> Result<(), Refusal>
    ensures { CheckLeaves flat_names (source_lent source.now list.now words.old names.old) sizes.now held plan.now result words.new names.new }
{
    if !is_built_in(list) {
        return Err(Refusal::new(Reason::Buffers, 0));
    }
    check_listed(source, words, names, sizes, held, plan)
}

// The planner's plan for so many rows, with these border rows, where so many rows can be held, at the front of a room of two entries a row; 59 where there is
// none.
fn put_plan(rows: u32, border: Border, held: u32, bands: &mut [u32]) -> Result<u32, Refusal>
    requires { length bands.old ≡ 2 * rows }
    ensures { planned_of result bands.new ≡ plan_or_none rows (border_of border) held bands.old }
{
    let borders = border.before as u64 + border.behind as u64;
    if held as u64 <= borders {
        return Err(Refusal::new(Reason::NoPlan, 0));
    }
    Ok(write_plan(rows, held - border.before - border.behind, bands))
}

// Plans, where the built-in list is the one there is.
fn plan_listed(
    source: &[u8],
    words: &mut [u32],
    names: &mut [u32],
    sizes: &[u32],
    held: u32,
    bands: &mut [u32],
) -> Result<u32, Refusal>
    ensures { PlansSource (rooms_fit (length words.old) (length names.old)) source.now sizes.now held words.old names.old bands.old result words.new names.new bands.new }
{
    let opened = open_rows(source, words, names, sizes)?;
    if bands.len() as u64 != 2 * (opened.rows as u64) {
        return Err(Refusal::new(Reason::GridLength, 0));
    }
    if let Some(refusal) = opened.far {
        return Err(refusal);
    }
    put_plan(opened.rows, opened.border, held, bands)
}

// Plans bands of rows for a source on a grid of given sizes, where so many rows can be held: the accepted plan whose bands, in turn, are as long as can be, at
// the front of the room, which has two entries a row and keeps its rest; and the number of its bands. Refused with the source's reply, 20, 21 for the
// room, 23, or 59 exactly if no plan is accepted: then the room is as it was. Word table and name list are left as after a run.
pub fn plan_bands(
    source: &[u8],
    list: &[u8],
    words: &mut [u32],
    names: &mut [u32],
    sizes: &[u32],
    held: u32,
    bands: &mut [u32],
) -> Result<u32, Refusal>
    ensures { PlannerLeaves flat_names (source_lent source.now list.now words.old names.old) sizes.now held bands.old result words.new names.new bands.new }
{
    if !is_built_in(list) {
        return Err(Refusal::new(Reason::Buffers, 0));
    }
    plan_listed(source, words, names, sizes, held, bands)
}
