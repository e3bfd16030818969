// One band's call.
ghost use Rattle.std.specs.Prelude.{length, ◌≡◌, List, ℤ};
ghost use Rattle.grammar.specs.Checking.{rooms_fit};
ghost use Rattle.run_calls.specs.Calls.{flat_names, source_lent};
ghost use Rattle.band_planner.specs.Promises.Borders.{border_of};
ghost use Rattle.band_planner.specs.Promises.Plans.{band_told};
ghost use Rattle.run_meaning.specs.Report.{refused};
ghost use Rattle.run_steps.specs.Told.{told};
ghost use Rattle.band_call.specs.BandCall.{band_asked};
ghost use Rattle.band_call.specs.Promises.Calling.{LentFits, LentStepped, AdmitsBand, StepsSource, BandLeaves};

use crate::asking::{refused_band, row_cells};
use band_planner::borders::Border;
use band_planner::opening::{RowsOpened, open_rows};
use band_planner::plans::Band;
use band_step::lending::room_shape;
use cell_leaves::fill_leaves;
use program::Rule;
use program::reply::{Reason, Refusal};
use run_admission::out_of_field;
use run_step::rows::step_rows;
use run_steps::Report;
use spelling::is_built_in;
use value::limits::LEAF_WORDS;

// The report of a refused call.
fn refused(refusal: Refusal) -> Report
    ensures { (room : List ℤ) → told result room ≡ refused refusal.number refusal.place 0 room }
{
    Report {
        number: refusal.number,
        place: refusal.place,
        line: 0,
        cell: 0,
        steps: 0,
        count: 0,
    }
}

// Whether the call is admitted: then its source on a grid of these sizes.
fn admit_band(
    source: &[u8],
    words: &mut [u32],
    names: &mut [u32],
    sizes: &[u32],
    band: Band,
    held: u32,
    rows: &[i32],
    room: &[i32],
    time: i64,
) -> Result<RowsOpened, Refusal>
    ensures { AdmitsBand (rooms_fit (length words.old) (length names.old)) source.now words.old names.old (band_asked sizes.now band.first band.last held rows.now room.now time) result words.new names.new }
{
    let opened = open_rows(source, words, names, sizes)?;
    let asked = refused_band(
        opened.rows,
        row_cells(sizes),
        opened.rule.fields,
        opened.border,
        held,
        band,
        rows.len(),
        room.len(),
        time,
    );
    if let Err(reason) = asked {
        return Err(Refusal::new(reason, 0));
    }
    if let Some(refusal) = opened.far {
        return Err(refusal);
    }
    out_of_field(words, opened.rule, rows)?;
    Ok(opened)
}

// The step of an admitted call, by the rows passed: the room gets the band's next rows, at a fault zeros, and the cell is named by its number in
// the whole grid. It is not inlined, so that its leaf table is on the stack only once the source has been read.
#[inline(never)]
fn step_lent(
    words: &[u32],
    rule: Rule,
    sizes: &[u32],
    row: usize,
    border: Border,
    band: Band,
    rows: &[i32],
    room: &mut [i32],
    time: u32,
) -> Report
    requires { LentFits words.now rule sizes.now row (border_of border) (band_told band) (length rows.now) (length room.old) time }
    ensures { LentStepped words.now rule sizes.now (border_of border) (band_told band) rows.now room.old time result room.new }
{
    let own = band.last + 1 - band.first;
    let shape = room_shape(sizes, border.before + own + border.behind);
    let dims = sizes.len();
    let mut leaves = [0u32; LEAF_WORDS];
    fill_leaves(
        words,
        &shape[..dims],
        rule.tokens,
        rule.fields as usize,
        rule.slots as usize,
        &mut leaves,
    );
    let step = step_rows(
        &leaves,
        words,
        rule,
        &shape[..dims],
        row,
        border.before as usize,
        own as usize,
        rows,
        room,
        time,
        0,
    );
    match step.outcome {
        Ok(()) => Report {
            number: 0,
            place: 0,
            line: 0,
            cell: 0,
            steps: 1,
            count: step.count,
        },
        Err(stop) => {
            room.fill(0);
            Report {
                number: stop.fault.number,
                place: stop.fault.place,
                line: 0,
                cell: band.first * row as u32 + stop.cell,
                steps: 0,
                count: step.count,
            }
        }
    }
}

// Steps a band, where the built-in list is the one there is.
fn band_listed(
    source: &[u8],
    words: &mut [u32],
    names: &mut [u32],
    sizes: &[u32],
    band: Band,
    held: u32,
    rows: &[i32],
    room: &mut [i32],
    time: i64,
) -> Report
    ensures { StepsSource (rooms_fit (length words.old) (length names.old)) source.now words.old names.old (band_asked sizes.now band.first band.last held rows.now room.old time) result words.new names.new room.new }
{
    match admit_band(source, words, names, sizes, band, held, rows, room, time) {
        Ok(opened) => step_lent(
            words,
            opened.rule,
            sizes,
            row_cells(sizes),
            opened.border,
            band,
            rows,
            room,
            time as u32,
        ),
        Err(refusal) => refused(refusal),
    }
}

// Steps one band of rows of a grid of given sizes, from its first row to its last, at a time. `rows` are its old rows with the border rows before and behind,
// wrapped at the edges, exactly that many and at most `held`; `room` is for its own next rows, exactly that many. Nothing else of the grid is passed.
// Refused with the source's reply, 20, 60 for a band that could be part of no accepted plan, 21, 22 as a run of one step, 23, or 24 at the lowest entry
// of the rows passed: then the room is as it was. At a fault it holds zeros. Word table and name list are left as after a run.
pub fn step_band(
    source: &[u8],
    list: &[u8],
    words: &mut [u32],
    names: &mut [u32],
    sizes: &[u32],
    first: u32,
    last: u32,
    held: u32,
    rows: &[i32],
    room: &mut [i32],
    time: i64,
) -> Report
    ensures { BandLeaves flat_names (source_lent source.now list.now words.old names.old) (band_asked sizes.now first last held rows.now room.old time) result words.new names.new room.new }
{
    if !is_built_in(list) {
        return refused(Refusal::new(Reason::Buffers, 0));
    }
    let band = Band { first, last };
    band_listed(source, words, names, sizes, band, held, rows, room, time)
}
