// Whether a band's call is admitted: replies 60, 21 and 22.
ghost use Rattle.std.specs.Prelude.{◌≡◌, ◌≤◌, length};
ghost use Rattle.value.specs.Limits.{most_cells, most_fields};
ghost use Rattle.run_admission.specs.Promises.Admitting.{number_told};
ghost use Rattle.band_planner.specs.Promises.Borders.{border_of};
ghost use Rattle.band_planner.specs.Promises.Plans.{band_told};
ghost use Rattle.band_call.specs.BandCall.{row_cells, band_right, band_rooms};
ghost use Rattle.band_call.specs.Promises.Asking.{RowsDivide, RefusesBand};

use band_planner::borders::Border;
use band_planner::plans::Band;
use program::reply::Reason;
use run_admission::{cells, good_times};

// How many cells a row has.
pub fn row_cells(sizes: &[u32]) -> usize
    requires { RowsDivide sizes.now }
    ensures { result ≡ row_cells sizes.now }
{
    cells(sizes) as usize / sizes[0] as usize
}

// Whether a band could be part of an accepted plan for so many rows.
fn band_right(rows: u32, border: Border, held: u32, band: Band) -> bool
    ensures { result ≡ band_right rows (border_of border) held (band_told band) }
{
    if band.last < band.first {
        return false;
    }
    if rows <= band.last {
        return false;
    }
    border.rows_with(band) <= held as u64
}

// Whether so many entries are the band's rows with borders, and its own rows.
fn rooms_right(
    row: usize,
    fields: u32,
    border: Border,
    band: Band,
    rows: usize,
    room: usize,
) -> bool
    requires { (row ≤ most_cells) × (fields ≤ most_fields) × (band.first ≤ band.last) }
    ensures { result ≡ band_rooms row fields rows room (border_of border) (band_told band) }
{
    if rows as u64 != border.rows_with(band) * row as u64 * fields as u64 {
        return false;
    }
    room as u64 == band.rows() * row as u64 * fields as u64
}

// The first of 60, 21 and 22 that holds, for a grid of so many rows with `row` cells each. `lent` and `room` are the lengths of the rows passed and of the
// room.
pub fn refused_band(
    rows: u32,
    row: usize,
    fields: u32,
    border: Border,
    held: u32,
    band: Band,
    lent: usize,
    room: usize,
    time: i64,
) -> Result<(), Reason>
    requires { (row ≤ most_cells) × (fields ≤ most_fields) }
    ensures { RefusesBand rows row fields (border_of border) held (band_told band) lent room time (number_told result) }
{
    if !band_right(rows, border, held, band) {
        return Err(Reason::WrongPlan);
    }
    if !rooms_right(row, fields, border, band, lent, room) {
        return Err(Reason::GridLength);
    }
    if !good_times(time, 1) {
        return Err(Reason::Times);
    }
    Ok(())
}
