// Plans by their numbers: whether one is accepted, and the planner's.
ghost use Rattle.std.specs.Prelude.{◌≡◌, ◌+◌, ◌*◌, ◌<◌, ◌≤◌, length};
ghost use Rattle.automaton.specs.Bands.{rows_in};
ghost use Rattle.band_meaning.specs.Plans.{plan_right};
ghost use Rattle.band_planner.specs.Promises.Borders.{border_of};
ghost use Rattle.band_planner.specs.Promises.Plans.{band_told, band_runs, PutsBand, WritesPlan};

use crate::borders::Border;

// A band: its first and its last row.
#[derive(Clone, Copy, Debug, PartialEq, Eq, Hash)]
pub struct Band {
    pub first: u32,
    pub last: u32,
}

impl Band {
    // How many rows the band has.
    pub fn rows(self) -> u64
        requires { self.first ≤ self.last }
        ensures { result ≡ rows_in (band_told self) }
    {
        (self.last - self.first) as u64 + 1
    }
}

// Whether a band begins at a row, is not empty, and can be held with its border rows.
fn band_fits(band: Band, from: u64, border: Border, held: u32) -> bool
    ensures { result ≡ band_runs (band_told band) from (border_of border) held }
{
    if band.first as u64 != from {
        return false;
    }
    if band.last < band.first {
        return false;
    }
    border.rows_with(band) <= held as u64
}

// Whether a plan for so many rows, two entries a band, is accepted, with these border rows, where so many rows can be held.
pub fn plan_accepted(plan: &[u32], rows: u32, border: Border, held: u32) -> bool
    ensures { result ≡ plan_right rows (border_of border) held plan.now }
{
    let mut from: u64 = 0;
    for k in 0..plan.len() / 2 {
        let band = Band {
            first: plan[2 * k],
            last: plan[2 * k + 1],
        };
        if !band_fits(band, from, border, held) {
            return false;
        }
        from = band.last as u64 + 1;
    }
    if plan.len() % 2 != 0 {
        return false;
    }
    from == rows as u64
}

// Puts band k into a room.
fn put_band(bands: &mut [u32], k: u32, band: Band)
    requires { 2 * k + 2 ≤ length bands.old }
    ensures { PutsBand bands.old k (band_told band) bands.new }
{
    let at = 2 * (k as usize);
    bands[at] = band.first;
    bands[at + 1] = band.last;
}

// Writes the plan for so many rows whose bands have `most` rows each, but for the last one; returns how many bands it has.
pub fn write_plan(rows: u32, most: u32, bands: &mut [u32]) -> u32
    requires { (0 < most) × (2 * rows ≤ length bands.old) }
    ensures { WritesPlan rows most bands.old result bands.new }
{
    let mut count: u32 = 0;
    let mut from: u32 = 0;
    // Kept: the row is no index that is counted: it goes on by the rows of a band, and the bands are counted beside it.
    while from < rows {
        let end = from + most.min(rows - from);
        let band = Band {
            first: from,
            last: end - 1,
        };
        put_band(bands, count, band);
        count += 1;
        from = end;
    }
    count
}
