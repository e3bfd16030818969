// The border rows of a reach: its lowest and highest index in the first dimension.
ghost use Rattle.std.specs.Prelude.{◌≡◌, ◌≤◌};
ghost use Rattle.value.specs.Limits.{most_places};
ghost use Rattle.automaton.specs.Bands.{rows_with};
ghost use Rattle.band_planner.specs.Promises.Borders.{border_of, WidensBorder, ListedBorder, BordersOf};
ghost use Rattle.band_planner.specs.Promises.Plans.{band_told};

use crate::plans::Band;
use run_meaning::Reach;
use value::limits::{MOST_DIMS, MOST_PLACES, PLACES_LISTED};

// How many border rows a band has before and behind it.
#[derive(Clone, Copy, Debug, PartialEq, Eq, Hash)]
pub struct Border {
    pub before: u32,
    pub behind: u32,
}

impl Border {
    // How many rows a band has with its border rows.
    pub fn rows_with(self, band: Band) -> u64
        requires { band.first ≤ band.last }
        ensures { result ≡ rows_with (border_of self) (band_told band) }
    {
        self.before as u64 + band.rows() + self.behind as u64
    }

    // The border rows that have one index more, by its word.
    fn widened(self, word: u32) -> Border
        ensures { WidensBorder self word result }
    {
        let mut r = self;
        if word < 2147483648 {
            r.behind = r.behind.max(word);
        } else {
            r.before = r.before.max(4294967295 - word + 1);
        }
        r
    }
}

// The border rows of so many places of a list.
fn listed_border(places: &[[u32; MOST_DIMS]; MOST_PLACES], count: usize) -> Border
    requires { count ≤ most_places }
    ensures { ListedBorder places.now count result }
{
    let mut r = Border {
        before: 0,
        behind: 0,
    };
    for k in 0..count {
        r = r.widened(places[k][0]);
    }
    r
}

// The border rows of a reach: those of its places; of the box, where there are too many.
pub fn border_rows(reach: Reach) -> Border
    ensures { BordersOf reach result }
{
    if PLACES_LISTED < reach.count {
        let bound = reach.bounds.dims[0];
        return Border {
            before: bound.back,
            behind: bound.ahead,
        };
    }
    listed_border(&reach.places, reach.count as usize)
}
