// The beginning of a call on rows of a grid: the source is read, the sizes are tried, and its indices are surveyed.
ghost use Rattle.std.specs.Prelude.{◌≡◌, ◌≤◌, length};
ghost use Rattle.value.specs.Limits.{most_dims};
ghost use Rattle.grammar.specs.Checking.{rooms_fit};
ghost use Rattle.band_planner.specs.Promises.Opening.{far_refused, RightSizes, OpensRows};

use crate::borders::{Border, border_rows};
use program::Rule;
use program::reply::{Reason, Refusal};
use read_source::load;
use run_admission::cells;
use run_indices::surveying::survey;

// A source that is accepted, on a grid of right sizes: its rule; the refusal of an index that is too far, if one is; the number of rows; and the border rows.
#[derive(Clone, Copy, Debug, PartialEq, Eq, Hash)]
pub struct RowsOpened {
    pub rule: Rule,
    pub far: Option<Refusal>,
    pub rows: u32,
    pub border: Border,
}

// Whether the sizes are right for so many dimensions.
fn right_sizes(sizes: &[u32], dims: u32) -> bool
    requires { dims ≤ most_dims }
    ensures { RightSizes dims sizes.now result }
{
    if sizes.len() != dims as usize {
        return false;
    }
    cells(sizes) != 0
}

// The refusal of the first index that is too far, by its place.
fn far_refusal(far: Option<u32>) -> Option<Refusal>
    ensures { result ≡ far_refused far }
{
    match far {
        Some(place) => Some(Refusal::new(Reason::LargeIndex, place)),
        None => None,
    }
}

// Reads a source for a call on rows of a grid of given sizes. The list of the predefined names is not looked at.
pub fn open_rows(
    source: &[u8],
    words: &mut [u32],
    names: &mut [u32],
    sizes: &[u32],
) -> Result<RowsOpened, Refusal>
    ensures { OpensRows (rooms_fit (length words.old) (length names.old)) source.now words.old names.old sizes.now result words.new names.new }
{
    let rule = load(source, words, names)?;
    if !right_sizes(sizes, rule.dims) {
        return Err(Refusal::new(Reason::Shape, 0));
    }
    let indices = survey(words, rule, sizes);
    Ok(RowsOpened {
        rule,
        far: far_refusal(indices.far),
        rows: sizes[0],
        border: border_rows(indices.reach),
    })
}
