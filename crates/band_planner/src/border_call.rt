// The call that returns the border rows.
ghost use Rattle.std.specs.Prelude.{length};
ghost use Rattle.grammar.specs.Checking.{rooms_fit};
ghost use Rattle.run_calls.specs.Calls.{flat_names, source_lent};
ghost use Rattle.band_planner.specs.Promises.BorderCall.{BordersSource, BordersLeaves};

use crate::borders::Border;
use crate::opening::open_rows;
use program::reply::{Reason, Refusal};
use spelling::is_built_in;

// The border rows, where the built-in list is the one there is.
fn borders_listed(
    source: &[u8],
    words: &mut [u32],
    names: &mut [u32],
    sizes: &[u32],
) -> Result<Border, Refusal>
    ensures { BordersSource (rooms_fit (length words.old) (length names.old)) source.now sizes.now words.old names.old result words.new names.new }
{
    let opened = open_rows(source, words, names, sizes)?;
    if let Some(refusal) = opened.far {
        return Err(refusal);
    }
    Ok(opened.border)
}

// How many border rows a band has before and behind it, for a source on a grid of given sizes: with them its rows are passed to one band's call. Refused
// with the source's reply, 20, or 23. Word table and name list are left as after a run.
pub fn borders_of(
    source: &[u8],
    list: &[u8],
    words: &mut [u32],
    names: &mut [u32],
    sizes: &[u32],
) -> Result<Border, Refusal>
    ensures { BordersLeaves flat_names (source_lent source.now list.now words.old names.old) sizes.now result words.new names.new }
{
    if !is_built_in(list) {
        return Err(Refusal::new(Reason::Buffers, 0));
    }
    borders_listed(source, words, names, sizes)
}
