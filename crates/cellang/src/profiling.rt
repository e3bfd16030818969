// Whether a source moves a pixel once.
ghost use Rattle.move_meaning.specs.Profile.{one_move};
ghost use Rattle.move_profile.specs.Promises.Public.{answer_told};
ghost use Rattle.run_calls.specs.Calls.{source_lent, source_left};
ghost use Rattle.cellang.specs.Left.{row_names};
ghost use Rattle.cellang.specs.Promises.Rows.{LeavesRows};

use crate::rows::{row_fits, store_row};
use api_records::Name;
use move_profile::Missed;
use program::reply::{Reason, Refusal};
use value::limits::NAME_WORDS;

// Whether a source moves a pixel once; else the first rule of the profile that it misses. The table and the row of records are left as a check leaves them.
pub fn check_one_move(
    source: &[u8],
    list: &[u8],
    words: &mut [u32],
    names: &mut [Name],
) -> Result<(), Missed>
    ensures { LeavesRows (source_left row_names (source_lent source.now list.now words.old names.old) one_move) (answer_told result) words.new names.new }
{
    if !row_fits(list, names.len()) {
        return Err(Missed::Refused(Refusal::new(Reason::Buffers, 0)));
    }
    let table = words.len();
    let mut flat = [0; NAME_WORDS];
    let answer = move_profile::check_one_move(source, list, words, &mut flat);
    store_row(names, &flat, source.len(), table);
    answer
}
