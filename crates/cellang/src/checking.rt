// A source checked.
ghost use Rattle.program.specs.Refusal.{refusal};
ghost use Rattle.grammar.specs.Checking.{check};
ghost use Rattle.run_calls.specs.Calls.{source_lent, source_left};
ghost use Rattle.cellang.specs.Left.{row_names};
ghost use Rattle.cellang.specs.Promises.Rows.{LeavesRows};

use crate::rows::{row_fits, store_row};
use api_records::Name;
use program::reply::Reason;
use read_source::Reply;
use value::limits::NAME_WORDS;

// Checks a source: the number and place of the reply. The table and the row of records are left as reading leaves them.
pub fn check(source: &[u8], list: &[u8], words: &mut [u32], names: &mut [Name]) -> Reply
    ensures { LeavesRows (source_left row_names (source_lent source.now list.now words.old names.old) check) (refusal result.number result.place) words.new names.new }
{
    if !row_fits(list, names.len()) {
        return Reply {
            number: Reason::Buffers.number(),
            place: 0,
        };
    }
    let table = words.len();
    let mut flat = [0; NAME_WORDS];
    let reply = read_source::check(source, list, words, &mut flat);
    store_row(names, &flat, source.len(), table);
    reply
}
