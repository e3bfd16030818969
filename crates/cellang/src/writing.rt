// The writer of value lists.
ghost use Rattle.run_calls.specs.Calls.{source_lent};
ghost use Rattle.list_writer.specs.WriterCalls.{wanted, writer_left, wrote_of};
ghost use Rattle.cellang.specs.Promises.Rows.{LeavesRows};
ghost use Rattle.cellang.specs.Left.{row_names};

use crate::rows::{row_fits, store_row};
use api_records::Name;
use program::reply::{Reason, Refusal};
use value::limits::NAME_WORDS;

// Writes the list that leads from the grid at the last block, `earlier`, to the grid now, `later`, at a time: the text at the front of the room, which
// keeps its rest. Returns the text's length. After a refusal the room is as it was; `Reason::ShortRoom`: it is shorter than the text. Table and records are
// left as after a run.
pub fn write_list(
    source: &[u8],
    list: &[u8],
    words: &mut [u32],
    names: &mut [Name],
    sizes: &[u32],
    earlier: &[i32],
    later: &[i32],
    time: i64,
    room: &mut [u8],
) -> Result<u64, Refusal>
    ensures { LeavesRows (writer_left row_names (source_lent source.now list.now words.old names.old) (wanted sizes.now earlier.now later.now time) room.old) (wrote_of result room.new) words.new names.new }
{
    if !row_fits(list, names.len()) {
        return Err(Refusal::new(Reason::Buffers, 0));
    }
    let table = words.len();
    let mut flat = [0; NAME_WORDS];
    let written = list_writer::write_list(
        source, list, words, &mut flat, sizes, earlier, later, time, room,
    );
    store_row(names, &flat, source.len(), table);
    written
}
