// Writing a value list.
ghost use Rattle.run_calls.specs.Calls.{flat_names, source_lent};
ghost use Rattle.list_meaning.specs.Writing.{Wrote};
ghost use Rattle.list_writer.specs.WriterCalls.{wanted, writer_left};
ghost use Rattle.cellang.specs.Promises.Told.{TellsRoom, written_entries};

use crate::exports::telling::reply_of;
use api_entries::put_written;
use list_writer::write_list;
use spelling::told_part;

// Writes the list that leads from the earlier grid to the later at a time, and returns the reply's number.
// `reply` gets number, place and the text's length, and the spelling: where it is, its first byte and its length.
pub fn cellang_write_list(
    source: &[u8],
    list: &[u8],
    words: &mut [u32],
    names: &mut [u32],
    sizes: &[u32],
    earlier: &[i32],
    later: &[i32],
    time: i64,
    room: &mut [u8],
    reply: &mut [u64],
) -> u32
    ensures { TellsRoom (writer_left flat_names (source_lent source.now list.now words.old names.old) (wanted sizes.now earlier.now later.now time) room.old) (written_entries source.now) (λ (w : Wrote). w.room) reply.old result words.new names.new room.new reply.new }
{
    let told = write_list(
        source, list, words, names, sizes, earlier, later, time, room,
    );
    let refusal = reply_of(told);
    let part = told_part(source, refusal.number, refusal.place);
    put_written(
        reply,
        refusal.number,
        refusal.place,
        told.unwrap_or(0),
        part.stands,
        part.start,
        part.len,
    );
    refusal.number
}
