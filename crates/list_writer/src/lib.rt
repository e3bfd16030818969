#![tactic(auto)]

// The writer of value lists: the list that leads from one grid to another at a time.
ghost use Rattle.std.specs.Prelude.{◌≡◌, ◌<◌, length};
ghost use Rattle.grammar.specs.Checking.{rooms_fit};
ghost use Rattle.run_calls.specs.Calls.{flat_names, source_lent};
ghost use Rattle.program.specs.Promises.Fitting.{Sized};
ghost use Rattle.list_meaning.specs.Writing.{put_text};
ghost use Rattle.list_writer.specs.WriterCalls.{wanted, wrote_of};
ghost use Rattle.list_writer.specs.Promises.Lines.{Leads, change_text};
ghost use Rattle.list_writer.specs.Promises.Writing.{WritesLoaded, WritesSource, WriterLeaves};

mod admitting;
mod lines;
mod printing;

use admitting::{admit_both, cell_count};
use lines::{Change, put_list, text_length};
use move_profile::flag_of;
use program::Rule;
use program::reply::{Reason, Refusal};
use read_source::load;
use spelling::is_built_in;

// Puts the text into a room that is long enough, and returns its length.
fn write_text(change: &Change<'_>, room: &mut [u8]) -> Result<u64, Refusal>
    requires { Leads change.now }
    ensures { wrote_of result room.new ≡ put_text (change_text change.now) room.old }
{
    let length = text_length(change);
    if room.len() < length {
        return Err(Refusal::new(Reason::ShortRoom, 0));
    }
    put_list(room, change);
    Ok(length as u64)
}

// Checks the grids, and writes the text. `flag` is the number of the field that serves as flag, or the number of fields for none.
fn write_loaded(
    words: &[u32],
    rule: Rule,
    flag: u32,
    sizes: &[u32],
    earlier: &[i32],
    later: &[i32],
    time: i64,
    room: &mut [u8],
) -> Result<u64, Refusal>
    requires { (Sized (length words.now) rule) × (0 < rule.fields) }
    ensures { WritesLoaded words.now rule flag (wanted sizes.now earlier.now later.now time) room.old result room.new }
{
    let cells = cell_count(sizes);
    admit_both(words, rule, sizes, earlier, later, cells, time)?;
    let change = Change {
        sizes,
        fields: rule.fields as usize,
        flag: flag as usize,
        earlier,
        later,
        cells,
        time: time as u32,
    };
    write_text(&change, room)
}

// Reads the source first, where the built-in list is the one there is.
fn write_listed(
    source: &[u8],
    words: &mut [u32],
    names: &mut [u32],
    sizes: &[u32],
    earlier: &[i32],
    later: &[i32],
    time: i64,
    room: &mut [u8],
) -> Result<u64, Refusal>
    ensures { WritesSource (rooms_fit (length words.old) (length names.old)) source.now (wanted sizes.now earlier.now later.now time) words.old names.old room.old result words.new names.new room.new }
{
    let rule = load(source, words, names)?;
    let flag = flag_of(source, words, names, rule);
    write_loaded(words, rule, flag, sizes, earlier, later, time, room)
}

// Writes the list that leads from the grid at the last block, `earlier`, to the grid now, `later`, at a time: the text at the front of the room, which
// keeps its rest. Returns the text's length. For a source that moves a pixel once, a flag that is 0 is left missing. After a refusal the room is as it was;
// `Reason::ShortRoom`: it is shorter than the text. Word table and name list are left as after a run.
// Kept: the arguments stand one by one, as docs/CALLS.md has this call and as C passes them.
pub fn write_list(
    source: &[u8],
    list: &[u8],
    words: &mut [u32],
    names: &mut [u32],
    sizes: &[u32],
    earlier: &[i32],
    later: &[i32],
    time: i64,
    room: &mut [u8],
) -> Result<u64, Refusal>
    ensures { WriterLeaves flat_names (source_lent source.now list.now words.old names.old) (wanted sizes.now earlier.now later.now time) room.old result words.new names.new room.new }
{
    if !is_built_in(list) {
        return Err(Refusal::new(Reason::Buffers, 0));
    }
    write_listed(source, words, names, sizes, earlier, later, time, room)
}
