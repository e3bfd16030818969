// Checking a source.
ghost use Rattle.grammar.specs.Checking.{check};
ghost use Rattle.run_calls.specs.Calls.{flat_names, source_lent, source_left};
ghost use Rattle.cellang.specs.Promises.Told.{TellsSource, reply_entries};

use crate::exports::telling::tell_reply;
use read_source::check;

// Checks a source, and returns the reply's number. `reply` gets number and place, and the spelling: where it
// is, its first byte and its length.
pub fn cellang_check(
    source: &[u8],
    list: &[u8],
    words: &mut [u32],
    names: &mut [u32],
    reply: &mut [u32],
) -> u32
    ensures { TellsSource (source_left flat_names (source_lent source.now list.now words.old names.old) check) (λ c. reply_entries source.now c.number c.place) reply.old result words.new names.new reply.new }
{
    let told = check(source, list, words, names);
    tell_reply(source, told.number, told.place, reply)
}
