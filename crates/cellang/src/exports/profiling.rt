// Whether a source moves a pixel once.
ghost use Rattle.move_meaning.specs.Profile.{one_move};
ghost use Rattle.run_calls.specs.Calls.{flat_names, source_lent, source_left};
ghost use Rattle.cellang.specs.Promises.Told.{TellsSource, profile_entries};

use api_entries::put_profile;
use move_profile::{Profile, check_one_move};

// Whether a source moves a pixel once: returns the number of the first rule of the profile that it misses, 0 for none. `reply` gets that rule, and number
// and place of the reply where the source is refused.
pub fn cellang_check_one_move(
    source: &[u8],
    list: &[u8],
    words: &mut [u32],
    names: &mut [u32],
    reply: &mut [u32],
) -> u32
    ensures { TellsSource (source_left flat_names (source_lent source.now list.now words.old names.old) one_move) profile_entries reply.old result words.new names.new reply.new }
{
    let told = Profile::from(check_one_move(source, list, words, names));
    put_profile(reply, told.rule, told.number, told.place);
    told.rule
}
