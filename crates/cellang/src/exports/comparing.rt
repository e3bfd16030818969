// Comparing two grids.
ghost use Rattle.cellang.specs.Promises.Told.{TellsComparison};

use api_comparison::compare;
use api_entries::put_comparison;

// Lists the entries in which two grids differ, as `compare` does, and returns the reply's number. Writes number and total to `reply`.
pub fn cellang_compare(
    left: &[i32],
    right: &[i32],
    k: usize,
    room: &mut [i32],
    reply: &mut [u32],
) -> u32
    ensures { TellsComparison left.now right.now k room.old reply.old result room.new reply.new }
{
    let (number, total) = match compare(left, right, k, room) {
        Ok(total) => (0, total),
        Err(refusal) => (refusal.number(), 0),
    };
    put_comparison(reply, number, total);
    number
}
