// Comparing two grids.
ghost use Rattle.cellang.specs.Promises.Told.{TellsComparison};

// Lists the entries in which two grids differ, as `compare` does, and returns the reply's number. Writes number and total to `reply`.
#[unsafe(no_mangle)]
pub extern "C" fn cellang_compare(
    left: &[i32],
    right: &[i32],
    k: usize,
    room: &mut [i32],
    reply: &mut [u32],
) -> u32
    ensures { TellsComparison left.now right.now k room.old reply.old result room.new reply.new }
{
    cellang::cellang_compare(left, right, k, room, reply)
}
