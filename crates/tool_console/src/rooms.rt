// The rooms that a run is passed, and how large they are.
ghost use Rattle.std.specs.Prelude.{◌≡◌, length};

// How many entries, and how many cells, a grid may have here: as many entries as 512 x 512 cells with three fields have.
pub const ROOM: usize = 786432;

// Scratch, by way of which a time and a mark for each cell are read.
pub const SCRATCH: usize = 786433;

// A value list: as much as the stack has beside the other rooms.
pub const LIST: usize = 524288;

// A text that is written when scratch and marks are free again.
pub const TEXT: usize = 3145728;

// The rows of a band with its border rows: as much as the stack has beside the other rooms.
pub const ROWS: usize = 32768;

// A plan: two entries for each row, of which a grid has 4096 at most.
pub const PLAN: usize = 8192;

// A room that is filled with a value.
// Kept: the rooms are arrays on the stack. On the heap a run could be refused for want of memory on an input that it takes now.
pub fn room<T: Copy, const N: usize>(value: T) -> [T; N]
    ensures { N ≡ length result }
{
    [value; N]
}
