// The room of a run under a plan: whether it is right, and how many of its rows are used.
ghost use Rattle.std.specs.Prelude.{◌≡◌, ◌+◌, ◌*◌, ◌≤◌, min, eqb};
ghost use Rattle.band_run.specs.Promises.Rooms.{FitsRoom, TriesRoom};

use band_planner::borders::Border;

// Whether a room is of as many rows as can be held, each of so many entries.
fn rows_fit(width: usize, held: u32, room: usize) -> bool
    ensures { result ≡ eqb room (held * width) }
{
    if held == 0 {
        return room == 0;
    }
    let rows = held as usize;
    if room % rows != 0 {
        return false;
    }
    room / rows == width
}

// Whether a room is of as many rows as can be held, each as wide as those of a grid of so many entries.
fn room_fits(sizes: &[u32], entries: usize, held: u32, room: usize) -> bool
    ensures { FitsRoom sizes.now entries held room result }
{
    if sizes.len() == 0 {
        return false;
    }
    let rows = sizes[0] as usize;
    if rows == 0 {
        return false;
    }
    rows_fit(entries / rows, held, room)
}

// The length of scratch as it is tried with 21: where the room is not right for a grid of so many entries, another than the grid's, so that the reply is 21 for
// the room too.
pub fn tried_length(sizes: &[u32], entries: usize, scratch: usize, held: u32, room: usize) -> usize
    ensures { TriesRoom sizes.now entries scratch held room result }
{
    if room_fits(sizes, entries, held, room) {
        return scratch;
    }
    if entries == 0 {
        return 1;
    }
    0
}

// How many rows of the room are used: as many as can be held, but no more than the grid has with its border rows.
pub fn used_rows(held: u32, rows: u32, border: Border) -> u32
    requires { rows + border.before + border.behind ≤ 12288 }
    ensures { result ≡ min held (rows + border.before + border.behind) }
{
    held.min(rows + border.before + border.behind)
}
