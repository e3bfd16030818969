// The rows that a band is passed, copied from a grid.
ghost use Rattle.std.specs.Prelude.{◌≡◌, ◌∷◌, ◌+◌, ◌%◌, ◌<◌, ◌≤◌, length, take, drop};
ghost use Rattle.value.specs.Limits.{most_dims};
ghost use Rattle.band_step.specs.Promises.Lending.{RowFits, copied, Lending, with_rows};

use run_marked_cells::rooms::copy_numbers;
use run_meaning::next_coordinate;
use value::limits::MOST_DIMS;

// Copies so many entries of a grid from a position on into a room.
fn copy_row(grid: &[i32], from: usize, room: &mut [i32], to: usize, width: usize)
    requires { RowFits (length grid.now) (length room.old) from to width }
    ensures { room.new ≡ copied grid.now room.old from to width }
{
    copy_numbers(&grid[from..from + width], &mut room[to..to + width]);
}

// Copies so many rows of a grid, from `before` rows before a row on, to the front of a room. They wrap at the edges, and may repeat. `row` is
// the number of cells of a row.
pub fn fill_room(
    sizes: &[u32],
    row: usize,
    fields: usize,
    grid: &[i32],
    first: usize,
    before: usize,
    count: usize,
    room: &mut [i32],
)
    requires { Lending sizes.now row fields (length grid.now) first before count (length room.old) }
    ensures { room.new ≡ with_rows sizes.now fields first before count grid.now room.old }
{
    let rows = sizes[0] as usize;
    let width = row * fields;
    let mut from = (first + rows - before) % rows;
    for k in 0..count {
        copy_row(grid, from * width, room, k * width, width);
        let next = next_coordinate(from, rows);
        from = next;
    }
}

// The sizes of a room of so many rows, as wide as a grid of given sizes. Those past its dimensions are 1.
pub fn room_shape(sizes: &[u32], rows: u32) -> [u32; MOST_DIMS]
    requires { (0 < length sizes.now) × (length sizes.now ≤ most_dims) }
    ensures { take (length sizes.now) result ≡ rows ∷ drop 1 sizes.now }
{
    if sizes.len() == 1 {
        return [rows, 1, 1];
    }
    if sizes.len() == 2 {
        return [rows, sizes[1], 1];
    }
    [rows, sizes[1], sizes[2]]
}
