// The row counts of a grid: filled from the whole grid, and moved by the marked cells of a step.
ghost use Rattle.std.specs.Prelude.{◌≡◌, ◌+◌, ◌-◌, ◌/◌, ◌<◌, length, get_or, set};
ghost use Rattle.automaton.specs.Step.{how_many};
ghost use Rattle.automaton.specs.Rows.{has_zero, row_counts};
ghost use Rattle.run_row_counts.specs.Promises.Counting.{row_size, zero_bit, Divisible, RowCountable, Countable, CellCountable, NotBefore, Movable};

use crate::skipping::far_marked;

// How many cells a row has.
fn row_cells(sizes: &[u32], cells: usize) -> usize
    requires { Divisible sizes.now cells }
    ensures { result ≡ row_size sizes.now }
{
    cells / sizes[0] as usize
}

// 1 for an entry that is 0, else 0.
fn zero_at(grid: &[i32], at: usize) -> u32
    requires { at < length grid.now }
    ensures { result ≡ zero_bit grid.now at }
{
    u32::from(grid[at] == 0)
}

// How many of the cells of a row, whose first cell is `from`, have 0 in the field.
#[tactic(auto, using(crate::proofs::CountLaws::none_counted, crate::proofs::CountLaws::one_counted, crate::proofs::CountLaws::counted_few, crate::proofs::CountLaws::zero_few))]
fn count_row(grid: &[i32], from: usize, cells: usize, fields: usize, field: usize) -> u32
    requires { RowCountable (length grid.now) from cells fields field }
    ensures { result ≡ how_many (λ j. has_zero fields field grid.now (from + j)) cells }
{
    let mut count: u32 = 0;
    for cell in from..from + cells {
        count += zero_at(grid, cell * fields + field);
    }
    count
}

// Fills the row counts from a grid.
pub fn fill_counts(sizes: &[u32], fields: usize, field: usize, grid: &[i32], counts: &mut [u32])
    requires { Countable sizes.now fields field (length grid.now) (length counts.old) }
    ensures { counts.new ≡ row_counts sizes.now fields field grid.now }
{
    let cells = row_cells(sizes, grid.len() / fields);
    for (row, count) in counts.iter_mut().enumerate() {
        *count = count_row(grid, row * cells, cells, fields, field);
    }
}

// Moves the count of a row by one cell, whose entry is at a position: 1 is added if the new entry is 0, and 1 taken off if the old
// one is. The sum comes first, so that nothing falls below 0.
fn count_cell(old: &[i32], grid: &[i32], at: usize, row: usize, counts: &mut [u32])
    requires { CellCountable old.now grid.now at row counts.old }
    ensures { counts.new ≡ set counts.old row (get_or counts.old row 0 + zero_bit grid.now at - zero_bit old.now at) }
{
    let gained = zero_at(grid, at);
    let lost = zero_at(old, at);
    counts[row] = counts[row] + gained - lost;
}

// The row of a cell that is not before a row's first one. It is divided only past that row's end.
fn row_from(row: usize, cells: usize, cell: usize) -> usize
    requires { NotBefore row cells cell }
    ensures { result ≡ cell / cells }
{
    if cell < row * cells + cells {
        return row;
    }
    cell / cells
}

// Moves the row counts from the grid before a step to the grid after it, by the marked cells alone. `old` has their old fields.
pub fn move_counts(
    marks: &[u8],
    sizes: &[u32],
    fields: usize,
    field: usize,
    old: &[i32],
    grid: &[i32],
    counts: &mut [u32],
)
    requires { Movable marks.now sizes.now fields field old.now grid.now counts.old }
    ensures { counts.new ≡ row_counts sizes.now fields field grid.now }
{
    let cells = row_cells(sizes, marks.len());
    // Kept: a walk from one marked cell to the next, no index.
    let mut row: usize = 0;
    let mut cell = far_marked(marks, 0);
    while cell < marks.len() {
        row = row_from(row, cells, cell);
        count_cell(old, grid, cell * fields + field, row, counts);
        cell = far_marked(marks, cell + 1);
    }
}
