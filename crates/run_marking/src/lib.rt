#![tactic(auto)]

// Marks of the open cells, from the cells that changed.
ghost use Rattle.std.specs.Prelude.{◌≡◌, ◌*◌, ◌<◌, ◌≤◌, length};
ghost use Rattle.value.specs.Limits.{most_fields};
ghost use Rattle.automaton.specs.Shape.{product};
ghost use Rattle.run_marking.specs.Promises.Opened.{Markable, MarksReady, Marks, MarksChanged};
ghost use Rattle.run_marking.specs.Promises.Noting.{note_all, cells_by, opened_by, Prepared, Led, NotedCounts};

use crate::marks::{differs, halve, next_odd};
use crate::opening::{counts_of, open_from};
use run_marked_cells::rooms::flag_marks;
use run_meaning::Bounds;
use value::limits::MOST_DIMS;

pub mod marks;
mod opening;
pub mod ways;

// Notes the cells that the cell c opens: none, if it did not change.
fn open_changed(
    sizes: &[u32],
    bounds: Bounds,
    counts: &[usize; MOST_DIMS],
    steps: &[u32],
    listed: usize,
    fields: usize,
    old: &[i32],
    grid: &[i32],
    c: usize,
    marks: &mut [u8],
)
    requires { Prepared sizes.now bounds × NotedCounts sizes.now bounds counts.now × Led sizes.now steps.now listed × (fields ≤ most_fields) × (length old.now ≡ product sizes.now * fields) × (length grid.now ≡ product sizes.now * fields) × (length marks.old ≡ product sizes.now) × (c < product sizes.now) }
    ensures { marks.new ≡ note_all (opened_by (cells_by sizes.now bounds steps.now listed) fields old.now grid.now c) marks.old }
{
    if differs(old, grid, fields, c) {
        open_from(sizes, bounds, counts, steps, listed, c, marks);
    }
}

// After a step without a fault: marks the cells that are open in the next one, and no others.
// `old` holds the fields before the step, `grid` those after it; `listed` says whether by the box or by so many steps back.
pub fn mark_open(
    sizes: &[u32],
    bounds: Bounds,
    steps: &[u32],
    listed: usize,
    fields: usize,
    old: &[i32],
    grid: &[i32],
    marks: &mut [u8],
)
    requires { MarksReady sizes.now bounds steps.now listed fields old.now grid.now marks.old }
    ensures { Marks sizes.now bounds steps.now listed fields old.now grid.now marks.new }
{
    let counts = counts_of(sizes, bounds);
    // Kept: a walk from one marked cell to the next, no index.
    let n = marks.len();
    let mut c = next_odd(marks, 0);
    while c < n {
        open_changed(
            sizes, bounds, &counts, steps, listed, fields, old, grid, c, marks,
        );
        c = next_odd(marks, c + 1);
    }
    halve(marks);
}

// After a block was set: marks, beside the cells that are marked already, those that have a cell in their reach that the block changed.
// `old` holds the fields before the block, `grid` those after it.
pub fn mark_changed(
    sizes: &[u32],
    bounds: Bounds,
    steps: &[u32],
    listed: usize,
    fields: usize,
    old: &[i32],
    grid: &[i32],
    marks: &mut [u8],
)
    requires { Markable sizes.now bounds steps.now listed fields old.now grid.now marks.old }
    ensures { MarksChanged sizes.now bounds steps.now listed fields old.now grid.now marks.old marks.new }
{
    let counts = counts_of(sizes, bounds);
    for c in 0..marks.len() {
        open_changed(
            sizes, bounds, &counts, steps, listed, fields, old, grid, c, marks,
        );
    }
    flag_marks(marks);
}
