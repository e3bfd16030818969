// The cells that a changed cell opens.
ghost use Rattle.std.specs.Prelude.{◌≡◌, suc, ◌+◌, ◌-◌, ◌*◌, ◌%◌, ◌<◌, ◌≤◌, min, length, get_or};
ghost use Rattle.value.specs.Limits.{most_dims, most_cells};
ghost use Rattle.automaton.specs.Shape.{product};
ghost use Rattle.automaton.specs.Promises.ShapeLaws.{Positive};
ghost use Rattle.run_meaning.specs.Promises.Fitting.{bound_at};
ghost use Rattle.run_place_marks.specs.Promises.Placing.{StepCoordinates};
ghost use Rattle.run_marking.specs.Promises.Noting.{note_all, noted_rows, noted_line, noted_lines, box_cells, cells_opened, cells_back, cells_by, Boxed, Prepared, Led, CountsWithin, NotedBelow, Firsts, NotedCounts};

use run_marked_cells::points::set_point;
use run_meaning::{Bounds, next_coordinate, wrap_sum};
use run_place_marks::note_steps;
use value::limits::MOST_DIMS;

// The number of coordinates that a change opens in a dimension of n coordinates: no more than these.
fn clipped(n: usize, back: usize, ahead: usize) -> usize
    requires { (back ≤ n) × (ahead ≤ n) × (n ≤ most_cells) }
    ensures { result ≡ min n (suc (back + ahead)) }
{
    n.min(back + ahead + 1)
}

// For each dimension, the number of coordinates that a change opens.
pub fn counts_of(sizes: &[u32], bounds: Bounds) -> [usize; MOST_DIMS]
    requires { Prepared sizes.now bounds }
    ensures { NotedCounts sizes.now bounds result }
{
    let mut counts = [0; MOST_DIMS];
    for k in 0..sizes.len() {
        let bound = bounds.dims[k];
        counts[k] = clipped(sizes[k] as usize, bound.back as usize, bound.ahead as usize);
    }
    counts
}

// The coordinates of the cell x.
fn coordinates_of(sizes: &[u32], x: usize) -> [u32; MOST_DIMS]
    requires { (length sizes.now ≤ most_dims) × Positive sizes.now × (product sizes.now ≤ most_cells) × (x < product sizes.now) }
    ensures { StepCoordinates sizes.now x result }
{
    let mut at = [0; MOST_DIMS];
    set_point(sizes, x as u32, &mut at[..sizes.len()]);
    at
}

// For each dimension, the first coordinate that a change at given coordinates opens.
fn firsts_of(sizes: &[u32], bounds: Bounds, at: &[u32; MOST_DIMS]) -> [usize; MOST_DIMS]
    requires { Prepared sizes.now bounds × NotedBelow sizes.now at.now }
    ensures { Firsts sizes.now bounds at.now result }
{
    let mut firsts = [0; MOST_DIMS];
    for k in 0..sizes.len() {
        let n = sizes[k] as usize;
        firsts[k] = wrap_sum(at[k] as usize, n - bounds.dims[k].ahead as usize, n);
    }
    firsts
}

// Notes the cells base + j for the coordinates j from a first one on, as many as `count`, wrapped in a dimension of n coordinates.
fn note_line(base: usize, n: usize, first: usize, count: usize, marks: &mut [u8])
    requires { (first < n) × (count ≤ n) × (base + n ≤ length marks.old) × (length marks.old ≤ most_cells) }
    ensures { marks.new ≡ note_all (noted_rows (noted_line base n first) count) marks.old }
{
    // Kept: this loop was tried in other forms, on a million lines of three cells: as it is 2.28 ms, by a `for` 3.24 ms, by a `for` with each
    // coordinate from the first one 2.92 ms, with `wrap_sum` for the next coordinate 2.40 ms.
    let mut j = first;
    let mut e = 0;
    while e < count {
        let c = base + j;
        marks[c] = marks[c] % 2 + 2;
        j = next_coordinate(j, n);
        e += 1;
    }
}

// Notes a line in the last dimension, of m coordinates, for each coordinate j of the one before it, of n: those from a first one on, as many as
// `count`, wrapped. `base` is the number of the coordinates of the dimensions before; the lines begin at `start` and are of `width` cells.
fn note_lines(
    base: usize,
    n: usize,
    first: usize,
    count: usize,
    m: usize,
    start: usize,
    width: usize,
    marks: &mut [u8],
)
    requires { (first < n) × (count ≤ n) × (start < m) × (width ≤ m) × ((base + 1) * (n * m) ≤ length marks.old) × (length marks.old ≤ most_cells) }
    ensures { marks.new ≡ note_all (noted_rows (noted_lines base n first m start width) count) marks.old }
{
    for e in 0..count {
        let j = wrap_sum(first, e, n);
        note_line((base * n + j) * m, m, start, width, marks);
    }
}

// Notes the cells of a box: in each dimension the coordinates from a first one on, as many as a count, wrapped.
// `base` is the number of the coordinates of the dimensions before.
fn note_box(sizes: &[u32], firsts: &[usize], counts: &[usize], base: usize, marks: &mut [u8])
    requires { Boxed sizes.now firsts.now counts.now base (length marks.old) × CountsWithin sizes.now counts.now }
    ensures { marks.new ≡ note_all (box_cells sizes.now (λ k. get_or firsts.now k 0) (λ k. get_or counts.now k 0) base) marks.old }
{
    let n = sizes[0] as usize;
    if sizes.len() == 1 {
        note_line(base * n, n, firsts[0], counts[0], marks);
        return;
    }
    if sizes.len() == 2 {
        note_lines(
            base,
            n,
            firsts[0],
            counts[0],
            sizes[1] as usize,
            firsts[1],
            counts[1],
            marks,
        );
        return;
    }
    for e in 0..counts[0] {
        let j = wrap_sum(firsts[0], e, n);
        note_box(&sizes[1..], &firsts[1..], &counts[1..], base * n + j, marks);
    }
}

// Notes the cells that a change of the cell x opens, by the box.
fn open_box(sizes: &[u32], bounds: Bounds, counts: &[usize; MOST_DIMS], x: usize, marks: &mut [u8])
    requires { Prepared sizes.now bounds × NotedCounts sizes.now bounds counts.now × (length marks.old ≡ product sizes.now) × (x < product sizes.now) }
    ensures { marks.new ≡ note_all (cells_opened sizes.now (bound_at bounds) x) marks.old }
{
    let at = coordinates_of(sizes, x);
    let firsts = firsts_of(sizes, bounds, &at);
    note_box(sizes, &firsts, counts, 0, marks);
}

// Notes the cells that a change of the cell x opens, by so many steps back.
fn open_list(
    sizes: &[u32],
    bounds: Bounds,
    steps: &[u32],
    listed: usize,
    x: usize,
    marks: &mut [u8],
)
    requires { Prepared sizes.now bounds × Led sizes.now steps.now listed × (listed < 257) × (length marks.old ≡ product sizes.now) × (x < product sizes.now) }
    ensures { marks.new ≡ note_all (cells_back sizes.now steps.now listed x) marks.old }
{
    note_steps(sizes, &coordinates_of(sizes, x), steps, listed, marks);
}

// Notes the cells that a change of the cell x opens: by the steps back, or where more than 256 are listed by the box.
pub fn open_from(
    sizes: &[u32],
    bounds: Bounds,
    counts: &[usize; MOST_DIMS],
    steps: &[u32],
    listed: usize,
    x: usize,
    marks: &mut [u8],
)
    requires { Prepared sizes.now bounds × NotedCounts sizes.now bounds counts.now × Led sizes.now steps.now listed × (length marks.old ≡ product sizes.now) × (x < product sizes.now) }
    ensures { marks.new ≡ note_all (cells_by sizes.now bounds steps.now listed x) marks.old }
{
    if listed < 257 {
        open_list(sizes, bounds, steps, listed, x, marks);
        return;
    }
    open_box(sizes, bounds, counts, x, marks);
}
