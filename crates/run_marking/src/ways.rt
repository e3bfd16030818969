// Which way the open cells are marked: by a list of steps back, or by the lines of the box.
ghost use Rattle.std.specs.Prelude.{◌≡◌, ◌≤◌, map, min, length};
ghost use Rattle.value.specs.Limits.{most_dims};
ghost use Rattle.value.specs.Promises.Buffers.{place_words};
ghost use Rattle.automaton.specs.Shape.{product, width};
ghost use Rattle.run_meaning.specs.Promises.Fitting.{seen, bounds_of};
ghost use Rattle.run_marking.specs.Promises.Opened.{WayOf};
ghost use Rattle.run_marking.specs.Promises.Noting.{Prepared};

use run_meaning::{Bound, Bounds, Reach, times};
use run_place_marks::set_steps;
use value::limits::MOST_PLACES;

// How many indices are within a bound; 257 where there are more than 256.
fn width(bound: Bound) -> usize
    ensures { result ≡ min 257 (width (seen bound)) }
{
    (bound.back as usize + bound.ahead as usize + 1).min(MOST_PLACES + 1)
}

// How many index vectors the box has; 257 where there are more than 256.
fn box_count(bounds: Bounds, dims: usize) -> usize
    requires { dims ≤ most_dims }
    ensures { result ≡ min 257 (product (map width (bounds_of bounds dims))) }
{
    let mut total = 1;
    for k in (0..dims).rev() {
        total = times(width(bounds.dims[k]), total);
    }
    total
}

// Sets the steps back by the listed places, where the list is shorter than the box, and returns how many there are; else 257: the box is taken.
pub fn set_ways(sizes: &[u32], reach: Reach, steps: &mut [u32]) -> usize
    requires { Prepared sizes.now reach.bounds × (length steps.old ≡ place_words) }
    ensures { WayOf sizes.now reach steps.new result }
{
    let count = reach.count as usize;
    if MOST_PLACES < count {
        return 257;
    }
    if count == box_count(reach.bounds, sizes.len()) {
        return 257;
    }
    set_steps(sizes, &reach.places, count, steps);
    count
}
