#![tactic(auto)]

// Runs of a program on a grid: the definitions, and the reach as a record.
ghost use Rattle.std.specs.Prelude.{◌≡◌, ◌+◌, ◌*◌, ◌%◌, ◌<◌, ◌≤◌, min};
ghost use Rattle.value.specs.Limits.{most_cells};
ghost use Rattle.run_meaning.specs.Promises.Fitting.{OwnOnly};

use value::limits::{MOST_DIMS, MOST_PLACES};

// In one dimension: how far the lowest index that is written lies below 0, and the highest above it.
#[derive(Clone, Copy, Debug, PartialEq, Eq)]
pub struct Bound {
    pub back: u32,
    pub ahead: u32,
}

// A box: the bounds of up to three dimensions.
#[derive(Clone, Copy, Debug, PartialEq, Eq)]
pub struct Bounds {
    pub dims: [Bound; MOST_DIMS],
}

// The reach: the box, and the places that can be read, the own cell among them. A place has the word of its index in each dimension.
// A count over 256: there are too many, and the box holds.
// Kept: only Clone and Copy, since nothing compares or prints its 768 words.
#[derive(Clone, Copy)]
pub struct Reach {
    pub bounds: Bounds,
    pub count: u32,
    pub places: [[u32; MOST_DIMS]; MOST_PLACES],
}

// The reach that has the own cell alone.
pub fn own_only() -> Reach
    ensures { OwnOnly result }
{
    let own = Bound { back: 0, ahead: 0 };
    Reach {
        bounds: Bounds {
            dims: [own; MOST_DIMS],
        },
        count: 1,
        places: [[0; MOST_DIMS]; MOST_PLACES],
    }
}

// A product; 257 where it is more than 256.
pub fn times(a: usize, b: usize) -> usize
    requires { (a ≤ 257) × (b ≤ 257) }
    ensures { result ≡ min 257 (a * b) }
{
    (a * b).min(MOST_PLACES + 1)
}

// a + b, wrapped in a dimension of n coordinates.
pub fn wrap_sum(a: usize, b: usize, n: usize) -> usize
    requires { (a < n) × (b ≤ n) × (n ≤ most_cells) }
    ensures { result ≡ (a + b) % n }
{
    let sum = a + b;
    if sum < n { sum } else { sum - n }
}

// The coordinate after j in a dimension of n coordinates; after the last one the first.
pub fn next_coordinate(j: usize, n: usize) -> usize
    requires { j < n }
    ensures { result ≡ (j + 1) % n }
{
    if j + 1 == n { 0 } else { j + 1 }
}
