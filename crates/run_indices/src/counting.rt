// One written index, counted.
ghost use Rattle.std.specs.Prelude.{◌≡◌, ◌<◌, ltb, nat_abs};
ghost use Rattle.value.specs.Limits.{most_dims};
ghost use Rattle.value.specs.Worked.{decode_of};
ghost use Rattle.run_meaning.specs.Reach.{below, above};
ghost use Rattle.run_indices.specs.Promises.Surveying.{goes_past, Wider, Counts};
ghost use Rattle.run_places.specs.Promises.Vectors.{ends};

use crate::Count;
use run_meaning::Bounds;
use value::Value;

// How far a word's value lies below 0.
fn below(word: u32) -> u32
    ensures { result ≡ below (decode_of word) }
{
    let n = Value::decode(word).n;
    if n < 0 { n.unsigned_abs() } else { 0 }
}

// How far a word's value lies above 0.
fn above(word: u32) -> u32
    ensures { result ≡ above (decode_of word) }
{
    let n = Value::decode(word).n;
    if n < 0 { 0 } else { n as u32 }
}

// Whether a word's value is larger in size than a dimension.
fn exceeds(word: u32, size: u32) -> bool
    ensures { result ≡ ltb size (nat_abs (decode_of word)) }
{
    size < Value::decode(word).n.unsigned_abs()
}

// Whether an end of the values is larger in size than a dimension.
#[tactic(auto, unfolding(crate::specs::Promises::Surveying::goes_past))]
fn goes_past(low: u32, high: u32, size: u32) -> bool
    ensures { result ≡ goes_past size (ends low high) }
{
    exceeds(low, size) || exceeds(high, size)
}

// A box that has at least so much back and ahead in a dimension.
fn widened(bounds: Bounds, dim: usize, back: u32, ahead: u32) -> Bounds
    requires { dim < most_dims }
    ensures { Wider bounds dim back ahead result }
{
    let mut r = bounds;
    let bound = &mut r.dims[dim];
    bound.back = bound.back.max(back);
    bound.ahead = bound.ahead.max(ahead);
    r
}

// One written index: its place, its dimension, of a given size, and the words of its lowest and highest value.
#[tactic(auto, using(crate::proofs::CountingLaws::counts_far, crate::proofs::CountingLaws::counts_near, crate::proofs::CountingLaws::counts_after))]
pub fn counted(s: Count, size: u32, place: u32, dim: usize, low: u32, high: u32) -> Count
    requires { dim < most_dims }
    ensures { Counts s size place dim low high result }
{
    let bounds = widened(s.bounds, dim, below(low), above(high));
    if s.far.is_none() && goes_past(low, high, size) {
        return Count {
            far: Some(place),
            bounds,
        };
    }
    Count { far: s.far, bounds }
}
