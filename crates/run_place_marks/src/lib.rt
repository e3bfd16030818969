#![tactic(auto)]

// The cells that a changed cell opens, by a list of places: each is a step back from it.
ghost use Rattle.std.specs.Prelude.{◌≡◌, ℕ, ◌+◌, ◌*◌, ◌%◌, ◌<◌, ◌≤◌, length, neg_ℤ};
ghost use Rattle.value.specs.Limits.{most_dims, most_cells, most_places};
ghost use Rattle.value.specs.Promises.Buffers.{place_words};
ghost use Rattle.automaton.specs.Shape.{product};
ghost use Rattle.automaton.specs.Promises.ShapeLaws.{Positive};
ghost use Rattle.value.specs.Number.{mod_z};
ghost use Rattle.value.specs.Worked.{decode_of};
ghost use Rattle.run_place_marks.specs.Promises.Placing.{StepPlaced, cell_from, note_places, Backs};

use run_meaning::wrap_sum;
use value::limits::{MOST_DIMS, MOST_PLACES};

// The number of the cell a step from given coordinates on; the step begins at an entry.
fn cell_at(sizes: &[u32], at: &[u32; MOST_DIMS], steps: &[u32], from: usize) -> usize
    requires { StepPlaced sizes.now at.now steps.now from }
    ensures { result ≡ cell_from sizes.now at.now steps.now from }
{
    let mut number = 0;
    for k in 0..sizes.len() {
        let n = sizes[k] as usize;
        number = number * n + wrap_sum(at[k] as usize, steps[from + k] as usize, n);
    }
    number
}

// Notes the cells at so many steps from given coordinates on.
pub fn note_steps(
    sizes: &[u32],
    at: &[u32; MOST_DIMS],
    steps: &[u32],
    count: usize,
    marks: &mut [u8],
)
    requires { ((k : ℕ) → k < count → StepPlaced sizes.now at.now steps.now (3 * k)) × (count ≤ most_places) × (length marks.old ≡ product sizes.now) × (length marks.old ≤ most_cells) }
    ensures { marks.new ≡ note_places sizes.now at.now steps.now count marks.old }
{
    for k in 0..count {
        let c = cell_at(sizes, at, steps, 3 * k);
        marks[c] = marks[c] % 2 + 2;
    }
}

// The step back by a word's value in a dimension of n coordinates: the value negated, modulo n.
fn back(word: u32, n: u32) -> u32
    requires { 0 < n }
    ensures { result ≡ mod_z (neg_ℤ (decode_of word)) n }
{
    if word == 0 {
        return 0;
    }
    if word < 2147483648 {
        return n - 1 - (word - 1) % n;
    }
    (4294967295 - word + 1) % n
}

// Sets the step back by place k of a list.
fn set_step(sizes: &[u32], places: &[[u32; MOST_DIMS]; MOST_PLACES], k: usize, steps: &mut [u32])
    requires { (length sizes.now ≤ most_dims) × Positive sizes.now × (k < most_places) × (length steps.old ≡ place_words) }
    ensures { Backs sizes.now places.now k (k + 1) steps.old steps.new }
{
    for d in 0..sizes.len() {
        steps[3 * k + d] = back(places[k][d], sizes[d]);
    }
}

// Sets the steps back by the first places of a list.
#[tactic(auto, using(crate::proofs::BackLaws::backs_start, crate::proofs::BackLaws::backs_more))]
pub fn set_steps(
    sizes: &[u32],
    places: &[[u32; MOST_DIMS]; MOST_PLACES],
    count: usize,
    steps: &mut [u32],
)
    requires { (length sizes.now ≤ most_dims) × Positive sizes.now × (count ≤ most_places) × (length steps.old ≡ place_words) }
    ensures { Backs sizes.now places.now 0 count steps.old steps.new }
{
    for k in 0..count {
        set_step(sizes, places, k, steps);
    }
}
