// The index vectors that one relative index can take.
ghost use Rattle.std.specs.Prelude.{◌≡◌, true, ◌&&◌, ◌*◌, ◌<◌, ◌≤◌, min, eqb, length, pos, ◌+ℤ◌};
ghost use Rattle.value.specs.Limits.{most_tokens, most_dims, most_places};
ghost use Rattle.value.specs.Number.{in_range};
ghost use Rattle.value.specs.Worked.{decode_of};
ghost use Rattle.cell_meaning.specs.Evaluation.{offset, offsets};
ghost use Rattle.cell_meaning.specs.Promises.Stands.{index_in, indices_in};
ghost use Rattle.cell_meaning.specs.Links.{word_in, table_of};
ghost use Rattle.cell_meaning.specs.Places.{uses, used_ranges, choice_count, choice_at};
ghost use Rattle.program.specs.Promises.Fitting.{Sized};
ghost use Rattle.run_places.specs.Promises.Vectors.{vector_values, open_loops, is_variable, Spanned, Vectors, IndexReach};

use crate::loops::Loops;
use cell_operands::neighbour::element_after;
use cell_operands::table::word_at;
use program::Rule;
use run_meaning::{Bounds, Reach, times};
use token::kind;
use value::Value;
use value::limits::{MOST_DIMS, MOST_OPEN, MOST_PLACES};

// Whether the element of a relative index at a position is the variable of a loop.
fn names_variable(words: &[u32], n: usize, at: usize) -> bool
    requires { (4 * n ≤ length words.now) × (n ≤ most_tokens) }
    ensures { result ≡ (eqb (word_in words.now n 0 at) 1 && eqb (word_in words.now n 2 at) 5) }
{
    word_at(words, n, 0, at) == kind::NAME && word_at(words, n, 2, at) == names::kind::INDEX
}

// The word of the element of a relative index at a position, where the variables of the open loops have given words.
#[tactic(auto, using(crate::proofs::ElementLaws::word_open, crate::proofs::ElementLaws::word_shut, crate::proofs::ElementLaws::word_fixed))]
pub fn element_word(words: &[u32], n: usize, dims: usize, given: &[u32], at: usize) -> u32
    requires { (4 * n ≤ length words.now) × (n ≤ most_tokens) }
    ensures { decode_of result ≡ offset (vector_values given.now (length given.now)) (index_in (table_of words.now n dims) at) }
{
    let word = word_at(words, n, 3, at);
    if !names_variable(words, n, at) {
        return word;
    }
    match given.get(word as usize) {
        Some(value) => *value,
        None => 0,
    }
}

// Whether the element of a relative index at a position is the variable of the loop at a depth.
#[tactic(auto, using(crate::proofs::ElementLaws::variable_here, crate::proofs::ElementLaws::variable_not))]
fn is_variable(words: &[u32], n: usize, dims: usize, which: usize, at: usize) -> bool
    requires { (4 * n ≤ length words.now) × (n ≤ most_tokens) }
    ensures { result ≡ is_variable which (index_in (table_of words.now n dims) at) }
{
    names_variable(words, n, at) && word_at(words, n, 3, at) as usize == which
}

// Whether the variable of the loop at a depth occurs in the relative index whose elements begin at a position.
#[tactic(auto, using(crate::proofs::ElementLaws::looking_found, crate::proofs::ElementLaws::looking_more, crate::proofs::ElementLaws::looking_done))]
fn uses(words: &[u32], n: usize, dims: usize, which: usize, at: usize) -> bool
    requires { (4 * n ≤ length words.now) × (n ≤ most_tokens) × (dims ≤ most_dims) × (at ≤ most_tokens) }
    ensures { result ≡ uses which (indices_in (table_of words.now n dims) dims at) }
{
    let mut here = at;
    for _ in 0..dims {
        if is_variable(words, n, dims, which, here) {
            return true;
        }
        here = element_after(words, n, dims, here);
    }
    false
}

// The open loops, as a relative index has them: those whose variable does not occur in it have the value 0 alone.
#[tactic(auto, using(crate::proofs::LoopLaws::using_start, crate::proofs::LoopLaws::using_done))]
fn used(words: &[u32], n: usize, dims: usize, loops: &Loops, at: usize) -> Loops
    requires { (4 * n ≤ length words.now) × (n ≤ most_tokens) × (dims ≤ most_dims) × (at ≤ most_tokens) }
    ensures { open_loops result ≡ used_ranges (open_loops loops.now) (indices_in (table_of words.now n dims) dims at) }
{
    let mut lows = loops.lows;
    let mut highs = loops.highs;
    for d in 0..loops.depth {
        if !uses(words, n, dims, d, at) {
            lows[d] = 0;
            highs[d] = 0;
        }
    }
    Loops {
        lows,
        highs,
        depth: loops.depth,
    }
}

// How many values there are from one to another; 257 where there are more than 256.
fn span(low: u32, high: u32) -> usize
    ensures { Spanned low high result }
{
    let n = Value::decode(low).span(Value::decode(high));
    n.min(257) as usize
}

// How many choices of values there are for the open loops; 257 where there are more than 256.
fn choices(loops: &Loops) -> usize
    ensures { result ≡ min 257 (choice_count (open_loops loops.now)) }
{
    let mut total = 1;
    for d in (0..loops.depth).rev() {
        total = times(span(loops.lows[d], loops.highs[d]), total);
    }
    total
}

// The word of the value k above that of a word, which the caller keeps in range.
fn word_above(low: u32, k: usize) -> u32
    requires { (k < 257) × (in_range (decode_of low +ℤ pos k) ≡ true) }
    ensures { decode_of result ≡ decode_of low +ℤ pos k }
{
    Value::decode(low).offset(k as u32).encode()
}

// The words of the e-th choice of values, the outermost loop's slowest.
fn chosen(loops: &Loops, e: usize) -> [u32; MOST_OPEN]
    requires { (e < choice_count (open_loops loops.now)) × (choice_count (open_loops loops.now) ≤ most_places) }
    ensures { vector_values result loops.now.depth ≡ choice_at (open_loops loops.now) e }
{
    let mut r = [0; MOST_OPEN];
    let mut rest = e;
    for d in (0..loops.depth).rev() {
        let n = span(loops.lows[d], loops.highs[d]);
        r[d] = word_above(loops.lows[d], rest % n);
        rest = rest / n;
    }
    r
}

// The index vector of a relative index, where the variables have given words.
fn vector(words: &[u32], n: usize, dims: usize, given: &[u32], at: usize) -> [u32; MOST_DIMS]
    requires { (4 * n ≤ length words.now) × (n ≤ most_tokens) × (dims ≤ most_dims) × (at ≤ most_tokens) }
    ensures { vector_values result dims ≡ offsets dims (vector_values given.now (length given.now)) (indices_in (table_of words.now n dims) dims at) }
{
    let mut place = [0; MOST_DIMS];
    let mut here = at;
    for k in 0..dims {
        place[k] = element_word(words, n, dims, given, here);
        here = element_after(words, n, dims, here);
    }
    place
}

// Sets the first places of a list to the index vectors that a relative index can take, as many as `count`; none, if there are more than 256.
// Kept: the list is lent. Returned, its 3 KB would be cleared and copied once more for each relative index.
fn set_vectors(
    words: &[u32],
    n: usize,
    dims: usize,
    loops: &Loops,
    at: usize,
    count: usize,
    list: &mut [[u32; MOST_DIMS]; MOST_PLACES],
)
    requires { (4 * n ≤ length words.now) × (n ≤ most_tokens) × (dims ≤ most_dims) × (at ≤ most_tokens) × (count ≡ min 257 (choice_count (open_loops loops.now))) }
    ensures { Vectors dims count (λ e. offsets dims (choice_at (open_loops loops.now) e) (indices_in (table_of words.now n dims) dims at)) list.new }
{
    if MOST_PLACES < count {
        return;
    }
    for e in 0..count {
        let given = chosen(loops, e);
        list[e] = vector(words, n, dims, &given[..loops.depth], at);
    }
}

// The reach of one relative index, with given bounds: its places are the index vectors that it can take.
pub fn index_reach(words: &[u32], rule: Rule, loops: &Loops, at: usize, bounds: Bounds) -> Reach
    requires { Sized (length words.now) rule × (at ≤ most_tokens) }
    ensures { IndexReach words.now rule (open_loops loops.now) at bounds result }
{
    let n = rule.tokens;
    let dims = rule.dims as usize;
    let used = used(words, n, dims, loops, at);
    let count = choices(&used);
    let mut places = [[0; MOST_DIMS]; MOST_PLACES];
    set_vectors(words, n, dims, &used, at, count, &mut places);
    Reach {
        bounds,
        count: count as u32,
        places,
    }
}
