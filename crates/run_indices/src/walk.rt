// The walk over the tokens.
ghost use Rattle.std.specs.Prelude.{◌≡◌, ◌&&◌, [], ◌∷◌, ◌*◌, ◌<◌, ◌≤◌, eqb, ltb, length};
ghost use Rattle.value.specs.Limits.{most_tokens, most_dims};
ghost use Rattle.token.specs.Kind.{keyword};
ghost use Rattle.cell_meaning.specs.Written.{written_in_index};
ghost use Rattle.cell_meaning.specs.Promises.Stands.{rule_table, indices_in};
ghost use Rattle.cell_meaning.specs.Links.{word_in, table_of};
ghost use Rattle.cell_meaning.specs.Promises.Listing.{is_index, behind};
ghost use Rattle.run_indices.specs.Promises.Surveying.{tally, tally_of, found, survey_of, Walks, listed_places, CountsAt};
ghost use Rattle.run_places.specs.Promises.Vectors.{open_loops, relative_at};
ghost use Rattle.run_places.specs.Promises.Widening.{Widens};

use crate::counting::counted;
use crate::{Count, Survey};
use cell_operands::neighbour::element_after;
use cell_operands::table::{link_at, place_at, word_at};
use program::Rule;
use run_meaning::Reach;
use run_places::loops::Loops;
use run_places::vectors::{element_word, index_reach};
use run_places::widening::widen;
use token::kind;
use value::limits::MOST_OPEN;

// The elements of a relative index, from a position on.
fn elements(words: &[u32], rule: Rule, sizes: &[u32], loops: &Loops, at: usize, s: Count) -> Count
    requires { Walks (length words.now) rule (length sizes.now) × (at ≤ most_tokens) }
    ensures { tally_of result rule.dims ≡ tally sizes.now (tally_of s rule.dims) (written_in_index (open_loops loops.now) 0 (indices_in (rule_table words.now rule) rule.dims at)) }
{
    let n = rule.tokens;
    let dims = rule.dims as usize;
    let lows = loops.lows();
    let highs = loops.highs();
    let mut now = s;
    let mut here = at;
    for k in 0..dims {
        let low = element_word(words, n, dims, lows, here);
        let high = element_word(words, n, dims, highs, here);
        now = counted(now, sizes[k], place_at(words, n, here), k, low, high);
        here = element_after(words, n, dims, here);
    }
    now
}

// Whether a relative index begins at a position.
#[tactic(auto, unfolding(cell_meaning::specs::Promises::Listing::is_index))]
fn is_index(words: &[u32], n: usize, dims: usize, at: usize) -> bool
    requires { (4 * n ≤ length words.now) × (n ≤ most_tokens) }
    ensures { result ≡ is_index (table_of words.now n dims) at }
{
    word_at(words, n, 0, at) == kind::BRACKET && 0 < word_at(words, n, 3, at)
}

// The position after the construct at a position.
#[tactic(auto, using(crate::proofs::WalkLaws::behind_loop, crate::proofs::WalkLaws::behind_constant, crate::proofs::WalkLaws::behind_index, crate::proofs::WalkLaws::behind_one))]
fn behind(words: &[u32], n: usize, dims: usize, at: usize) -> usize
    requires { (4 * n ≤ length words.now) × (n ≤ most_tokens) × (at < n) }
    ensures { result ≡ behind (table_of words.now n dims) at }
{
    let kind = word_at(words, n, 0, at);
    if kind == kind::FORALL_WORD || kind == kind::CONST_WORD || is_index(words, n, dims, at) {
        return link_at(words, n, 3, at);
    }
    at + 1
}

// Whether a loop begins at a position, and there is room for it.
fn opens(words: &[u32], n: usize, depth: usize, at: usize) -> bool
    requires { (4 * n ≤ length words.now) × (n ≤ most_tokens) }
    ensures { result ≡ (eqb (word_in words.now n 0 at) keyword.forall && ltb depth 16) }
{
    word_at(words, n, 0, at) == kind::FORALL_WORD && depth < MOST_OPEN
}

// A reach is widened in place by that of a relative index.
// Kept: that reach comes by value. Lent where it is made, its 3 KB would be cleared before they are set.
fn widen_by(reach: &mut Reach, index: Reach, dims: usize)
    requires { dims ≤ most_dims }
    ensures { Widens reach.old index dims reach.new }
{
    widen(reach, &index, dims);
}

// The relative index whose elements begin at a position: they are counted, and its places are added to the reach.
fn with_index(words: &[u32], rule: Rule, sizes: &[u32], loops: &Loops, at: usize, s: &mut Survey)
    requires { Walks (length words.now) rule (length sizes.now) × (at ≤ most_tokens) }
    ensures { survey_of s.new rule.dims ≡ found sizes.now rule.dims (survey_of s.old rule.dims) (relative_at words.now rule (open_loops loops.now) at ∷ []) }
{
    let start = Count {
        far: s.far,
        bounds: s.reach.bounds,
    };
    let count = elements(words, rule, sizes, loops, at, start);
    let index = index_reach(words, rule, loops, at, count.bounds);
    s.far = count.far;
    widen_by(&mut s.reach, index, rule.dims as usize);
}

// What is written at a position where no loop opens.
#[tactic(auto, using(crate::proofs::WalkLaws::counts_index, crate::proofs::WalkLaws::counts_flat, crate::proofs::WalkLaws::counts_none))]
fn index_at(words: &[u32], rule: Rule, sizes: &[u32], loops: &Loops, at: usize, s: &mut Survey)
    requires { Walks (length words.now) rule (length sizes.now) × (at < rule.tokens) }
    ensures { CountsAt words.now rule sizes.now (open_loops loops.now) at s.old s.new }
{
    if is_index(words, rule.tokens, rule.dims as usize, at) {
        if 0 < rule.dims {
            with_index(words, rule, sizes, loops, at + 1, s);
        }
    }
}

// The tokens from a position up to another.
pub fn part(
    words: &[u32],
    rule: Rule,
    sizes: &[u32],
    loops: &Loops,
    from: usize,
    to: usize,
    s: &mut Survey,
)
    requires { Walks (length words.now) rule (length sizes.now) × (to ≤ rule.tokens) }
    ensures { survey_of s.new rule.dims ≡ found sizes.now rule.dims (survey_of s.old rule.dims) (listed_places words.now rule (open_loops loops.now) from to) }
{
    let n = rule.tokens;
    let dims = rule.dims as usize;
    let mut at = from;
    // Kept: no plainer. The loop goes by the links of the word table, and its position is no index.
    while at < to {
        if opens(words, n, loops.depth, at) {
            let inner = loops.opened(word_at(words, n, 2, at + 1), word_at(words, n, 3, at + 1));
            let first = link_at(words, n, 2, at);
            let past = link_at(words, n, 3, at);
            part(words, rule, sizes, &inner, first, past, s);
        } else {
            index_at(words, rule, sizes, loops, at, s);
        }
        at = behind(words, n, dims, at);
    }
}
