// Operands that the leaf table has.
ghost use Rattle.std.specs.Prelude.{◌≡◌, true, ◌+◌, ◌*◌, ◌<◌, ◌≤◌, ◌%◌, length, take};
ghost use Rattle.value.specs.Limits.{most_tokens, most_dims};
ghost use Rattle.value.specs.Promises.Buffers.{most_room};
ghost use Rattle.automaton.specs.Shape.{product, cell_number, shift};
ghost use Rattle.automaton.specs.Promises.ShapeLaws.{Inside};
ghost use Rattle.cell_meaning.specs.Evaluation.{offsets};
ghost use Rattle.cell_meaning.specs.Promises.Stands.{indices_in};
ghost use Rattle.cell_meaning.specs.Links.{table_of};
ghost use Rattle.cell_meaning.specs.Promises.Leaves.{leaf_word, sort, OffsetsAre};
ghost use Rattle.cell_operands.specs.Promises.Scene.{In};
ghost use Rattle.cell_operands.specs.Promises.Working.{EvaluatedTo, short, Leaf, OperandNoted};

use crate::neighbour::entry_of;
use crate::scene::Scene;
use crate::table::leaf_word;
use crate::{Evaluated, sort};
use value::Value;
use value::limits::{LEAF_WORDS, MOST_NAMES, MOST_OPEN};

// A coordinate with a noted offset added, wrapped at the edge of a dimension.
fn moved(own: usize, offset: usize, size: usize) -> usize
    requires { (own < size) × (offset < size) × (size < 4294967296) }
    ensures { result ≡ (own + offset) % size }
{
    let to = own + offset;
    if to < size {
        return to;
    }
    to - size
}

// The number of the cell at the offsets noted at a position, by the sizes and the own coordinates. The words and the index variables are those
// that the offsets were worked out from, and are not read.
fn noted_number(
    leaves: &[u32; LEAF_WORDS],
    words: &[u32],
    n: usize,
    sizes: &[u32],
    point: &[u32],
    index: &[i32; MOST_OPEN],
    depth: usize,
    at: usize,
) -> usize
    requires { (at ≤ most_tokens) × (length sizes.now ≤ most_dims) × (product sizes.now ≤ most_room) × Inside sizes.now point.now × OffsetsAre (table_of words.now n (length sizes.now)) (take depth index.now) (leaf_word leaves.now at) sizes.now (at + 1) 4 }
    ensures { result ≡ cell_number sizes.now (shift sizes.now point.now (offsets (length sizes.now) (take depth index.now) (indices_in (table_of words.now n (length sizes.now)) (length sizes.now) (at + 1)))) }
{
    let dims = sizes.len();
    let mut number: usize = 0;
    for k in 0..dims {
        let size = sizes[k] as usize;
        let own = point[k] as usize;
        let to = moved(own, leaf_word(leaves, at, 4 + k) as usize, size);
        number = number * size + to;
    }
    number
}

// Whether what is noted is a number, a variable or a field of the own cell.
fn is_simple(sort: u32) -> bool
    ensures { result ≡ true → (1 ≤ sort) × (sort ≤ 3) }
{
    if sort == sort::NONE {
        return false;
    }
    sort < sort::NEAR
}

impl Scene<'_> {
    // The value of the operand noted at a position, a field of the cell at a relative index.
    #[inline(always)]
    fn near_value(&self, vars: &[i32; MOST_NAMES], index: &[i32; MOST_OPEN], at: usize) -> Value
        requires { (at ≤ self.now.site.tokens) × (leaf_word self.now.leaves at 0 ≡ sort.near) }
        ensures { In Leaf self.now vars.now index.now at (EvaluatedTo result (leaf_word self.now.leaves at 2)) }
    {
        let which = leaf_word(self.leaves, at, 1) as usize;
        let cell = noted_number(
            self.leaves,
            self.words,
            self.site.tokens,
            self.sizes,
            self.point,
            index,
            self.depth,
            at,
        );
        entry_of(self.grid, cell, self.site.fields, which)
    }

    // The value of the operand noted at a position, a number, a variable or a field of the own cell.
    #[inline(always)]
    pub fn simple_value(
        &self,
        vars: &[i32; MOST_NAMES],
        index: &[i32; MOST_OPEN],
        at: usize,
    ) -> Value
        requires { (at ≤ self.now.site.tokens) × (1 ≤ leaf_word self.now.leaves at 0) × (leaf_word self.now.leaves at 0 ≤ 3) }
        ensures { In Leaf self.now vars.now index.now at (EvaluatedTo result (leaf_word self.now.leaves at 2)) }
    {
        let sort = leaf_word(self.leaves, at, 0);
        let word = leaf_word(self.leaves, at, 1);
        if sort == sort::NUMBER {
            return Value::decode(word);
        }
        let which = word as usize;
        if sort == sort::VARIABLE {
            return Value { n: vars[which] };
        }
        entry_of(self.grid, self.site.cell, self.site.fields, which)
    }

    // The operand that is noted at a position, if one is.
    #[inline(always)]
    pub fn noted(
        &self,
        vars: &[i32; MOST_NAMES],
        index: &[i32; MOST_OPEN],
        at: usize,
    ) -> Option<Evaluated>
        requires { at ≤ self.now.site.tokens }
        ensures { In OperandNoted self.now vars.now index.now at (short result) }
    {
        let sort = leaf_word(self.leaves, at, 0);
        let next = leaf_word(self.leaves, at, 2) as usize;
        if sort == sort::NEAR {
            let value = self.near_value(vars, index, at);
            return Some(Evaluated { value, next });
        }
        if is_simple(sort) {
            let value = self.simple_value(vars, index, at);
            return Some(Evaluated { value, next });
        }
        None
    }
}
