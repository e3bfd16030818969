// The cell at a relative index, and its fields.
ghost use Rattle.std.specs.Prelude.{◌≡◌, ◌+◌, ◌*◌, ◌<◌, ◌≤◌, ◌%◌, length, take};
ghost use Rattle.value.specs.Limits.{most_tokens, most_open, most_dims};
ghost use Rattle.value.specs.Promises.Buffers.{most_room};
ghost use Rattle.value.specs.Worked.{value, wrap_of};
ghost use Rattle.automaton.specs.Shape.{product, cell_number, shift};
ghost use Rattle.automaton.specs.Promises.ShapeLaws.{Inside};
ghost use Rattle.automaton.specs.Grid.{cell_of};
ghost use Rattle.cell_meaning.specs.Evaluation.{entry, offset, offsets};
ghost use Rattle.cell_meaning.specs.Promises.Stands.{index_in, next_index, indices_in};
ghost use Rattle.cell_meaning.specs.Links.{word_in, table_of};
ghost use Rattle.cell_operands.specs.Promises.Scene.{neighbour_field};

use crate::operators::is_sign;
use crate::scene::Scene;
use crate::table::word_at;
use token::kind;
use value::Value;
use value::limits::MOST_OPEN;

// a modulo m. Mostly a is below m, or below twice m, and nothing is divided.
fn reduced(a: u64, m: u64) -> u64
    requires { (0 < m) × (m < 4294967296) }
    ensures { result ≡ a % m }
{
    if a < m {
        return a;
    }
    if a < 2 * m {
        return a - m;
    }
    a % m
}

// The coordinate own + index, wrapped at the edges of a dimension.
pub fn wrapped(own: u32, index: Value, size: u32) -> u32
    requires { own < size }
    ensures { result ≡ wrap_of own index.n size }
{
    let word = index.encode() as u64;
    let from = own as u64;
    let m = size as u64;
    if word < 2147483648 {
        return reduced(from + word, m) as u32;
    }
    let back = 4294967296 - word;
    if back <= from {
        return (from - back) as u32;
    }
    (m - 1 - reduced(back - from - 1, m)) as u32
}

// Entry `which` of the first `count`, as a value; 0 where there is none. So the value of a variable, by the slots that are in use, and of an index
// variable, by the loops that are open, outermost first.
pub fn front_value(entries: &[i32], count: usize, which: usize) -> Value
    requires { count ≤ length entries.now }
    ensures { result ≡ value (entry (take count entries.now) which) }
{
    if which < count {
        return Value { n: entries[which] };
    }
    Value { n: 0 }
}

// The value of the element of a relative index at a position.
fn element_value(
    words: &[u32],
    n: usize,
    dims: usize,
    index: &[i32; MOST_OPEN],
    depth: usize,
    at: usize,
) -> Value
    requires { (4 * n ≤ length words.now) × (n ≤ most_tokens) × (depth ≤ most_open) }
    ensures { result ≡ value (offset (take depth index.now) (index_in (table_of words.now n dims) at)) }
{
    let word = word_at(words, n, 3, at);
    if word_at(words, n, 0, at) == kind::NAME {
        if word_at(words, n, 2, at) == 5 {
            return front_value(index, depth, word as usize);
        }
        return Value::decode(word);
    }
    Value::decode(word)
}

// The position of the element after the one at a position.
#[tactic(auto, using(crate::proofs::NeighbourLaws::after_sign, crate::proofs::NeighbourLaws::after_other))]
pub fn element_after(words: &[u32], n: usize, dims: usize, at: usize) -> usize
    requires { (4 * n ≤ length words.now) × (n ≤ most_tokens) × (at ≤ 8192) }
    ensures { (result ≡ next_index (table_of words.now n dims) at) × (result ≤ at + 3) }
{
    if is_sign(word_at(words, n, 0, at)) {
        return at + 3;
    }
    at + 2
}

// The number of the cell at the relative index whose elements begin at a position, by the sizes and the own coordinates.
#[tactic(auto, using(crate::proofs::NeighbourLaws::steps_more, crate::proofs::NeighbourLaws::number_small))]
fn neighbour_number(
    words: &[u32],
    n: usize,
    sizes: &[u32],
    point: &[u32],
    index: &[i32; MOST_OPEN],
    depth: usize,
    at: usize,
) -> usize
    requires { (4 * n ≤ length words.now) × (n ≤ most_tokens) × (depth ≤ most_open) × (at ≤ 4097) × (length sizes.now ≤ most_dims) × (product sizes.now ≤ most_room) × Inside sizes.now point.now }
    ensures { result ≡ cell_number sizes.now (shift sizes.now point.now (offsets (length sizes.now) (take depth index.now) (indices_in (table_of words.now n (length sizes.now)) (length sizes.now) at))) }
{
    let dims = sizes.len();
    let mut number: usize = 0;
    let mut here = at;
    for k in 0..dims {
        let size = sizes[k];
        let own = point[k];
        let to = wrapped(own, element_value(words, n, dims, index, depth, here), size);
        number = number * size as usize + to as usize;
        here = element_after(words, n, dims, here);
    }
    number
}

// A field that there is, of a cell in the grid.
#[tactic(auto, using(crate::proofs::NeighbourLaws::field_entry))]
pub fn entry_of(grid: &[i32], cell: usize, fields: usize, field: usize) -> Value
    requires { (cell * fields + fields ≤ length grid.now) × (field < fields) }
    ensures { result ≡ value (entry (cell_of fields grid.now cell) field) }
{
    Value {
        n: grid[cell * fields + field],
    }
}

// A field of a cell in the grid; 0 for one that there is not.
pub fn field_of(grid: &[i32], cell: usize, fields: usize, field: usize) -> Value
    requires { cell * fields + fields ≤ length grid.now }
    ensures { result ≡ value (entry (cell_of fields grid.now cell) field) }
{
    if field < fields {
        return entry_of(grid, cell, fields, field);
    }
    Value { n: 0 }
}

impl Scene<'_> {
    // The field that is noted at the `[` at a position, of the cell at the relative index after it.
    pub fn neighbour_field(&self, index: &[i32; MOST_OPEN], at: usize) -> Value
        requires { at ≤ most_tokens }
        ensures { result ≡ neighbour_field self.now index.now at }
    {
        let n = self.site.tokens;
        let cell = neighbour_number(
            self.words,
            n,
            self.sizes,
            self.point,
            index,
            self.depth,
            at + 1,
        );
        let field = word_at(self.words, n, 2, at) as usize;
        field_of(self.grid, cell, self.site.fields, field)
    }
}
