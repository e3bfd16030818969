// What operand stands at a position by itself.
ghost use Rattle.std.specs.Prelude.{◌≡◌, [], ◌*◌, ◌<◌, ◌≤◌, length};
ghost use Rattle.value.specs.Limits.{most_tokens};
ghost use Rattle.cell_meaning.specs.Links.{word_in, table_of};
ghost use Rattle.cell_meaning.specs.Promises.Leaves.{LeafAt};
ghost use Rattle.cell_leaves.specs.Promises.Filling.{words_of, FieldSort};

use crate::Leaf;
use cell_operands::sort;
use cell_operands::table::{link_at, word_at};
use token::kind;
use token::kind::level_of;

// A name: a constant's number, or a variable that has a slot.
fn name_leaf(words: &[u32], n: usize, dims: usize, fields: usize, slots: usize, p: usize) -> Leaf
    requires { (4 * n ≤ length words.now) × (n ≤ most_tokens) × (p < n) × (word_in words.now n 0 p ≡ 1) }
    ensures { LeafAt (table_of words.now n dims) [] n fields slots (words_of result) p }
{
    let refers = word_at(words, n, 2, p);
    let word = word_at(words, n, 3, p);
    let next = p as u32 + 1;
    if refers == 1 {
        return Leaf {
            sort: sort::NUMBER,
            word: word,
            next: next,
            level: 0,
        };
    }
    if refers == 4 {
        if (word as usize) < slots {
            return Leaf {
                sort: sort::VARIABLE,
                word: word,
                next: next,
                level: 0,
            };
        }
    }
    Leaf {
        sort: sort::NONE,
        word: 0,
        next: 0,
        level: 0,
    }
}

// A field of the own cell or of one at a relative index, by the sort.
fn field_leaf(
    words: &[u32],
    n: usize,
    dims: usize,
    fields: usize,
    slots: usize,
    p: usize,
    sort: u32,
) -> Leaf
    requires { (4 * n ≤ length words.now) × (n ≤ most_tokens) × (p < n) × FieldSort (word_in words.now n 0 p) sort }
    ensures { LeafAt (table_of words.now n dims) [] n fields slots (words_of result) p }
{
    let word = word_at(words, n, 2, p);
    let next = link_at(words, n, 3, p);
    if (word as usize) < fields {
        return Leaf {
            sort: sort,
            word: word,
            next: next as u32,
            level: 0,
        };
    }
    Leaf {
        sort: sort::NONE,
        word: 0,
        next: 0,
        level: 0,
    }
}

// What stands at a position, without the offsets of a relative index, among which there may be index variables.
pub fn leaf_at(words: &[u32], n: usize, dims: usize, fields: usize, slots: usize, p: usize) -> Leaf
    requires { (4 * n ≤ length words.now) × (n ≤ most_tokens) }
    ensures { LeafAt (table_of words.now n dims) [] n fields slots (words_of result) p }
{
    let kind = word_at(words, n, 0, p);
    if kind == kind::LITERAL {
        return Leaf {
            sort: sort::NUMBER,
            word: word_at(words, n, 2, p),
            next: p as u32 + 1,
            level: 0,
        };
    }
    if kind == kind::NAME {
        return name_leaf(words, n, dims, fields, slots, p);
    }
    if kind == kind::CELL {
        return field_leaf(words, n, dims, fields, slots, p, sort::OWN);
    }
    if kind == kind::BRACKET {
        return field_leaf(words, n, dims, fields, slots, p, sort::NEAR);
    }
    Leaf {
        sort: sort::NONE,
        word: kind,
        next: 0,
        level: level_of(kind),
    }
}
