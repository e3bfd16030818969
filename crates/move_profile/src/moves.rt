// Rule 3: the statement, off the word table.
ghost use Rattle.std.specs.Prelude.{◌≡◌, ◌&&◌, ◌*◌, ◌/◌, ◌≤◌, eqb, length, if◌then◌else◌};
ghost use Rattle.value.specs.Limits.{most_tokens};
ghost use Rattle.token.specs.Kind.{keyword};
ghost use Rattle.cell_meaning.specs.Links.{word_in};
ghost use Rattle.move_profile.specs.Promises.Moves.{KindsAt, OpensAt, ClosesAt, PastConstants, LastStatement, DecidesMove};

use cell_operands::table::{link_at, word_at};
use cell_statements::begins;
use token::kind;

// Whether the tokens from a position on are of these kinds.
#[tactic(auto, using(crate::proofs::MoveLaws::Rows))]
fn kinds_at(words: &[u32], n: usize, at: usize, kinds: &[u32]) -> bool
    requires { (4 * n ≤ length words.now) × (n ≤ most_tokens) × (at ≤ most_tokens) × (length kinds.now ≤ 8) }
    ensures { KindsAt words.now n at kinds.now result }
{
    for i in 0..kinds.len() {
        if word_at(words, n, 0, at + i) != kinds[i] {
            return false;
        }
    }
    true
}

// Whether the literal at a position is one digit, d.
fn digit_at(words: &[u32], n: usize, at: usize, d: u32) -> bool
    requires { (4 * n ≤ length words.now) × (n ≤ most_tokens) }
    ensures { result ≡ (eqb (word_in words.now n 1 at / 65536) 1 && eqb (word_in words.now n 2 at) d) }
{
    word_at(words, n, 1, at) / 65536 == 1 && word_at(words, n, 2, at) == d
}

// Whether `if cell.moved = 0 then` is at a position, where the field is `moved`.
#[tactic(auto, using(crate::proofs::MoveLaws::Openings))]
fn opens_at(words: &[u32], n: usize, field: u32, at: usize) -> bool
    requires { (4 * n ≤ length words.now) × (n ≤ most_tokens) × (at ≤ n) }
    ensures { OpensAt words.now n field at result }
{
    let row = [
        kind::IF_WORD,
        kind::CELL,
        kind::DOT,
        kind::NAME,
        kind::EQUAL,
        kind::LITERAL,
        kind::THEN_WORD,
    ];
    if !kinds_at(words, n, at, &row) {
        return false;
    }
    if word_at(words, n, 2, at + 1) != field {
        return false;
    }
    if link_at(words, n, 3, at + 1) != at + 4 {
        return false;
    }
    digit_at(words, n, at + 5, 0)
}

// Whether the assignment `cell.moved := 1` is at a position, without a condition, and the `end` or a constant after it.
#[tactic(auto, using(crate::proofs::MoveLaws::Closings))]
fn closes_at(words: &[u32], n: usize, field: u32, at: usize) -> bool
    requires { (4 * n ≤ length words.now) × (n ≤ most_tokens) × (at ≤ n) }
    ensures { ClosesAt words.now n field at result }
{
    let row = [
        kind::CELL,
        kind::DOT,
        kind::NAME,
        kind::ASSIGN,
        kind::LITERAL,
    ];
    if !kinds_at(words, n, at, &row) {
        return false;
    }
    if word_at(words, n, 2, at) != field {
        return false;
    }
    if !digit_at(words, n, at + 4, 1) {
        return false;
    }
    if word_at(words, n, 2, at + 3) != 0 {
        return false;
    }
    let behind = word_at(words, n, 0, at + 5);
    behind == kind::END_WORD || behind == kind::CONST_WORD
}

// The position after the constants that are declared from a position on.
fn past_constants(words: &[u32], n: usize, at: usize) -> usize
    requires { (4 * n ≤ length words.now) × (n ≤ most_tokens) × (at ≤ n) }
    ensures { PastConstants words.now n at result }
{
    let mut here = at;
    // Kept: no plainer, here and below. The loop goes from token to token by what stands there, and its position is no index.
    while word_at(words, n, 0, here) == kind::CONST_WORD {
        here = link_at(words, n, 3, here);
    }
    here
}

// Of two statements the later, unless its first token, of the kind `first`, declares a constant.
fn later(first: u32, last: usize, here: usize) -> usize
    ensures { result ≡ (if eqb first keyword.const then last else here) }
{
    if first == kind::CONST_WORD {
        last
    } else {
        here
    }
}

// The position of the last statement, constants aside, of those from a position on; n if there is none.
fn last_statement(words: &[u32], n: usize, at: usize) -> usize
    requires { (4 * n ≤ length words.now) × (n ≤ most_tokens) }
    ensures { LastStatement words.now n at result }
{
    let mut last = n;
    let mut here = at;
    while begins(word_at(words, n, 0, here)) {
        last = later(word_at(words, n, 0, here), last, here);
        here = link_at(words, n, 3, here);
    }
    last
}

// Whether the statements from a position on are, constants aside, `if cell.moved = 0 then` .. `end` alone, without `elsif` and `else`, whose last
// statement, constants aside, is `cell.moved := 1`.
pub fn moves_once(words: &[u32], n: usize, field: u32, at: usize) -> bool
    requires { (4 * n ≤ length words.now) × (n ≤ most_tokens) × (at ≤ n) }
    ensures { DecidesMove words.now n field at result }
{
    let i = past_constants(words, n, at);
    if !opens_at(words, n, field, i) {
        return false;
    }
    if word_at(words, n, 0, link_at(words, n, 2, i)) != kind::END_WORD {
        return false;
    }
    if past_constants(words, n, link_at(words, n, 3, i)) != n {
        return false;
    }
    closes_at(words, n, field, last_statement(words, n, i + 7))
}
