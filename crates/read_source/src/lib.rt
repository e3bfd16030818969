#![tactic(auto)]

// Checking a source: the core call.
ghost use Rattle.std.specs.Prelude.{◌≡◌, ◌≤◌, length};
ghost use Rattle.value.specs.Limits.{most_tokens, table_words, most_names, name_words};
ghost use Rattle.grammar.specs.Source.{has_kind, settled_value, settled};

use names::{Entry, entry_in, write_value};
use program::word_at;

mod checking;

pub use checking::{Reply, check, load};

// Whether one of n tokens of a table is of the kind.
pub fn has_kind(words: &[u32], n: usize, kind: u32) -> bool
    requires { (n ≤ most_tokens) × (length words.now ≡ table_words) }
    ensures { result ≡ has_kind kind words.now n }
{
    for i in 0..n {
        if words[4 * i] == kind {
            return true;
        }
    }
    false
}

// The value of a name after acceptance: of an array constant its size, which the table notes at the position that its value is, of a variable 0.
#[tactic(auto, unfolding(grammar::specs::Source::settled_value))]
fn settled_value(words: &[u32], e: Entry) -> u32
    requires { length words.now ≡ table_words }
    ensures { result ≡ settled_value words.now e }
{
    match e.kind {
        names::kind::ARRAY => word_at(words, e.word as usize, 2),
        names::kind::VARIABLE => 0,
        _ => e.word,
    }
}

// Sets so many names to the values that they have after acceptance.
pub fn settle_values(words: &[u32], names: &mut [u32], count: usize)
    requires { (count ≤ most_names) × (length words.now ≡ table_words) × (length names.old ≡ name_words) }
    ensures { names.new ≡ settled words.now names.old count }
{
    for i in 0..count {
        write_value(names, i, settled_value(words, entry_in(names, i)));
    }
}
