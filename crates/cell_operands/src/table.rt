// The word table, read: past the last token every word is 0, and a link leads forward, or else to the end.
ghost use Rattle.std.specs.Prelude.{◌≡◌, ◌*◌, ◌<◌, ◌≤◌, ◌%◌, length};
ghost use Rattle.value.specs.Limits.{most_tokens, most_fields};
ghost use Rattle.cell_meaning.specs.Links.{word_in, linked};
ghost use Rattle.cell_meaning.specs.Promises.Leaves.{leaf_word};

use value::limits::LEAF_WORDS;

// Word w of the token at position i, where there are n tokens.
pub fn word_at(words: &[u32], n: usize, w: usize, i: usize) -> u32
    requires { (4 * n ≤ length words.now) × (n ≤ most_tokens) × (w < 4) }
    ensures { result ≡ word_in words.now n w i }
{
    if i < n { words[4 * i + w] } else { 0 }
}

// The place of the first byte of the token at position i.
pub fn place_at(words: &[u32], n: usize, i: usize) -> u32
    requires { (4 * n ≤ length words.now) × (n ≤ most_tokens) }
    ensures { result ≡ word_in words.now n 1 i % 65536 }
{
    word_at(words, n, 1, i) % 65536
}

// Where the link in word w of the token at position i leads.
pub fn link_at(words: &[u32], n: usize, w: usize, i: usize) -> usize
    requires { (4 * n ≤ length words.now) × (n ≤ most_tokens) × (w < 4) }
    ensures { result ≡ linked n i (word_in words.now n w i) }
{
    let there = word_at(words, n, w, i) as usize;
    if i < there {
        if n < there {
            return n;
        }
        return there;
    }
    n
}

// Word k of what the leaf table notes at position p.
pub fn leaf_word(leaves: &[u32; LEAF_WORDS], p: usize, k: usize) -> u32
    requires { (p ≤ most_tokens) × (k < most_fields) }
    ensures { result ≡ leaf_word leaves.now p k }
{
    leaves[8 * p + k]
}
