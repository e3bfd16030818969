// Words of a table, four together.
ghost use Rattle.std.specs.Prelude.{◌≡◌, ◌+◌, ◌≤◌, length, set};

// Writes four words from a position on.
pub fn put_four(words: &mut [u32], at: usize, a: u32, b: u32, c: u32, d: u32)
    requires { at + 4 ≤ length words.old }
    ensures { words.new ≡ set (set (set (set words.old at a) (at + 1) b) (at + 2) c) (at + 3) d }
{
    words[at] = a;
    words[at + 1] = b;
    words[at + 2] = c;
    words[at + 3] = d;
}
