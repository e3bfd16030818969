#![tactic(auto)]

// Two grids compared, without a source: the entries in which they differ, in rising order.
ghost use Rattle.std.specs.Prelude.{◌≡◌, [], ◌∷◌, ◌+◌, ◌*◌, ◌<◌, ◌≤◌, length, pos};
ghost use Rattle.std.proofs.lemmas.List.Edits.{sets};
ghost use Rattle.value.specs.Limits.{most_dims};
ghost use Rattle.api_comparison.specs.Differences.{comparable};
ghost use Rattle.api_comparison.specs.Promises.Comparing.{ComparesEntry};
ghost use Rattle.api_comparison.specs.Promises.Public.{Compares};

// Why grids cannot be compared: they are of unlike length or have over 2147483647 entries, or the room does not have 3k numbers.
#[derive(Clone, Copy, Debug, PartialEq, Eq, Hash)]
pub struct Incomparable;

impl Incomparable {
    // The number of the reply.
    pub fn number(self) -> u32
        ensures { result ≡ 21 }
    {
        21
    }
}

// Whether grids and a room of these lengths can be compared. 3k could be over the greatest usize, so the room is divided.
#[tactic(auto, unfolding(crate::specs::Differences::comparable))]
fn can_compare(left: usize, right: usize, k: usize, room: usize) -> bool
    ensures { result ≡ comparable left right k room }
{
    left == right && left <= 2147483647 && room % 3 == 0 && room / 3 == k
}

// Writes difference n, at an entry, into its three places of the room.
fn write_difference(room: &mut [i32], n: usize, entry: usize, left: i32, right: i32)
    requires { (3 * n + 3 ≤ length room.old) × (entry < 2147483647) }
    ensures { room.new ≡ sets room.old (3 * n) (pos entry ∷ left ∷ right ∷ []) }
{
    let at = 3 * n;
    room[at] = entry as i32;
    room[at + 1] = left;
    room[at + 2] = right;
}

// Compares the values at an entry, before which there are n differences: how many there are then. A difference is written where
// the room has a place for it.
fn compare_entry(room: &mut [i32], k: usize, n: usize, entry: usize, left: i32, right: i32) -> usize
    requires { (length room.old ≡ most_dims * k) × (entry < 2147483647) × (n ≤ entry) }
    ensures { ComparesEntry k n entry left right room.old result room.new }
{
    if left == right {
        return n;
    }
    if n < k {
        write_difference(room, n, entry, left, right);
        return n + 1;
    }
    n + 1
}

// Lists the entries in which two grids differ, each as entry number, left value and right value, in a room of 3k numbers: the
// first k of them; the remaining room stays. The total is of all. At a refusal nothing is written.
pub fn compare(left: &[i32], right: &[i32], k: usize, room: &mut [i32]) -> Result<u32, Incomparable>
    ensures { Compares left.now right.now k room.old result room.new }
{
    if !can_compare(left.len(), right.len(), k, room.len()) {
        return Err(Incomparable);
    }
    let mut total: usize = 0;
    for i in 0..left.len() {
        total = compare_entry(room, k, total, i, left[i], right[i]);
    }
    Ok(total as u32)
}
