// The row of records that the flat words of a name list mean, and its storing.
ghost use Rattle.std.specs.Prelude.{◌≡◌, ◌++◌, ◌<◌, ◌≤◌, length, take, drop};
ghost use Rattle.value.specs.Limits.{most_names};
ghost use Rattle.api_records.specs.Rows.{row_at, rows_of};

use crate::Name;
use value::Value;
use value::limits::{MOST_NAMES, NAME_WORDS};

// The record k of the flat words.
fn row_at(flat: &[u32; NAME_WORDS], k: usize) -> Name
    requires { k < most_names }
    ensures { result ≡ row_at flat.now k }
{
    let v = Value::decode(flat[4 * k + 3]);
    Name {
        start: flat[4 * k],
        length: flat[4 * k + 1],
        kind: flat[4 * k + 2],
        value: v.n,
    }
}

// The records of the flat words.
pub fn rows_of(flat: &[u32; NAME_WORDS]) -> [Name; MOST_NAMES]
    ensures { result ≡ rows_of flat.now }
{
    let mut rows = [Name::default(); MOST_NAMES];
    for k in 0..MOST_NAMES {
        rows[k] = row_at(flat, k);
    }
    rows
}

// The first records of `names` are replaced by those of `rows`, so many of them.
pub fn store_first(names: &mut [Name], rows: [Name; MOST_NAMES], count: usize)
    requires { (count ≤ most_names) × (count ≤ length names.old) }
    ensures { names.new ≡ take count rows ++ drop count names.old }
{
    names[..count].copy_from_slice(&rows[..count]);
}
