// The row of records after reading.
ghost use Rattle.std.specs.Prelude.{◌≡◌, true, ◌++◌, ◌≤◌, length, take, drop};
ghost use Rattle.value.specs.Limits.{most_names};
ghost use Rattle.api_records.specs.Rows.{rows_of};
ghost use Rattle.cellang.specs.Storing.{row_fits, stored_of};

use api_records::Name;
use api_records::rows::{rows_of, store_first};
use spelling::is_built_in;
use value::limits::{MOST_BYTES, MOST_NAMES, NAME_WORDS, TABLE_WORDS};

// Whether the built-in list is passed, and a row of 256 records. `names` is the length of the row.
#[tactic(auto, unfolding(crate::specs::Storing::row_fits))]
pub fn row_fits(list: &[u8], names: usize) -> bool
    ensures fits { result ≡ row_fits list.now names }
    ensures room { result ≡ true → names ≡ most_names }
{
    is_built_in(list) && names == MOST_NAMES
}

// How many records reading a source stores, where there is room for 256: none if it is turned away. `source` and `words` are the lengths of these.
#[tactic(auto, unfolding(crate::specs::Storing::stored_of))]
fn stored(source: usize, words: usize) -> usize
    ensures is { result ≡ stored_of source words }
    ensures few { result ≤ most_names }
{
    if words == TABLE_WORDS && source <= MOST_BYTES {
        MOST_NAMES
    } else {
        0
    }
}

// Stores the records of the flat words that reading a source leaves. `source` and `words` are the lengths of the source and of the table.
pub fn store_row(names: &mut [Name], flat: &[u32; NAME_WORDS], source: usize, words: usize)
    requires { length names.old ≡ most_names }
    ensures { names.new ≡ take (stored_of source words) (rows_of flat.now) ++ drop (stored_of source words) names.old }
{
    store_first(names, rows_of(flat), stored(source, words));
}
