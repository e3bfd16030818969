// Places put into a list, each once.
ghost use Rattle.std.specs.Prelude.{◌≡◌, not, ◌≤◌, length};
ghost use Rattle.value.specs.Limits.{most_dims};
ghost use Rattle.automaton.specs.Listed.{list_of};
ghost use Rattle.automaton.specs.Grid.{differ};
ghost use Rattle.cell_meaning.specs.Places.{has_place, add_place, add_places};
ghost use Rattle.run_meaning.specs.Promises.Fitting.{place_at, place_list};
ghost use Rattle.run_places.specs.Promises.Vectors.{vector_values};

use value::limits::{MOST_DIMS, MOST_PLACES, PLACES_LISTED};

// Whether two places are the same, by their first words.
// Kept: word by word. A comparison of slices is a call for every two places.
#[tactic(auto, using(crate::proofs::ListLaws::agreeing_not, crate::proofs::ListLaws::agreeing_done))]
fn same_place(a: &[u32; MOST_DIMS], b: &[u32; MOST_DIMS], dims: usize) -> bool
    requires { dims ≤ most_dims }
    ensures { result ≡ not (differ (vector_values a.now dims) (vector_values b.now dims)) }
{
    for d in 0..dims {
        if a[d] != b[d] {
            return false;
        }
    }
    true
}

// Whether a place is among others.
#[tactic(auto, using(crate::proofs::ListLaws::missing_start, crate::proofs::ListLaws::missing_more, crate::proofs::ListLaws::missing_found))]
fn has_place(places: &[[u32; MOST_DIMS]], place: &[u32; MOST_DIMS], dims: usize) -> bool
    requires { dims ≤ most_dims }
    ensures { result ≡ has_place (list_of (place_at places.now dims) (length places.now)) (vector_values place.now dims) }
{
    for listed in places {
        if same_place(listed, place, dims) {
            return true;
        }
    }
    false
}

// Adds a place to so many places, unless it is among them; returns how many there are then, over 256 if there would be too many.
#[tactic(auto, using(crate::proofs::ListLaws::add_past, crate::proofs::ListLaws::add_known, crate::proofs::ListLaws::add_full, crate::proofs::ListLaws::add_new))]
fn add_place(
    places: &mut [[u32; MOST_DIMS]; MOST_PLACES],
    count: u32,
    place: &[u32; MOST_DIMS],
    dims: usize,
) -> u32
    requires { dims ≤ most_dims }
    ensures { place_list places.new dims result ≡ add_place (place_list places.old dims count) (vector_values place.now dims) }
{
    if PLACES_LISTED < count {
        return count;
    }
    if has_place(&places[..count as usize], place, dims) {
        return count;
    }
    if PLACES_LISTED <= count {
        return 257;
    }
    places[count as usize] = *place;
    count + 1
}

// Adds the places of a list, in their order.
#[tactic(auto, using(crate::proofs::ListLaws::adding_start, crate::proofs::ListLaws::adding_more))]
pub fn add_places(
    places: &mut [[u32; MOST_DIMS]; MOST_PLACES],
    count: u32,
    list: &[[u32; MOST_DIMS]],
    dims: usize,
) -> u32
    requires { dims ≤ most_dims }
    ensures { place_list places.new dims result ≡ add_places (place_list places.old dims count) (list_of (place_at list.now dims) (length list.now)) }
{
    let mut count = count;
    for place in list {
        count = add_place(places, count, place, dims);
    }
    count
}
