// A reach widened by that of one relative index.
ghost use Rattle.std.specs.Prelude.{◌≤◌};
ghost use Rattle.value.specs.Limits.{most_dims};
ghost use Rattle.run_places.specs.Promises.Widening.{Widens};

use crate::listing::add_places;
use run_meaning::Reach;
use value::limits::PLACES_LISTED;

// A reach is widened in place: the places of a relative index are added to its own, and it takes the bounds given there.
#[tactic(auto, using(crate::proofs::ListLaws::widens_past, crate::proofs::ListLaws::widens_more))]
pub fn widen(reach: &mut Reach, index: &Reach, dims: usize)
    requires { dims ≤ most_dims }
    ensures { Widens reach.old index.now dims reach.new }
{
    reach.bounds = index.bounds;
    if PLACES_LISTED < index.count {
        reach.count = 257;
        return;
    }
    let list = &index.places[..index.count as usize];
    reach.count = add_places(&mut reach.places, reach.count, list, dims);
}
