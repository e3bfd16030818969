// Whether a run is admitted.
ghost use Rattle.std.specs.Prelude.{◌≡◌, ◌<◌, length};
ghost use Rattle.program.specs.Promises.Fitting.{Sized};
ghost use Rattle.run_admission.specs.Promises.Admitting.{Admits};

use crate::{out_of_field, refused_request};
use program::Rule;
use program::reply::{Reason, Refusal};
use run_indices::surveying::survey;
use run_meaning::Reach;

// Whether a run is admitted, with the program's reach: else the first refusal of 20 to 24. `scratch` and `marks` are the lengths of these.
pub fn admit(
    words: &[u32],
    rule: Rule,
    sizes: &[u32],
    grid: &[i32],
    scratch: usize,
    marks: usize,
    start: i64,
    steps: i64,
) -> Result<Reach, Refusal>
    requires { (Sized (length words.now) rule) × (0 < rule.fields) }
    ensures { Admits words.now rule sizes.now grid.now scratch marks start steps result }
{
    if let Err(reason) = refused_request(rule, sizes, grid.len(), scratch, marks, start, steps) {
        return Err(Refusal::new(reason, 0));
    }
    let indices = survey(words, rule, sizes);
    if let Some(place) = indices.far {
        return Err(Refusal::new(Reason::LargeIndex, place));
    }
    out_of_field(words, rule, grid)?;
    Ok(indices.reach)
}
