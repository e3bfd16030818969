// The survey of a program.
ghost use Rattle.std.specs.Prelude.{◌≡◌, length};
ghost use Rattle.program.specs.Promises.Fitting.{Sized};
ghost use Rattle.run_indices.specs.Promises.Surveying.{Surveyed};

use crate::Survey;
use crate::walk::part;
use program::Rule;
use run_meaning::own_only;
use run_places::loops::Loops;

// The survey of a program, in one walk over its statements.
#[tactic(auto, using(crate::proofs::WalkLaws::survey_done))]
pub fn survey(words: &[u32], rule: Rule, sizes: &[u32]) -> Survey
    requires { Sized (length words.now) rule × (length sizes.now ≡ rule.dims) }
    ensures { Surveyed words.now rule sizes.now result }
{
    let mut all = Survey {
        far: None,
        reach: own_only(),
    };
    part(
        words,
        rule,
        sizes,
        &Loops::none(),
        rule.body,
        rule.tokens,
        &mut all,
    );
    all
}
