// One step of a run.
ghost use Rattle.std.specs.Prelude.{length};
ghost use Rattle.run_step.specs.Promises.Stepping.{SteppedFor};
ghost use Rattle.run_steps.specs.Promises.OneStep.{border_in, ToldBy, Steppable};

use crate::Bands;
use band_step::steps::step_under;
use program::Rule;
use run_step::Step;
use run_step::steps::step;
use value::limits::LEAF_WORDS;

// One step at a time, of the whole grid or by bands: then under the plan, with `shape` as the sizes of the room.
pub fn one_step(
    leaves: &[u32; LEAF_WORDS],
    words: &[u32],
    rule: Rule,
    sizes: &[u32],
    shape: &[u32],
    bands: Bands,
    plan: &[u32],
    grid: &mut [i32],
    scratch: &mut [i32],
    room: &mut [i32],
    marks: &[u8],
    time: u32,
    count: u64,
) -> Step
    requires { Steppable leaves.now words.now rule sizes.now shape.now bands plan.now grid.old scratch.old (length room.old) marks.now time count }
    ensures { SteppedFor (ToldBy bands.banded words.now rule (border_in bands)) rule sizes.now grid.old scratch.old marks.now time count result grid.new scratch.new }
{
    if bands.banded {
        return step_under(
            leaves,
            words,
            rule,
            sizes,
            shape,
            bands.row,
            bands.before,
            bands.behind,
            plan,
            grid,
            scratch,
            room,
            marks,
            time,
            count,
        );
    }
    step(
        leaves, words, rule, sizes, grid, scratch, marks, time, count,
    )
}
