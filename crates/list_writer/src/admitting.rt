// The writer's checks: both grids as for a run of 0 steps, under each number the earlier one first.
ghost use Rattle.std.specs.Prelude.{◌≡◌, ◌<◌, length};
ghost use Rattle.program.specs.Promises.Fitting.{Sized};
ghost use Rattle.list_writer.specs.WriterCalls.{wanted};
ghost use Rattle.list_writer.specs.Promises.Admitting.{CountsCells, AdmitsGrid, LowerOf, AdmitsBoth};

use program::Rule;
use program::reply::Refusal;
use run_admission::{admit, cells};
use value::limits::MOST_DIMS;

// The number of cells of a grid with these sizes, where a run could have them.
pub fn cell_count(sizes: &[u32]) -> usize
    ensures { CountsCells sizes.now result }
{
    if MOST_DIMS < sizes.len() {
        return 0;
    }
    cells(sizes) as usize
}

// A grid is checked. `count` is the number of cells.
fn admit_grid(
    words: &[u32],
    rule: Rule,
    sizes: &[u32],
    grid: &[i32],
    count: usize,
    time: i64,
) -> Result<(), Refusal>
    requires { (Sized (length words.now) rule) × (0 < rule.fields) }
    ensures { AdmitsGrid words.now rule sizes.now grid.now count time result }
{
    admit(words, rule, sizes, grid, grid.len(), count, time, 0)?;
    Ok(())
}

// The refusal with the lower number, the first where they are the same.
#[tactic(auto, using(crate::proofs::AdmittingLaws::Lower))]
fn lower_of(first: Result<(), Refusal>, second: Result<(), Refusal>) -> Result<(), Refusal>
    ensures { LowerOf first second result }
{
    let Err(a) = first else {
        return second;
    };
    match second {
        Err(b) if b.number < a.number => second,
        _ => first,
    }
}

// Both grids are checked.
pub fn admit_both(
    words: &[u32],
    rule: Rule,
    sizes: &[u32],
    earlier: &[i32],
    later: &[i32],
    count: usize,
    time: i64,
) -> Result<(), Refusal>
    requires { (Sized (length words.now) rule) × (0 < rule.fields) × CountsCells sizes.now count }
    ensures { AdmitsBoth words.now rule (wanted sizes.now earlier.now later.now time) count result }
{
    let first = admit_grid(words, rule, sizes, earlier, count, time);
    let second = admit_grid(words, rule, sizes, later, count, time);
    lower_of(first, second)
}
