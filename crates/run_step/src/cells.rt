// Evaluating one cell, with the count of the cells evaluated.
ghost use Rattle.std.specs.Prelude.{◌≡◌, true, ◌<◌, length};
ghost use Rattle.automaton.specs.Step.{marked};
ghost use Rattle.cell_statements.specs.Promises.Running.{Fit};
ghost use Rattle.run_step.specs.Promises.Turns.{CellsCounted, Turning, CellTurned};

use crate::Evaluation;
use cell_statements::cell::evaluate_cell;
use program::Rule;
use value::limits::{LEAF_WORDS, MOST_NAMES, MOST_OPEN};

// Evaluates a cell, and counts it: the count returned is one higher, at a fault too. A cell is evaluated in no other way.
fn evaluate_counted(
    leaves: &[u32; LEAF_WORDS],
    words: &[u32],
    rule: Rule,
    sizes: &[u32],
    point: &[u32],
    cell: usize,
    grid: &[i32],
    next: &mut [i32],
    vars: &mut [i32; MOST_NAMES],
    index: &mut [i32; MOST_OPEN],
    time: u32,
    count: u64,
) -> Evaluation
    requires { Fit leaves.now words.now rule sizes.now point.now cell grid.now (length next.old) time × (count < 18446744073709551615) }
    ensures { CellsCounted words.now rule sizes.now cell grid.now next.new time count result }
{
    let outcome = evaluate_cell(
        leaves, words, rule, sizes, point, cell, grid, next, vars, index, time,
    );
    Evaluation {
        count: count + 1,
        outcome,
    }
}

// Evaluates the cell `cell` of a grid into the part of `scratch` that the cell `to` has there. `point` is its coordinates.
pub fn evaluate_into(
    leaves: &[u32; LEAF_WORDS],
    words: &[u32],
    rule: Rule,
    sizes: &[u32],
    point: &[u32],
    cell: usize,
    to: usize,
    grid: &[i32],
    scratch: &mut [i32],
    vars: &mut [i32; MOST_NAMES],
    index: &mut [i32; MOST_OPEN],
    time: u32,
    count: u64,
) -> Evaluation
    requires { Turning leaves.now words.now rule sizes.now point.now cell to grid.now (length scratch.old) time count }
    ensures { CellTurned words.now rule sizes.now cell to grid.now scratch.old scratch.new time count result }
{
    let fields = rule.fields as usize;
    let from = to * fields;
    let end = from + fields;
    evaluate_counted(
        leaves,
        words,
        rule,
        sizes,
        point,
        cell,
        grid,
        &mut scratch[from..end],
        vars,
        index,
        time,
        count,
    )
}

// Evaluates a marked cell into its own part of `scratch`: a step evaluates in no other way.
pub fn evaluate_open(
    leaves: &[u32; LEAF_WORDS],
    words: &[u32],
    rule: Rule,
    sizes: &[u32],
    point: &[u32],
    cell: usize,
    grid: &[i32],
    scratch: &mut [i32],
    marks: &[u8],
    vars: &mut [i32; MOST_NAMES],
    index: &mut [i32; MOST_OPEN],
    time: u32,
    count: u64,
) -> Evaluation
    requires { (marked marks.now cell ≡ true) × Turning leaves.now words.now rule sizes.now point.now cell cell grid.now (length scratch.old) time count }
    ensures { CellTurned words.now rule sizes.now cell cell grid.now scratch.old scratch.new time count result }
{
    evaluate_into(
        leaves, words, rule, sizes, point, cell, cell, grid, scratch, vars, index, time, count,
    )
}
