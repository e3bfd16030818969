#![tactic(auto)]

// Compares two grids, called as
//     compare_grids LEFT RIGHT [SHAPE]
// It writes how many entries differ, and the first of these, to standard output. Where an argument or a file cannot be taken it says so on
// standard error, and writes nothing else.

mod telling;

use api_comparison::compare;
use tool_console::arguments::{Argument, Refusal, WORD, given_arguments, refuse};
use tool_console::grids::grid_argument;
use tool_console::rooms::{ROOM, room};
use tool_console::shapes::{Sizes, cells_of, fields_of, shape_argument};

const USAGE: &str = "usage: compare_grids LEFT RIGHT [SHAPE]
  LEFT   the file of a grid's entries, - for standard input
  RIGHT  the file of the other grid's entries, - for standard input
  SHAPE  the sizes of the grids, joined by x, as 8x8 or 5 or 2x3x4
";

// Compares two grids, and writes what differs. Without sizes no cell is named.
fn compare_and_tell(
    rt: &HostRuntime,
    left: &[i32],
    right: &[i32],
    sizes: &[u32],
) -> Result<(), Refusal> {
    let mut room = [0i32; 60];
    let Ok(total) = compare(left, right, 20, &mut room) else {
        telling::tell_lengths(rt, left.len(), right.len());
        return Ok(());
    };
    let cells = cells_of(sizes);
    if left.len().checked_rem(cells) != Some(0) {
        let entries = left.len();
        return Err(refuse(
            rt,
            format_args!(
                "compare_grids: the cells of SHAPE do not share the {entries} entries of a grid evenly\n"
            ),
        ));
    }
    telling::tell_total(rt, total, left.len());
    telling::tell_differences(rt, &room, total, sizes, fields_of(left.len(), cells));
    telling::tell_more(rt, total);
    Ok(())
}

// Reads the grids, and compares them. Both rooms are made before a grid is read, so that no room is made in a place of its own and moved: a third would be more
// than the stack has.
fn compare_in_shape(
    rt: &HostRuntime,
    left: Argument,
    right: Argument,
    sizes: &[u32],
) -> Result<(), Refusal> {
    let mut lefts: [i32; ROOM] = room(0);
    let mut rights: [i32; ROOM] = room(0);
    let some = grid_argument(rt, left, "compare_grids: LEFT", &mut lefts)?;
    let others = grid_argument(rt, right, "compare_grids: RIGHT", &mut rights)?;
    compare_and_tell(rt, &lefts[..some], &rights[..others], sizes)
}

// The shape that an argument is. If it is none, that is said.
fn read_shape(rt: &HostRuntime, argument: Argument) -> Result<Sizes, Refusal> {
    let mut buffer = [0u8; WORD];
    shape_argument(rt, argument.read(rt, &mut buffer), "compare_grids: SHAPE")
}

// Takes the shape, if there is one.
fn compare_files(
    rt: &HostRuntime,
    left: Argument,
    right: Argument,
    shape: Option<Argument>,
) -> Result<(), Refusal> {
    if left.is(rt, b"-") && right.is(rt, b"-") {
        return Err(refuse(
            rt,
            "compare_grids: LEFT and RIGHT cannot both be standard input\n",
        ));
    }
    match shape {
        None => compare_in_shape(rt, left, right, &[]),
        Some(argument) => {
            let sizes = read_shape(rt, argument)?;
            compare_in_shape(rt, left, right, sizes.as_slice())
        }
    }
}

// Takes the arguments.
fn compare_grids(rt: &HostRuntime) -> Result<(), Refusal> {
    let given = given_arguments(rt);
    match given.as_slice() {
        [_, left, right] => compare_files(rt, *left, *right, None),
        [_, left, right, shape] => compare_files(rt, *left, *right, Some(*shape)),
        _ => Err(refuse(rt, USAGE)),
    }
}

// What goes wrong has been said when it ends.
fn main(rt: HostRuntime) {
    let _ = compare_grids(&rt);
}
