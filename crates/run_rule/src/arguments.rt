// What the program is called with, and the request of a run that it makes.
use run_steps::Manner;
use tool_console::arguments::{Argument, Refusal, WORD, refuse};
use tool_console::numbers::{count_in, value_in};
use tool_console::shapes::{Sizes, shape_argument};
use tool_console::texts::{Target, open_output, read_file};

const USAGE: &str =
    "usage: run_rule RULE SHAPE START STEPS full|quiet|pause|resume GRID OUT [LIST [CHANGES [PAUSE]]] [--rows R] [--zeros FIELD]
  RULE     the file of the rule
  SHAPE    the sizes of the grid, joined by x, as 8x8 or 5 or 2x3x4
  START    the time of the first step
  STEPS    how many steps to run
  full     evaluates every cell in every step, quiet the open cells alone
  pause    is a quiet run that can be resumed, resume one that goes on from PAUSE
  GRID     the file of the grid's entries, - for standard input
  OUT      the file to write the grid to, - for standard output
  LIST     the file of a value list, - for none
  CHANGES  the file to write the list of changes to, - for none
  PAUSE    the file of the open cells, which resume reads, and pause and resume write
  R        how many rows can be held: the run is made of bands of rows, each evaluated by these rows alone
  FIELD    the name of a field: how many cells are left with 0 in it is said
";

// The arguments, each by its name. A file that is left out is not there, also where `-` stands in its place.
#[derive(Clone, Copy, Debug, PartialEq, Eq)]
pub struct Call {
    pub rule: Argument,
    pub shape: Argument,
    pub start: Argument,
    pub steps: Argument,
    pub manner: Argument,
    pub grid: Argument,
    pub out: Argument,
    pub list: Option<Argument>,
    pub changes: Option<Argument>,
    pub pause: Option<Argument>,
    pub rows: Option<Argument>,
    pub zeros: Option<Argument>,
}

// The request of a run: the time it starts at, the steps, its manner, the number of the field whose zeros are counted, if they are, and how many rows can be
// held, if it is made of bands of rows.
#[derive(Clone, Copy, Debug, PartialEq, Eq, Hash)]
pub struct Order {
    pub start: i64,
    pub steps: i64,
    pub manner: Manner,
    pub zeros: Option<u32>,
    pub held: Option<u32>,
}

// The arguments before the options, and the values of the options.
#[derive(Clone, Copy, Debug)]
struct Split<'a> {
    plain: &'a [Argument],
    rows: Option<Argument>,
    zeros: Option<Argument>,
}

// Takes the options off the end of the arguments; nothing if one is there twice.
fn without_options<'a>(rt: &HostRuntime, arguments: &'a [Argument]) -> Option<Split<'a>> {
    let mut plain = arguments;
    let mut rows = None;
    let mut zeros = None;
    // An option follows the arguments that have to be there, and none is there three times.
    for _ in 0..3 {
        let Some((before, [option, value])) = plain.split_last_chunk::<2>() else {
            break;
        };
        let mut buffer = [0u8; WORD];
        let taken = match option.read(rt, &mut buffer) {
            b"--rows" => &mut rows,
            b"--zeros" => &mut zeros,
            _ => break,
        };
        if before.len() < 8 {
            break;
        }
        if taken.is_some() {
            return None;
        }
        *taken = Some(*value);
        plain = before;
    }
    Some(Split { plain, rows, zeros })
}

// The argument that names a file, if it is there, and is not `-`.
fn given(rt: &HostRuntime, argument: Option<&Argument>) -> Option<Argument> {
    let path = *argument?;
    if path.is(rt, b"-") { None } else { Some(path) }
}

// The arguments by their names, if all are there and none is over, and no option is there twice.
fn named(rt: &HostRuntime, arguments: &[Argument]) -> Option<Call> {
    let Split { plain, rows, zeros } = without_options(rt, arguments)?;
    let [_, rule, shape, start, steps, manner, grid, out, files @ ..] = plain else {
        return None;
    };
    if files.len() > 3 {
        return None;
    }
    Some(Call {
        rule: *rule,
        shape: *shape,
        start: *start,
        steps: *steps,
        manner: *manner,
        grid: *grid,
        out: *out,
        list: given(rt, files.first()),
        changes: given(rt, files.get(1)),
        pause: given(rt, files.get(2)),
        rows,
        zeros,
    })
}

// The arguments by their names. If they are wrong, how to call the program is said.
pub fn read_call(rt: &HostRuntime, arguments: &[Argument]) -> Result<Call, Refusal> {
    match named(rt, arguments) {
        Some(call) => Ok(call),
        None => Err(refuse(rt, USAGE)),
    }
}

// The value that an argument is. If it is none, that is said, with the argument's name.
fn number_argument(rt: &HostRuntime, argument: Argument, name: &str) -> Result<i64, Refusal> {
    let mut buffer = [0u8; WORD];
    match value_in(argument.read(rt, &mut buffer)) {
        Some(n) => Ok(i64::from(n)),
        None => Err(refuse(
            rt,
            format_args!("run_rule: {name} is not a whole number from -2147483648 to 2147483647\n"),
        )),
    }
}

// The manner that an argument names.
fn manner_argument(rt: &HostRuntime, argument: Argument) -> Option<Manner> {
    let mut buffer = [0u8; WORD];
    match argument.read(rt, &mut buffer) {
        b"full" => Some(Manner::Full),
        b"quiet" => Some(Manner::Quiet),
        b"pause" => Some(Manner::Pausing),
        b"resume" => Some(Manner::Resuming),
        _ => None,
    }
}

// How many rows can be held, by the value of `--rows`. If it is wrong, or the run is not a full one, that is said.
fn rows_held(rt: &HostRuntime, rows: Argument, manner: Manner) -> Result<u32, Refusal> {
    let mut buffer = [0u8; WORD];
    let Some(held) = count_in(rows.read(rt, &mut buffer)) else {
        return Err(refuse(
            rt,
            "run_rule: R is not a whole number from 0 to 2147483647\n",
        ));
    };
    match manner {
        Manner::Full => Ok(held),
        _ => Err(refuse(rt, "run_rule: --rows is for full alone\n")),
    }
}

impl Call {
    // The request of a run, without the zeros. If an argument is wrong, that is said.
    #[inline(never)]
    pub fn order(&self, rt: &HostRuntime) -> Result<Order, Refusal> {
        let start = number_argument(rt, self.start, "START")?;
        let steps = number_argument(rt, self.steps, "STEPS")?;
        let Some(manner) = manner_argument(rt, self.manner) else {
            return Err(refuse(
                rt,
                "run_rule: the fifth argument is none of full, quiet, pause and resume\n",
            ));
        };
        let held = match self.rows {
            Some(rows) => Some(rows_held(rt, rows, manner)?),
            None => None,
        };
        Ok(Order {
            start,
            steps,
            manner,
            zeros: None,
            held,
        })
    }
}

// The shape of the grid. If it is none, that is said. This function and the next ones are not inlined, so that their rooms are free again when a run takes its own.
#[inline(never)]
pub fn read_shape(rt: &HostRuntime, call: &Call) -> Result<Sizes, Refusal> {
    let mut buffer = [0u8; WORD];
    shape_argument(rt, call.shape.read(rt, &mut buffer), "run_rule: SHAPE")
}

// Reads the file that an argument names, as much as there is room for. If it cannot be read, that is said, with the argument's name.
#[inline(never)]
pub fn file_argument<'a>(
    rt: &HostRuntime,
    argument: Argument,
    name: &str,
    room: &'a mut [u8],
) -> Result<&'a [u8], Refusal> {
    let mut path = io::buffer();
    read_file(rt, argument.read(rt, &mut path), name, room)
}

// Opens the file that an argument names to write it anew, `-` for standard output.
#[inline(never)]
pub fn output_argument(rt: &HostRuntime, argument: Argument) -> Result<Target, Refusal> {
    let mut path = io::buffer();
    open_output(rt, argument.read(rt, &mut path))
}
