// A grid that is read from a text: whole numbers, with blanks and line breaks between them.
ghost use Rattle.std.specs.Prelude.{◌≡◌, ◌≤◌, length, IfOk, IfErr};
ghost use Rattle.tool_console.specs.declared.arguments.Refusal.TheVariants.{Said};

use crate::arguments::{Argument, Refusal, refuse};
use crate::numbers::Number;
use crate::rooms::ROOM;
use crate::texts::{Source, fail, open_input};
use std::fmt;
use std::io::Read;

// Why a grid cannot be taken, and the line that says so: an entry is no number, or there are too many.
#[derive(Clone, Copy, Debug, PartialEq, Eq)]
enum GridFault {
    NoNumber { line: u64 },
    TooMany { line: u64 },
}

impl fmt::Display for GridFault {
    fn fmt<W: fmt::Write>(&self, f: &mut fmt::Formatter<W>) -> fmt::Result {
        match self {
            GridFault::NoNumber { line } => write!(
                f,
                "line {line}: an entry is not a whole number from -2147483648 to 2147483647"
            ),
            GridFault::TooMany { line } => write!(f, "line {line}: more than {ROOM} entries"),
        }
    }
}

// A grid as far as it is read: how many entries there are, the number that is being read, and the line it is in.
#[derive(Clone, Copy, Debug, PartialEq, Eq)]
struct Filling {
    count: usize,
    number: Number,
    line: u64,
}

impl Filling {
    // The number that is being read, if any, is an entry.
    fn ended(self, grid: &mut [i32]) -> Result<Filling, GridFault>
        requires { self.count ≤ length grid.old }
        ensures length { length grid.new ≡ length grid.old }
        ensures ok { IfOk result (λ f. f.count ≤ length grid.new) }
    {
        if self.number == Number::Before {
            return Ok(self);
        }
        let line = self.line;
        let Some(n) = self.number.value() else {
            return Err(GridFault::NoNumber { line });
        };
        if self.count >= grid.len() {
            return Err(GridFault::TooMany { line });
        }
        grid[self.count] = n;
        Ok(Filling {
            count: self.count + 1,
            number: Number::Before,
            line,
        })
    }

    // A byte more of a grid.
    fn next(self, b: u8, grid: &mut [i32]) -> Result<Filling, GridFault>
        requires { self.count ≤ length grid.old }
        ensures length { length grid.new ≡ length grid.old }
        ensures ok { IfOk result (λ f. f.count ≤ length grid.new) }
    {
        let line = self.line;
        if !matches!(b, b' ' | 9..=13) {
            let Some(number) = self.number.next(b) else {
                return Err(GridFault::NoNumber { line });
            };
            return Ok(Filling { number, ..self });
        }
        let filling = self.ended(grid)?;
        Ok(Filling {
            line: filling.line.wrapping_add(u64::from(b == b'\n')),
            ..filling
        })
    }

    // The bytes of a part of a file.
    fn part(self, text: &[u8], grid: &mut [i32]) -> Result<Filling, GridFault>
        requires { self.count ≤ length grid.old }
        ensures length { length grid.new ≡ length grid.old }
        ensures ok { IfOk result (λ f. f.count ≤ length grid.new) }
    {
        let mut filling = self;
        for b in text {
            filling = filling.next(*b, grid)?;
        }
        Ok(filling)
    }
}

// Reads a file. A proved loop has to end, and nothing says that a file does: the parts are counted up to a number that no file has.
fn read_parts(
    rt: &HostRuntime,
    file: &mut Source,
    name: &str,
    grid: &mut [i32],
) -> Result<usize, Refusal>
    ensures length { length grid.new ≡ length grid.old }
    ensures ok { IfOk result (λ n. n ≤ length grid.new) }
    ensures said { IfErr result (λ refusal. refusal ≡ Said) }
{
    let mut filling = Filling {
        count: 0,
        number: Number::Before,
        line: 1,
    };
    for _ in 0..u64::MAX {
        let mut buffer = io::buffer();
        let n = match file.read(&mut buffer) {
            Ok(n) => n,
            Err(error) => return Err(fail(rt, name.as_bytes(), &error)),
        };
        if n == 0 {
            break;
        }
        filling = match filling.part(&buffer[..n], grid) {
            Ok(filling) => filling,
            Err(fault) => return Err(refuse(rt, format_args!("{name}, {fault}\n"))),
        };
    }
    match filling.ended(grid) {
        Ok(filling) => Ok(filling.count),
        Err(fault) => Err(refuse(rt, format_args!("{name}, {fault}\n"))),
    }
}

// Puts the entries of the grid in a file at the start of a row; how many there are. If it cannot be taken, that is said, with the argument's name.
pub fn read_grid(
    rt: &HostRuntime,
    path: &[u8],
    name: &str,
    grid: &mut [i32],
) -> Result<usize, Refusal>
    ensures length { length grid.new ≡ length grid.old }
    ensures ok { IfOk result (λ n. n ≤ length grid.new) }
    ensures said { IfErr result (λ refusal. refusal ≡ Said) }
{
    let mut file = open_input(rt, path)?;
    read_parts(rt, &mut file, name, grid)
}

// Puts the entries of the grid that an argument names at the start of a row, as `read_grid` does.
#[inline(never)]
pub fn grid_argument(
    rt: &HostRuntime,
    argument: Argument,
    name: &str,
    grid: &mut [i32],
) -> Result<usize, Refusal>
    ensures length { length grid.new ≡ length grid.old }
    ensures ok { IfOk result (λ n. n ≤ length grid.new) }
    ensures said { IfErr result (λ refusal. refusal ≡ Said) }
{
    let mut path = io::buffer();
    read_grid(rt, argument.read(rt, &mut path), name, grid)
}
