// The shape of a grid: its sizes, as `8x8`.
ghost use Rattle.std.specs.Prelude.{◌≡◌, ◌≤◌, length, min, IfErr};
ghost use Rattle.tool_console.specs.declared.arguments.Refusal.TheVariants.{Said};

use crate::arguments::{Refusal, refuse, word};
use crate::numbers::Number;
use crate::rooms::ROOM;
use value::limits::MOST_DIMS;

// The sizes of a grid, one for each dimension.
#[derive(Clone, Copy, Debug, PartialEq, Eq)]
pub struct Sizes {
    sizes: [u32; MOST_DIMS],
    dims: usize,
}

impl Sizes {
    // No sizes yet.
    fn new() -> Sizes {
        Sizes {
            sizes: [0; MOST_DIMS],
            dims: 0,
        }
    }

    // Adds a size, if there are not as many as a grid may have.
    fn push(&mut self, size: u32) -> Option<()> {
        *self.sizes.get_mut(self.dims)? = size;
        self.dims += 1;
        Some(())
    }

    // The sizes in their order.
    pub fn as_slice(&self) -> &[u32]
        ensures most { length result.now ≤ 3 }
        ensures count { length result.now ≡ min self.now.dims 3 }
    {
        &self.sizes[..self.dims.min(MOST_DIMS)]
    }
}

// The size that a text is: digits alone.
fn size_in(text: &[u8]) -> Option<u32> {
    match Number::read(text)? {
        Number::Digits { size, .. } if text.first().is_some_and(|b| b.is_ascii_digit()) => {
            Some(size)
        }
        _ => None,
    }
}

// The shape that a text is.
fn sizes_in(text: &[u8]) -> Option<Sizes> {
    let mut sizes = Sizes::new();
    for part in text.split(|b| *b == b'x') {
        sizes.push(size_in(part)?)?;
    }
    Some(sizes)
}

// The shape that an argument is. If it is none, that is said, with the argument's name.
pub fn shape_argument(rt: &HostRuntime, argument: &[u8], name: &str) -> Result<Sizes, Refusal>
    ensures said { IfErr result (λ refusal. refusal ≡ Said) }
{
    match sizes_in(word(argument)) {
        Some(sizes) => Ok(sizes),
        None => Err(refuse(
            rt,
            format_args!("{name} is not one to three sizes joined by x, as 8x8 or 5 or 2x3x4\n"),
        )),
    }
}

// The product of two numbers. If the first is over the room, the result is the first.
fn times(n: usize, size: u32) -> usize {
    if n > ROOM { n } else { n * size as usize }
}

// How many cells a shape has; over the room any such number.
pub fn cells_of(sizes: &[u32]) -> usize {
    sizes.iter().fold(1, |cells, size| times(cells, *size))
}

// How many fields a cell of a grid has, if its entries are shared out evenly, else 1.
pub fn fields_of(entries: usize, cells: usize) -> usize {
    if entries.checked_rem(cells) == Some(0) {
        entries / cells
    } else {
        1
    }
}

// How many entries a row of the last dimension has.
pub fn row(sizes: &[u32], entries: usize, cells: usize) -> usize {
    match sizes.last() {
        Some(size) => times(fields_of(entries, cells), *size),
        None => entries,
    }
}

// How many rows of the first dimension there are.
pub fn rows_of(sizes: &[u32]) -> u32 {
    sizes.first().copied().unwrap_or(0)
}

// How many entries so many rows of the first dimension have; over the room any such number.
pub fn entries_of_rows(sizes: &[u32], entries: usize, rows: u32) -> usize {
    let all = rows_of(sizes) as usize;
    entries.checked_div(all).map_or(0, |row| times(row, rows))
}
