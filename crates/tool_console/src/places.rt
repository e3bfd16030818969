// Places in a source as lines and columns, and cells as coordinates.
use std::fmt;

// A line and a column, counted from 1.
#[derive(Clone, Copy, Debug, PartialEq, Eq)]
pub struct Position {
    pub line: usize,
    pub column: usize,
}

// Whether a line ends with a byte of a source: a line feed, or a carriage return with none after it.
fn ends_line(source: &[u8], i: usize) -> bool {
    match source.get(i..).unwrap_or(&[]) {
        [b'\r', b'\n', ..] => false,
        [b'\r' | b'\n', ..] => true,
        _ => false,
    }
}

impl Position {
    // The position of a byte of a source.
    pub fn of(source: &[u8], place: usize) -> Position {
        let ends = |i: &usize| ends_line(source, *i);
        let lines = (0..place).filter(ends).count();
        let bytes = (0..place).rev().take_while(|i| !ends(i)).count();
        Position {
            line: lines.saturating_add(1),
            column: bytes.saturating_add(1),
        }
    }
}

impl fmt::Display for Position {
    fn fmt<W: fmt::Write>(&self, f: &mut fmt::Formatter<W>) -> fmt::Result {
        let Position { line, column } = *self;
        write!(f, "line {line}, column {column}")
    }
}

// A cell of a grid by its number, written as its coordinates.
#[derive(Clone, Copy, Debug, PartialEq, Eq)]
pub struct Cell<'a> {
    pub number: u32,
    pub sizes: &'a [u32],
}

impl Cell<'_> {
    // The coordinate in a dimension.
    fn coordinate(&self, dimension: usize) -> u32 {
        let mut rest = self.number;
        let mut at = 0;
        for size in self.sizes.iter().skip(dimension).rev() {
            at = rest.checked_rem(*size).unwrap_or(0);
            rest = rest.checked_div(*size).unwrap_or(0);
        }
        at
    }
}

impl fmt::Display for Cell<'_> {
    fn fmt<W: fmt::Write>(&self, f: &mut fmt::Formatter<W>) -> fmt::Result {
        f.write_str("[")?;
        for i in 0..self.sizes.len() {
            if i > 0 {
                f.write_str(",")?;
            }
            let at = self.coordinate(i);
            write!(f, "{at}")?;
        }
        f.write_str("]")
    }
}

// An entry of a grid by its number, where a cell has so many fields, written as its cell and its field.
#[derive(Clone, Copy, Debug, PartialEq, Eq)]
pub struct Entry<'a> {
    pub number: u32,
    pub sizes: &'a [u32],
    pub fields: u32,
}

impl Entry<'_> {
    // The number of the field.
    pub fn field(&self) -> u32 {
        self.number.checked_rem(self.fields).unwrap_or(0)
    }
}

impl fmt::Display for Entry<'_> {
    fn fmt<W: fmt::Write>(&self, f: &mut fmt::Formatter<W>) -> fmt::Result {
        let cell = Cell {
            number: self.number.checked_div(self.fields).unwrap_or(0),
            sizes: self.sizes,
        };
        let field = self.field();
        write!(f, "cell {cell}, field {field}")
    }
}
