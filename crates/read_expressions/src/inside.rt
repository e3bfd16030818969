// Where a part of a program is read: in which cell, and inside how many loops and brackets.
ghost use Rattle.std.specs.Prelude.{◌≡◌, ◌+◌, ◌≤◌};
ghost use Rattle.value.specs.Limits.{most_open};

use crate::Cell;
use value::limits::MOST_OPEN;

// In a cell, inside so many loops, where so many more `if`, `forall` and brackets may be open.
#[derive(Clone, Copy, Debug, PartialEq, Eq)]
pub struct Inside {
    pub cell: Cell,
    pub loops: u32,
    pub free: u32,
    pub ghost few: { loops + free ≤ most_open },
}

impl Inside {
    ghost use Rattle.read_expressions.specs.Promises.Opening.{Entered};

    // Inside the cell alone.
    pub fn new(cell: Cell) -> Inside
        ensures { (result.cell ≡ cell) × (result.loops ≡ 0) × (result.free ≡ most_open) }
    {
        Inside {
            cell,
            loops: 0,
            free: MOST_OPEN as u32,
        }
    }

    // Inside one more `if` or bracket, where one more may be open.
    pub fn opened(self) -> Option<Inside>
        ensures { Entered self.loops self result }
    {
        Some(Inside {
            cell: self.cell,
            loops: self.loops,
            free: self.free.checked_sub(1)?,
        })
    }

    // Inside one more loop, where one more may be open.
    pub fn looped(self) -> Option<Inside>
        ensures { Entered (self.loops + 1) self result }
    {
        Some(Inside {
            cell: self.cell,
            free: self.free.checked_sub(1)?,
            loops: self.loops + 1,
        })
    }
}
