// The coordinates of the cells in rising order.
ghost use Rattle.std.specs.Prelude.{◌+◌, length};
ghost use Rattle.automaton.specs.Shape.{cell_number};
ghost use Rattle.automaton.specs.Promises.ShapeLaws.{Inside};
ghost use Rattle.run_marked_cells.specs.Promises.Marked.{PointFits, PointSet, Moving};

// Writes the coordinates of a cell, the last dimension's first.
pub fn set_point(sizes: &[u32], cell: u32, point: &mut [u32])
    requires { PointFits sizes.now (length point.old) }
    ensures { PointSet sizes.now cell point.new }
{
    let mut rest = cell;
    for k in (0..sizes.len()).rev() {
        point[k] = rest % sizes[k];
        rest /= sizes[k];
    }
}

// Counts coordinates up by one cell, the last dimension first: one that is full starts again at 0, and the one before it goes up.
fn advance(sizes: &[u32], point: &mut [u32])
    requires { Inside sizes.now point.old }
    ensures { PointSet sizes.now (cell_number sizes.now point.old + 1) point.new }
{
    for k in (0..sizes.len()).rev() {
        let up = point[k] + 1;
        if up < sizes[k] {
            point[k] = up;
            return;
        }
        point[k] = 0;
    }
}

// From the coordinates of a cell to those of a later one: counted up where it is the next, without a division.
pub fn move_point(sizes: &[u32], cell: usize, after: usize, point: &mut [u32])
    requires { Moving sizes.now cell after point.old }
    ensures { PointSet sizes.now after point.new }
{
    if after == cell + 1 {
        advance(sizes, point);
    } else {
        set_point(sizes, after as u32, point);
    }
}
