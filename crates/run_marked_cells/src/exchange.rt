// Exchanging the fields of the marked cells between two grids.
ghost use Rattle.std.specs.Prelude.{length};
ghost use Rattle.run_marked_cells.specs.Promises.Marked.{Exchanging, Exchanged};

use crate::scan::{next_marked, run_end};

// Exchanges the fields of the marked cells of two grids, those of neighbouring marked cells together.
pub fn exchange_marked(a: &mut [i32], b: &mut [i32], marks: &[u8], fields: usize)
    requires { Exchanging (length a.old) (length b.old) (length marks.now) fields }
    ensures { Exchanged fields marks.now a.old b.old a.new × Exchanged fields marks.now b.old a.old b.new }
{
    // Kept: a walk from one run of marked cells to the next, no index.
    let mut cell = next_marked(marks, 0);
    while cell < marks.len() {
        let past = run_end(marks, cell);
        a[cell * fields..past * fields].swap_with_slice(&mut b[cell * fields..past * fields]);
        cell = next_marked(marks, past);
    }
}
