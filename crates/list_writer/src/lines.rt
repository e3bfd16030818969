// The text of a list that leads from one grid to another: the time's line, and a line for each cell that differs.
ghost use Rattle.std.specs.Prelude.{◌≡◌, [], ◌∷◌, ◌++◌, ◌+◌, ◌<◌, ◌≤◌, length};
ghost use Rattle.std.proofs.Math.Option.{some};
ghost use Rattle.value.specs.Limits.{most_dims};
ghost use Rattle.list_meaning.specs.Writing.{cell_line, shown};
ghost use Rattle.list_writer.specs.Promises.Printing.{Put, Puts};
ghost use Rattle.list_writer.specs.Promises.Lines.{Leads, cell_change, all_changes, change_text};

use crate::printing::Room;
use run_marked_cells::points::set_point;
use run_marking::marks::differs;
use value::limits::MOST_DIMS;

// What a list is written of: the grids that it leads between, the number of the field that serves as flag, or the number of fields for none, the number
// of cells, and the time.
// Kept: a number for no flag, as `flag_of` promises it.
#[derive(Clone, Copy, Debug)]
pub struct Change<'a> {
    pub sizes: &'a [u32],
    pub fields: usize,
    pub flag: usize,
    pub earlier: &'a [i32],
    pub later: &'a [i32],
    pub cells: usize,
    pub time: u32,
}

// Puts what is between the coordinates of a cell and its values.
fn put_between(room: &mut Room<'_>)
    requires { room.old.at + 4 ≤ 4294967296 }
    ensures same_reference { room.new.bytes.ghost_name ≡ room.old.bytes.ghost_name }
    ensures puts { Put room.old (93 ∷ 32 ∷ 61 ∷ 32 ∷ []) room.new }
{
    room.push(b']');
    room.push(b' ');
    room.push(b'=');
    room.push(b' ');
}

// Puts the line of a cell with these coordinates and values.
fn put_line(room: &mut Room<'_>, point: &[u32], values: &[i32], flag: usize)
    requires { (length point.now ≤ most_dims) × (length values.now ≤ 64) × (room.old.at + 1000 ≤ 4294967296) }
    ensures same_reference { room.new.bytes.ghost_name ≡ room.old.bytes.ghost_name }
    ensures puts { Put room.old (cell_line point.now (shown (some flag) values.now) ++ 10 ∷ []) room.new }
{
    room.push(b'[');
    room.numbers(point);
    put_between(room);
    room.values(values, flag);
    room.push(b'\n');
}

// Puts the line of a cell, if it differs. `point` is memory for its coordinates.
fn put_changed(room: &mut Room<'_>, point: &mut [u32], change: &Change<'_>, c: usize)
    requires { Leads change.now × (length point.old ≡ length change.now.sizes.now) × (c < change.now.cells) × (room.old.at + 1000 ≤ 4294967296) }
    ensures same_reference { room.new.bytes.ghost_name ≡ room.old.bytes.ghost_name }
    ensures puts { Put room.old (cell_change change.now c) room.new }
{
    let fields = change.fields;
    if !differs(change.earlier, change.later, fields, c) {
        return;
    }
    set_point(change.sizes, c as u32, point);
    let from = c * fields;
    put_line(room, point, &change.later[from..from + fields], change.flag);
}

// Puts the lines of all cells that differ.
fn put_cells(room: &mut Room<'_>, point: &mut [u32], change: &Change<'_>)
    requires { Leads change.now × (length point.old ≡ length change.now.sizes.now) × (room.old.at ≤ 1000) }
    ensures same_reference { room.new.bytes.ghost_name ≡ room.old.bytes.ghost_name }
    ensures puts { Put room.old (all_changes change.now change.now.cells) room.new }
{
    for c in 0..change.cells {
        put_changed(room, point, change, c);
    }
}

// Puts the whole text.
fn put_text(room: &mut Room<'_>, change: &Change<'_>)
    requires { Leads change.now × (room.old.at ≤ 900) }
    ensures same_reference { room.new.bytes.ghost_name ≡ room.old.bytes.ghost_name }
    ensures puts { Put room.old (change_text change.now) room.new }
{
    let mut point = [0u32; MOST_DIMS];
    room.number(change.time);
    room.push(b'\n');
    put_cells(room, &mut point[..change.sizes.len()], change);
}

// Puts the whole text at the front of a room, as far as the room goes, and returns its length.
pub fn put_list(bytes: &mut [u8], change: &Change<'_>) -> usize
    requires { Leads change.now }
    ensures { Puts bytes.old 0 (change_text change.now) bytes.new result }
{
    let mut room = Room::new(bytes);
    put_text(&mut room, change);
    room.count()
}

// The length of the text: it is put into a room without a byte, which only counts it.
pub fn text_length(change: &Change<'_>) -> usize
    requires { Leads change.now }
    ensures { result ≡ length (change_text change.now) }
{
    put_list(&mut [], change)
}
