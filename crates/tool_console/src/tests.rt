// What no contract says.
use crate::arguments::{Refusal, arguments, end, given_arguments, refuse};
use crate::grids::{grid_argument, read_grid};
use crate::numbers::{count_in, value_in};
use crate::places::{Cell, Entry, Position};
use crate::replies::Reply;
use crate::shapes::shape_argument;
use crate::texts::{fail, open_input, open_output, read_file};
use std::alloc::AllocError;
use std::io::{Error, ErrorKind};
use std::test::Fail;

#[test]
fn numbers(rt: HostRuntime) {
    assert_eq!(rt; value_in(b"+5"), Some(5));
    assert_eq!(rt; value_in(b"-0"), Some(0));
    assert_eq!(rt; value_in(b"-2147483648"), Some(-2147483648));
    assert_eq!(rt; value_in(b"2147483648"), None);
    assert_eq!(rt; value_in(b"--"), None);
    assert_eq!(rt; value_in(b""), None);
    assert_eq!(rt; value_in(b"5 "), None);
    assert_eq!(rt; count_in(b"-0"), Some(0));
    assert_eq!(rt; count_in(b"-1"), None);
}

#[test]
fn places(rt: HostRuntime) -> Result<(), Fail> {
    let position = Position::of(b"a\r\nb\rc\nd", 5);
    assert_eq!(rt; position, Position { line: 3, column: 1 });
    let sizes = [2, 3];
    let cell = Cell {
        number: 5,
        sizes: &sizes,
    };
    let entry = Entry {
        number: 11,
        sizes: &sizes,
        fields: 2,
    };
    let text = format!(in rt.alloc(); "{position}, {cell}, {entry}")?;
    assert_eq!(rt;
        text.as_str(),
        "line 3, column 1, [1,2], cell [1,2], field 1"
    );
    Ok(())
}

#[test]
fn replies(rt: HostRuntime) -> Result<(), Fail> {
    let reply = Reply(31);
    assert!(rt; reply.is_fault() && reply.has_begun() && reply.has_place() && !reply.has_line());
    let text = format!(in rt.alloc(); "{reply}")?;
    assert_eq!(rt; text.as_str(), "a divisor is zero");
    Ok(())
}

// What asks for memory gets it.
#[test]
fn memory(rt: HostRuntime) -> Result<(), Fail> {
    assert!(rt; !arguments(&rt)?.is_empty());
    Ok(())
}

// The given arguments need no memory, and the program's own name is there.
#[test]
fn given(rt: HostRuntime) {
    assert!(rt; !given_arguments(&rt).as_slice().is_empty());
}

// What cannot be taken has been said, and is no lack of memory.
#[test]
fn refusals(rt: HostRuntime) {
    let mut text = [0u8; 4];
    let mut grid = [0i32; 4];
    let missing = Error::from(ErrorKind::NotFound);
    assert_eq!(rt; refuse(&rt, "refused\n"), Refusal::Said);
    assert_eq!(rt; fail(&rt, b"missing", &missing), Refusal::Said);
    assert!(rt; matches!(open_input(&rt, b""), Err(Refusal::Said)));
    assert!(rt; matches!(open_output(&rt, b""), Err(Refusal::Said)));
    assert!(rt; matches!(read_file(&rt, b"", "RULE", &mut text), Err(Refusal::Said)));
    assert!(rt; matches!(read_grid(&rt, b"", "GRID", &mut grid), Err(Refusal::Said)));
    assert!(rt; matches!(shape_argument(&rt, b"8y8", "SHAPE"), Err(Refusal::Said)));
    let given = given_arguments(&rt);
    let read = match given.as_slice() {
        [own, ..] => grid_argument(&rt, *own, "GRID", &mut grid),
        [] => Ok(0),
    };
    assert_eq!(rt; read, Err(Refusal::Said));
}

// Only a lack of memory is an error of a program.
#[test]
fn ends(rt: HostRuntime) {
    assert!(rt; end(Ok(())).is_ok());
    assert!(rt; end(Err(Refusal::Said)).is_ok());
    let lack = end(Err(Refusal::from(AllocError)));
    assert!(rt; lack.is_err_and(|error| error.kind() == ErrorKind::OutOfMemory));
}
