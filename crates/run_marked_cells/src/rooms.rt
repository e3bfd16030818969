// Marks that are lent, and numbers copied.
ghost use Rattle.std.specs.Prelude.{◌≡◌, length};
ghost use Rattle.automaton.specs.Step.{marked, marks_of};

// Makes each mark that is not 0 a 1.
pub fn flag_marks(marks: &mut [u8])
    ensures { marks.new ≡ marks_of (marked marks.old) (length marks.old) }
{
    for mark in marks.iter_mut() {
        *mark = u8::from(*mark != 0);
    }
}

// Copies numbers.
// Kept: one by one, since `copy_from_slice` would have the static library need `memmove` from outside.
pub fn copy_numbers(from: &[i32], to: &mut [i32])
    requires { length to.old ≡ length from.now }
    ensures { to.new ≡ from.now }
{
    for i in 0..to.len() {
        to[i] = from[i];
    }
}
