// The replies in words.
ghost use Rattle.std.specs.Prelude.{◌≤◌, ◌↔◌, IsTrue};

use std::fmt;

// The number of a reply, written as what the reply means.
#[derive(Clone, Copy, Debug, PartialEq, Eq)]
pub struct Reply(pub u32);

impl Reply {
    // Whether a cell faulted.
    pub fn is_fault(self) -> bool
        ensures { IsTrue result ↔ ((30 ≤ self.0) × (self.0 ≤ 33)) }
    {
        matches!(self.0, 30..=33)
    }

    // Whether a run began: all its steps are done, or it faulted.
    pub fn has_begun(self) -> bool {
        self.0 == 0 || self.is_fault()
    }

    // Whether the reply has a place in the source: the other refusals of a source are 1 and 2, and those of a list begin at 50.
    pub fn has_place(self) -> bool {
        matches!(self.0, 3..=19 | 23 | 30..=49)
    }

    // Whether the reply has a line of the value list.
    pub fn has_line(self) -> bool {
        matches!(self.0, 50..=56 | 58)
    }
}

impl fmt::Display for Reply {
    fn fmt<W: fmt::Write>(&self, f: &mut fmt::Formatter<W>) -> fmt::Result {
        f.write_str(match self.0 {
            0 => "all steps are done",
            1 => "the word table, the name list or the built-in list is wrong",
            2 => "the rule is longer than 65535 bytes",
            3 => "no token can be read",
            4 => "a literal over 2147483647",
            5 => "more than 4096 tokens",
            6 => "a form of the language that is not taken, or a field's name is missing",
            7 => "a token that the grammar does not allow here",
            8 => "a name that is unknown, or of the wrong sort for a constant or an index",
            9 => "a name that is already used, or that cannot be assigned to",
            12 => "wrong use of a field, an array constant or a relative index",
            13 => "a relation on a bare relation",
            14 => "more than 16 open if, forall, ( and [ together",
            15 => "more than 256 names",
            20 => "the shape is not that of the rule, or has a wrong size or too many cells",
            21 => "the grid does not have as many entries as cells times fields",
            22 => "start or steps are negative, or their sum is over 2147483647",
            23 => "an index that is larger than its dimension",
            24 => "a field of the grid is out of its range",
            30 => "the result of an operation is out of range",
            31 => "a divisor is zero",
            32 => "an array index is out of range",
            33 => "an assigned value is outside the field",
            40 => "the number of dimensions is not 1 to 3",
            41 => "a range whose upper bound is below its lower one",
            42 => "a loop over more than 4096 values",
            43 => "more than 8 fields",
            44 => "an array's size that is not 1 to 1024",
            45 => "an array constant with too many or too few values",
            50 => "a line of the list cannot be read",
            51 => "the place lies outside the grid",
            52 => "more values than fields",
            53 => "a value out of its field's range",
            54 => "the time does not rise",
            55 => "the time is before the start",
            56 => "the time is past start plus steps",
            58 => "the rule moves a pixel once, and the line gives moved 0",
            59 => "no plan: fewer rows can be held than a band of one row needs",
            60 => "the plan of bands is not right",
            61 => "no such field for the row counts, or not one count a row",
            _ => "a reply without a meaning",
        })
    }
}
