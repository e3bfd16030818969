#![tactic(auto)]

// The names of a source as a row of records: made of the flat words of a name list, stored, and looked up. After acceptance no index variable is
// among them: an index has a record only while its loop is open.

pub mod lookup;
pub mod rows;

// A name: the place of its first byte, its length, its kind, 0 where no name is declared, and its value.
#[derive(Clone, Copy, Debug, Default, PartialEq, Eq, Hash)]
pub struct Name {
    pub start: u32,
    pub length: u32,
    pub kind: u32,
    pub value: i32,
}
