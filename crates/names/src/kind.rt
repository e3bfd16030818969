// The kinds of names.
// Kept: a name's kind is a word of the list that the caller lends (docs/LAYOUT.md), and `entry_in` promises that word, whatever it is, so an enum cannot hold it.

pub const CONSTANT: u32 = 1;

pub const ARRAY: u32 = 2;

pub const FIELD: u32 = 3;

pub const VARIABLE: u32 = 4;

pub const INDEX: u32 = 5;

pub const CONST_FIELD: u32 = 6;
