// The numbers that bound a source and a grid, and the lengths of buffers that follow from them, as in `specs/Limits.antt`.

// Bytes of a source.
pub const MOST_BYTES: usize = 65535;
// Tokens of a source.
pub const MOST_TOKENS: usize = 4096;
// Words of the word table, four a token.
pub const TABLE_WORDS: usize = 16384;
// Words of the leaf table, eight a position; there is one position more than tokens.
pub const LEAF_WORDS: usize = 32776;
// Names in use together.
pub const MOST_NAMES: usize = 256;
// Words of the name list, four a name.
pub const NAME_WORDS: usize = 1024;
// `if`, `forall`, `(` and `[` open together.
pub const MOST_OPEN: usize = 16;
// Dimensions of a grid.
pub const MOST_DIMS: usize = 3;
// Cells along a dimension.
pub const MOST_ALONG: u32 = 4096;
// Cells of a grid.
pub const MOST_CELLS: u64 = 1048576;
// Fields of a cell.
pub const MOST_FIELDS: u32 = 8;
// Values of an array constant.
pub const MOST_ELEMENTS: i32 = 1024;
// Values of a loop's range.
pub const MOST_TURNS: u64 = 4096;
// Places of a reach that are listed.
pub const MOST_PLACES: usize = 256;
// Words of a list of places, three a place.
pub const PLACE_WORDS: usize = 768;
// The number of listed places, as a reach record has it.
pub const PLACES_LISTED: u32 = MOST_PLACES as u32;
