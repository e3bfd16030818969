// What the leaf table notes at a position, by its word 0.

pub const NONE: u32 = 0;

pub const NUMBER: u32 = 1;

pub const VARIABLE: u32 = 2;

pub const OWN: u32 = 3;

pub const NEAR: u32 = 4;
