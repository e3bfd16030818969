#![tactic(auto)]

// The step of one band of rows as a call of its own: it is passed the band's old rows with borders, and nothing of the rest of the grid.

pub mod asking;
mod calling;

pub use calling::step_band;
