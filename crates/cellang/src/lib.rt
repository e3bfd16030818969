#![tactic(auto)]

// Rules in Cellang, checked and run, and value lists written, and whether a rule moves a pixel once: with the names of a source as a row of records, and for programs in other languages.
// And two grids compared.

mod checking;
mod exports;
mod profiling;
mod rows;
mod running;
mod writing;

pub use api_comparison::{Incomparable, compare};
pub use api_records::Name;
pub use api_records::lookup::{count, find_by_place, find_field, kind_of, record};
pub use checking::check;
pub use exports::{
    cellang_border_rows, cellang_check, cellang_check_one_move, cellang_check_plan,
    cellang_compare, cellang_first_zero_row, cellang_plan_bands, cellang_run_banded,
    cellang_run_full, cellang_run_full_counts, cellang_run_full_list, cellang_run_pausing,
    cellang_run_pausing_counts, cellang_run_quiet, cellang_run_quiet_counts,
    cellang_run_quiet_list, cellang_run_resuming, cellang_run_resuming_counts, cellang_step_band,
    cellang_write_list, cellang_zeros_in_rows,
};
pub use move_profile::{Missed, Profile};
pub use profiling::check_one_move;
pub use program::reply::{Reason, Refusal};
pub use run_row_counts::queries::{first_zero_row, zeros_in_rows};
pub use run_steps::Manner;
pub use running::run;
pub use writing::write_list;
