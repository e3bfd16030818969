// The calls for programs in other languages: numbers and flat slices alone. Each writes its numbers to a slice, as far as it has room.
// Kept: the C interface. Each symbol is a function of its own, with flat parameters in this order: so the runs of `running`, `listing`, `pausing` and
// `counting` differ in the manner and in what is lent alone, and `counted` is a number in `banding`.

mod banding;
mod checking;
mod comparing;
mod counting;
mod listing;
mod pausing;
mod profiling;
mod rows;
mod running;
mod telling;
mod writing;

pub use banding::{
    cellang_border_rows, cellang_check_plan, cellang_plan_bands, cellang_run_banded,
    cellang_step_band,
};
pub use checking::cellang_check;
pub use comparing::cellang_compare;
pub use counting::{
    cellang_run_full_counts, cellang_run_pausing_counts, cellang_run_quiet_counts,
    cellang_run_resuming_counts,
};
pub use listing::{cellang_run_full_list, cellang_run_quiet_list};
pub use pausing::{cellang_run_pausing, cellang_run_resuming};
pub use profiling::cellang_check_one_move;
pub use rows::{cellang_first_zero_row, cellang_zeros_in_rows};
pub use running::{cellang_run_full, cellang_run_quiet};
pub use writing::cellang_write_list;
