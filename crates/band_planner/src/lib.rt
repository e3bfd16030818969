#![tactic(auto)]

// Plans of bands of rows: the plan check, the planner, and the border rows of a band.

mod border_call;
pub mod borders;
pub mod opening;
mod planning;
pub mod plans;

pub use border_call::borders_of;
pub use planning::{check_plan, plan_bands};
