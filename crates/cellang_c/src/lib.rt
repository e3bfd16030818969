#![tactic(auto)]

// The calls for programs in other languages, as C calls them: each is the call of `cellang` that has its name, with the same promise.

mod banding;
mod checking;
mod comparing;
mod counting;
mod listing;
mod pausing;
mod profiling;
mod rows;
mod running;
mod writing;
