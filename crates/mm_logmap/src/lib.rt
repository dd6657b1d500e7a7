//! A keeper over a disk: the map in memory, and its batches of changes in the disk's journal.
#![tactic(auto)]

mod batch;
mod keeper;
mod opening;
mod state;

pub use keeper::LogKeeper;
pub use opening::LogState;
