//! The journal: records in one area of a disk, each of which a crash leaves whole or not at all.
#![tactic(auto)]

mod journal;
mod opening;
mod payload;
mod reading;
mod sealed;
mod writing;

pub use journal::Journal;
pub use payload::{Payload, check_sorts};
pub use sealed::Sealed;
