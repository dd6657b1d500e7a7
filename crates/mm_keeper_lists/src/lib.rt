//! Keyword lists that are read through a keeper's entries.
#![tactic(auto)]

mod key;
mod lists;
mod looking;
mod reading;

pub use lists::KeeperLists;
