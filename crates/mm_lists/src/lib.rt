//! Keyword lists: for each word the nodes of a forest whose own word it is, in document order, and
//! the look-ups in them that searches are made of.
#![tactic(auto)]

mod children;
pub mod laws;
mod lists;
mod matches;
mod memory;
mod shortest;

pub use children::child_to;
pub use lists::Lists;
pub use matches::{candidate, next_candidate};
pub use memory::{MemLists, count_before};
pub use shortest::{Shortest, find_shortest};
