//! A list of values in one run of memory, as `Vec` has it, which contracts see as the list of its
//! items, and through which a type may reach itself: the children of a node stand in one.
#![tactic(auto)]

mod items;

pub use items::{Items, at};
