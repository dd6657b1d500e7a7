//! Whether a map is the image of a forest, and if not, the least key that doesn't fit.
#![tactic(auto)]

mod behind;
mod checking;
mod chunks;
mod front;
pub mod laws;
mod path;
mod pieces;
mod place;
mod reader;
mod started;
mod stop;
mod verdict;

pub use checking::check;
pub use verdict::{Named, Verdict};
