//! Masks of the nodes on the paths to matches, and the pruning of them: the contributors of MaxMatch (Liu
//! and Chen: "Reasoning and Identifying Relevant Matches for XML Keyword Search", VLDB 2008).
#![tactic(auto)]

pub mod laws;
mod mark;
mod parents;
mod paths;
mod pruning;

pub use mark::Mark;
pub use paths::{at_or_below, masks};
pub use pruning::prune;
