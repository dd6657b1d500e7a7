//! Fragments: why a node is an answer. The contributors among the nodes below it, after MaxMatch (Liu and
//! Chen: "Reasoning and Identifying Relevant Matches for XML Keyword Search", VLDB 2008), without a walk
//! over the whole subtree: the matches are gathered from the keyword lists, and what lies on the paths to
//! them is pruned and put together.
#![tactic(auto)]

mod calls;
mod children;
mod gathering;
pub mod laws;
mod owning;
mod pruning;
mod rebuilding;
mod showing;
mod stored;
mod stored_calls;

pub use calls::fragment;
pub use stored_calls::stored_fragment;
