//! Exclusive lowest common ancestors by a stack over candidates (after Indexed Stack, Xu and
//! Papakonstantinou: "Efficient LCA based Keyword Search in XML Data", EDBT 2008): the candidates of the
//! nodes of the shortest keyword list, gone over from the last to the first. Where one is tested, the
//! stack holds the topmost candidates that come after it, so those below it are the last on the stack.
#![tactic(auto)]

mod candidates;
mod children;
mod search;
mod stack;
mod test;

pub use search::answers;
