//! A store of XML documents over a keeper that holds a forest's image: searches, and the subtrees of its nodes.
#![tactic(auto)]

mod applying;
mod edit;
mod fragments;
mod hits;
mod roots;
mod store;

pub use edit::Edit;
pub use store::{Store, StoreError};
