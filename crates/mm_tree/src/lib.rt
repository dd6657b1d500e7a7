//! The plain tree: labelled forests of elements and texts, and their edits.
//!
//! This is the plain program that the faster crates are compared with. Its definitions stand in
//! `specs/`, on plain data, and say what every answer of the store means.
#![tactic(auto)]

pub mod calls;
pub mod characters;
mod forest;
mod fragment;
mod hit;
mod keywords;
pub mod laws;
mod measure;
mod node;
mod own;
mod plain;
mod refusal;
mod search;
mod text;

pub use forest::{Done, Forest, LEVEL_LIMIT, Opening, Place, level_of, new_label, placed};
pub use fragment::{Fragment, Fragments};
pub use hit::{Hit, Hits};
pub use keywords::{KeywordLists, keyword_lists, put_words};
pub use node::{Node, Nodes, number};
pub use own::own_words;
pub use plain::{Attribute, Attributes, Kind, NAME_LIMIT, Plain, Plains};
pub use refusal::{Refusal, TreeError};
pub use search::{elca, slca};
pub use text::Text;
