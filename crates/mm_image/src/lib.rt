//! The image of a forest: its nodes, words and counts as sorted entries, and how they are read back.
#![tactic(auto)]

mod bringing;
mod content;
mod entry;
mod fields;
mod gathering;
mod key;
pub mod laws;
mod naming;
mod parsed;
mod pieces;
mod placing;
mod reading;
mod rebuilding;
mod subtrees;

pub use bringing::{entries, word_counts};
pub use entry::{Entries, Entry};
pub use fields::{kind_of, may_stand};
pub use key::{chunk_key, count_key, occurrence_key};
pub use naming::node_name;
pub use parsed::{Parsed, parse_key};
pub use pieces::PIECE_LIMIT;
pub use reading::{count_of, name_of};
pub use subtrees::subtree;
