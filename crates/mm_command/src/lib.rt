//! Command lines and replies: what a line asks for, and how an answer is written.
#![tactic(auto)]

mod fragments;
mod line;
mod reading;
mod reply;

pub use line::{Find, Line, LineError};
pub use reading::{read_line, without_return};
pub use reply::{Reply, tree_reply, write_reply};
