//! The sample: a script of commands that is drawn from a number, and the summary of its replies.
#![tactic(auto)]

mod commands;
mod counts;
mod draws;
mod summary;
mod writing;

pub use counts::summarize;
pub use summary::{Summary, write_summary};
pub use writing::script;

#[cfg(test)]
mod tests;
