//! What the words that the program is called with ask for.
#![tactic(auto)]

mod options;
mod words;

pub use options::Options;
pub use words::{WordsError, read_options};

#[cfg(test)]
mod tests;
