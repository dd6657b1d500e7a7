//! The documents of the examples, and what the searches answer on them. No code of the program: the test
//! functions of the crates above call it.
#![tactic(auto)]

pub mod documents;
pub mod searches;
