//! The test functions of mm_store: each call of a store. No code of the program.
#![tactic(auto)]

#[cfg(test)]
mod asking;
#[cfg(test)]
mod stores;
