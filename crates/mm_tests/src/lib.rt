//! The test functions of crates that need no keeper and no device: what no clause says, called beside a run. A module
//! tests one crate; `answers` and `lists` test the searches over documents that are read.
#![tactic(auto)]

#[cfg(test)]
mod answers;
#[cfg(test)]
mod items;
#[cfg(test)]
mod labels;
#[cfg(test)]
mod lists;
#[cfg(test)]
mod matches;
#[cfg(test)]
mod trees;
#[cfg(test)]
mod words;
#[cfg(test)]
mod xml;
