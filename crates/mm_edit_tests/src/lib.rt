//! The test functions of mm_edit: edits of a keeper's entries by their plans. No code of the program.
#![tactic(auto)]

#[cfg(test)]
mod agreeing;
#[cfg(test)]
mod calls;
#[cfg(test)]
mod edits;
#[cfg(test)]
mod rows;
