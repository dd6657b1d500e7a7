//! The disk of the program: two files in the current folder.
#![tactic(auto)]

mod disk;
mod folder;

pub use disk::FileDisk;
