//! Labels of the nodes of a tree, with room for new nodes between any two (ORDPATH: O'Neil et al.,
//! "ORDPATHs: Insert-Friendly XML Node Labels", SIGMOD 2004).
//!
//! A component is a whole number from -4294975552 to 4294975551. A segment is any number of even
//! components followed by one odd component. A label is one or more segments, written as one list
//! of components, whose bytes are at most 512.
#![tactic(auto)]

mod component;
mod decimal;
mod error;
mod gap;
mod labels;
pub mod laws;
mod spelling;
mod walk;

pub use error::LabelError;
pub use gap::between;
pub use labels::{Label, child, lca};
