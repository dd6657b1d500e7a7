//! Laws of the definition that the reader of XML is held to. Each function's contract is a law, and its proof
//! is all that it does. They are the productions of XML 1.0, fifth edition, as sentences on bytes: in
//! `productions` from parts to the whole, in `parts` from the whole to its parts. Those in `spelling` say what
//! bytes spell, and that what is written reads back.
#![tactic(auto)]

pub mod parts;
pub mod productions;
pub mod spelling;
