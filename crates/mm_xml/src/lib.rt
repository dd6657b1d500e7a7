//! Reads and writes XML, after the productions of XML 1.0, fifth edition. A document type declaration has
//! no internal subset, and the only references are those of the five names and by number.
#![tactic(auto)]

mod attribute;
mod builder;
mod declaration;
mod decode;
mod doctype;
mod error;
pub mod laws;
mod leading;
mod lexeme;
mod order;
mod outline;
mod reader;
mod reference;
mod stack;
mod text;
mod writer;

pub use error::XmlError;
pub use reader::read;
pub use writer::write;
