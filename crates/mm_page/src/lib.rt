//! Leaf pages: 4,096 bytes that contracts see as sorted entries and the number of the next leaf, and that are
//! changed in place; and page 0 of a paged store.
#![tactic(auto)]

mod bytes;
mod change;
mod find;
mod header;
mod mem_pages;
mod page;
mod pages;
mod rules;
mod slot;

pub use header::Header;
pub use mem_pages::MemPages;
pub use page::Page;
pub use pages::Pages;
pub use rules::Violation;
