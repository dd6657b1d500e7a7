//! Ordered entries with commit: a sorted map from keys to values, the trait of whatever keeps one, a
//! keeper in memory, and a cursor.
//!
//! A put, a remove or a commit during a cursor's life doesn't compile, since the cursor holds the keeper for
//! writing.
#![tactic(auto)]

mod block;
mod cursor;
mod entry;
mod keeper;
mod lend_error;
mod sorted_map;
mod spot;
mod vec_keeper;

pub use cursor::Cursor;
pub use entry::{EntryRef, Item, Key, Value};
pub use keeper::Keeper;
pub use lend_error::LendError;
pub use sorted_map::SortedMap;
pub use spot::Spot;
pub use vec_keeper::VecKeeper;
