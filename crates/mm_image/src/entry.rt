//! An entry, owned.

use mm_host::Bytes;
use mm_list::Items;

/// An entry: a key and its value.
#[derive(Debug, Drop)]
pub struct Entry {
    pub key: Bytes,
    pub value: Bytes,
}

/// Entries in the order of their keys.
pub type Entries = Items<Entry>;
