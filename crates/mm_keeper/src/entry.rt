// One entry: a key and its value; short ones take no memory of their own.
ghost use Rattle.std.specs.Prelude.{◌≡◌, IfOk, length};
ghost use Rattle.std.specs.Str.{bytes_eq};
ghost use Rattle.mm_keeper.specs.Entries.{below};

use smallvec::SmallVec;
use std::alloc::{AllocError, Global};
use std::marker::Model;

/// The bytes of a key and of its value, lent.
#[derive(Clone, Copy, Debug)]
pub struct EntryRef<'a> {
    pub key: &'a [u8],
    pub value: &'a [u8],
}

/// The bytes of a key.
pub type Key = SmallVec<u8, 24>;

/// The bytes of a value.
pub type Value = SmallVec<u8, 16>;

/// An entry that is owned. Contracts see it as its key and its value.
#[derive(Drop)]
pub struct Item {
    key: Key,
    value: Value,
}

impl Model for Item {
    ghost use Rattle.std.specs.Prelude.{List, ℕ};

    ghost Value = { List ℕ × List ℕ };

    ghost view = { λ item. (item.key.items, item.value.items) };
}

impl Item {
    /// A copy of a key and a value.
    pub fn new(alloc: Global, key: &[u8], value: &[u8]) -> Result<Item, AllocError>
        ensures { IfOk result (λ item. item ≡ (key.now, value.now)) }
    {
        let key = SmallVec::from_slice(alloc, key)?;
        let value = SmallVec::from_slice(alloc, value)?;
        Ok(Item { key, value })
    }

    /// Lends the key.
    pub fn key(&self) -> &[u8]
        ensures { result.now ≡ self.now.0 }
    {
        self.key.as_slice()
    }

    /// Lends the value.
    pub fn value(&self) -> &[u8]
        ensures { result.now ≡ self.now.1 }
    {
        self.value.as_slice()
    }

    /// The key and the value.
    pub fn into_parts(self) -> (Key, Value)
        ensures key { result.0.items ≡ self.0 }
        ensures value { result.1.items ≡ self.1 }
    {
        let Item { key, value } = self;
        (key, value)
    }

    pub(crate) fn is_below(&self, key: &[u8]) -> bool
        ensures { result ≡ below self.now.0 key.now }
    {
        self.key.as_slice().cmp(key).is_lt()
    }

    pub(crate) fn has_key(&self, key: &[u8]) -> bool
        ensures { result ≡ bytes_eq self.now.0 key.now }
    {
        self.key.as_slice() == key
    }
}
