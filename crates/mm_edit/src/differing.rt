//! The difference of two lists of entries in the order of their keys.

ghost use Rattle.std.specs.Prelude.{◌≡◌, ◌∷◌, ◌++◌, [], IfOk, OnOk, if◌then◌else◌, not, option_map};
ghost use Rattle.mm_image.specs.Keyed.{keyed};
ghost use Rattle.mm_keeper.specs.Entries.{IsSorted, has, lookup};
ghost use Rattle.mm_edit.specs.Difference.{changed, gone, holds, keys};
ghost use Rattle.mm_edit.specs.Plans.{AreSized};

use mm_host::Bytes;
use mm_image::Entry;
use mm_list::at;
use std::alloc::{AllocError, Global};

/// The entry of the key.
fn find<'e>(entries: &'e [Entry], key: &[u8]) -> Option<&'e Entry>
    ensures { IsSorted (keyed entries.now) → option_map (λ e. e.now.value) result ≡ lookup (keyed entries.now) key.now }
{
    let place = entries.partition_point(|entry| entry.key.as_slice().cmp(key).is_lt());
    match at(entries, place) {
        Some(entry) if entry.key.as_slice() == key => Some(entry),
        _ => None,
    }
}

/// Whether one of the entries has this key.
fn has(entries: &[Entry], key: &[u8]) -> bool
    ensures { IsSorted (keyed entries.now) → result ≡ has (keyed entries.now) key.now }
{
    find(entries, key).is_some()
}

/// Whether one of the entries has this key and this value.
fn holds(entries: &[Entry], entry: &Entry) -> bool
    ensures { IsSorted (keyed entries.now) → result ≡ holds (keyed entries.now) (entry.now.key, entry.now.value) }
{
    match find(entries, entry.key.as_slice()) {
        Some(held) => held.value.as_slice() == entry.value.as_slice(),
        None => false,
    }
}

/// The keys that are there before and not after.
pub fn gone(alloc: Global, before: &[Entry], after: &[Entry]) -> Result<Vec<Bytes>, AllocError>
    ensures { IsSorted (keyed after.now) → IfOk result (λ ks. ks.items ≡ keys (gone (keyed before.now) (keyed after.now))) }
{
    let mut keys = Vec::new(alloc);
    for entry in before {
        if !has(after, entry.key.as_slice()) {
            keys.push(Bytes::from_slice(alloc, entry.key.as_slice())?)?;
        }
    }
    Ok(keys)
}

/// Puts the entry, unless it was there before.
fn push_changed(before: &[Entry], entry: Entry, entries: &mut Vec<Entry>) -> Result<(), AllocError>
    ensures put { IsSorted (keyed before.now) → OnOk result (keyed entries.new.items ≡ (if not (holds (keyed before.now) (entry.key, entry.value)) then keyed entries.old.items ++ (entry.key, entry.value) ∷ [] else keyed entries.old.items)) }
    ensures sized { AreSized (keyed entries.old.items) → AreSized ((entry.key, entry.value) ∷ []) → OnOk result (AreSized (keyed entries.new.items)) }
{
    if !holds(before, &entry) {
        entries.push(entry)?;
    }
    Ok(())
}

/// The entries that are there after, and weren't so before.
pub fn changed(alloc: Global, before: &[Entry], after: Vec<Entry>) -> Result<Vec<Entry>, AllocError>
    ensures changed { IsSorted (keyed before.now) → IfOk result (λ es. keyed es.items ≡ changed (keyed before.now) (keyed after.items)) }
    ensures sized { AreSized (keyed after.items) → IfOk result (λ es. AreSized (keyed es.items)) }
{
    let mut entries = Vec::new(alloc);
    for entry in after {
        push_changed(before, entry, &mut entries)?;
    }
    Ok(entries)
}
