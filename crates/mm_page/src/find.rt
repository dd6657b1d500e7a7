// Reading a leaf: an entry by its index, and the index of a key.
ghost use Rattle.std.specs.Prelude.{◌≡◌, ◌+◌, ◌*◌, ◌≤◌, ◌<◌, ℕ, List, [], length, get_or, slice_get, Some, IfOk, IfErr, true, false};
ghost use Rattle.mm_keeper.specs.Entries.{below, rank, has};
ghost use Rattle.mm_page.specs.Leaf.{IsLeaf, entries_of};

use crate::bytes::{part, read_two};
use mm_keeper::EntryRef;

/// Lends the entry at an index.
pub(crate) fn entry_in(bytes: &[u8], index: usize) -> EntryRef<'_>
    requires leaf { IsLeaf bytes.now }
    requires index { index < length (entries_of bytes.now) }
    ensures { slice_get (entries_of bytes.now) index ≡ Some (result.key.now, result.value.now) }
{
    let at = read_two(bytes, 16 + 2 * index);
    let key = read_two(bytes, at);
    let value = read_two(bytes, at + 2);
    let key_part = part(bytes, at + 4, key);
    let value_part = part(bytes, at + 4 + key, value);
    EntryRef {
        key: key_part,
        value: value_part,
    }
}

fn key_in(bytes: &[u8], index: usize) -> &[u8]
    requires leaf { IsLeaf bytes.now }
    requires index { index < length (entries_of bytes.now) }
    ensures { result.now ≡ (get_or (entries_of bytes.now) index ([], [])).0 }
{
    entry_in(bytes, index).key
}

fn is_below(bytes: &[u8], index: usize, key: &[u8]) -> bool
    requires leaf { IsLeaf bytes.now }
    requires index { index < length (entries_of bytes.now) }
    ensures { result ≡ below (get_or (entries_of bytes.now) index ([], [])).0 key.now }
{
    key_in(bytes, index).cmp(key).is_lt()
}

fn holds(bytes: &[u8], count: usize, index: usize, key: &[u8]) -> bool
    requires leaf { IsLeaf bytes.now }
    requires count { count ≡ length (entries_of bytes.now) }
    requires index { index ≡ rank (entries_of bytes.now) key.now }
    ensures { result ≡ has (entries_of bytes.now) key.now }
{
    index < count && key_in(bytes, index) == key
}

/// The index of a key, or as `Err` the index where it belongs.
pub(crate) fn find_in(bytes: &[u8], key: &[u8]) -> Result<usize, usize>
    requires leaf { IsLeaf bytes.now }
    ensures found { IfOk result (λ i. (i ≡ rank (entries_of bytes.now) key.now) × (has (entries_of bytes.now) key.now ≡ true)) }
    ensures missing { IfErr result (λ i. (i ≡ rank (entries_of bytes.now) key.now) × (has (entries_of bytes.now) key.now ≡ false)) }
{
    let count = read_two(bytes, 2);
    let mut low: usize = 0;
    let mut high = count;
    'halving: while low < high {
        let middle = low + (high - low) / 2;
        if is_below(bytes, middle, key) {
            low = middle + 1;
        } else {
            high = middle;
        }
    }
    if holds(bytes, count, low, key) {
        Ok(low)
    } else {
        Err(low)
    }
}
