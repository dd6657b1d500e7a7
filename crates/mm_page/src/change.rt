// Changes of a leaf's bytes in place: the cells are moved first, and the slots written after.
ghost use Rattle.std.specs.Prelude.{◌≡◌, ◌+◌, ◌*◌, ◌-◌, ◌≤◌, ◌<◌, ◌++◌, ℕ, List, [], length, take, drop, replicate, false};
ghost use Rattle.mm_keeper.specs.Entries.{rank, has};
ghost use Rattle.byteorder.specs.Endian.{big_bytes};
ghost use Rattle.mm_page.specs.Limits.{size, revalued};
ghost use Rattle.mm_page.specs.Leaf.{pasted, IsLeaf, IsTidy, entries_of, entries_at, next_of, place_in, slots, cells};
ghost use Rattle.mm_page.specs.Inside.Rows.{IsRow};
ghost use Rattle.std.specs.List.{insert, remove};

use crate::bytes::{
    clear_from, move_part, part, read_two, write_cell, write_eight, write_part, write_two,
};

// The place of a cell, or behind the last one.
pub(crate) fn place(bytes: &[u8], index: usize) -> usize
    requires leaf { IsLeaf bytes.now }
    requires index { index ≤ length (entries_of bytes.now) }
    ensures { result ≡ place_in (entries_of bytes.now) index }
{
    let count = read_two(bytes, 2);
    if index < count {
        return read_two(bytes, 16 + 2 * index);
    }
    if count == 0 {
        return 16;
    }
    let at = read_two(bytes, 14 + 2 * count);
    let key = read_two(bytes, at);
    let value = read_two(bytes, at + 2);
    at + 4 + key + value
}

/// How many bytes are free for further entries.
pub(crate) fn room_in(bytes: &[u8]) -> usize
    requires { IsLeaf bytes.now }
    ensures { result + size (entries_of bytes.now) ≡ 4080 }
{
    let count = read_two(bytes, 2);
    let end = place(bytes, count);
    4096 - end
}

// Writes the slots of so many cells, and answers the place behind the last cell.
pub(crate) fn write_slots(bytes: &mut [u8], count: usize) -> usize
    requires row { IsRow bytes.old (entries_at bytes.old count (16 + 2 * count)) }
    ensures slots { bytes.new ≡ pasted bytes.old 16 (slots (16 + 2 * count) (entries_at bytes.old count (16 + 2 * count))) }
    ensures end { result ≡ 16 + 2 * count + length (cells (entries_at bytes.old count (16 + 2 * count))) }
{
    let mut at = 16 + 2 * count;
    'walk: for i in 0..count {
        write_two(bytes, 16 + 2 * i, at);
        let key = read_two(bytes, at);
        let value = read_two(bytes, at + 2);
        at = at + 4 + key + value;
    }
    at
}

// Makes a leaf of so many cells that stand in their places: head, slots, and 00 behind them.
pub(crate) fn finish(bytes: &mut [u8], count: usize)
    requires row { IsRow bytes.old (entries_at bytes.old count (16 + 2 * count)) }
    ensures leaf { IsLeaf bytes.new }
    ensures entries { entries_of bytes.new ≡ entries_at bytes.old count (16 + 2 * count) }
    ensures next { next_of bytes.new ≡ next_of bytes.old }
    ensures tidy { IsTidy bytes.new }
{
    write_two(bytes, 0, 19456);
    write_two(bytes, 2, count);
    write_two(bytes, 12, 0);
    write_two(bytes, 14, 0);
    let end = write_slots(bytes, count);
    clear_from(bytes, end);
}

/// Puts an entry in at an index.
pub(crate) fn insert_in(bytes: &mut [u8], index: usize, key: &[u8], value: &[u8])
    requires leaf { IsLeaf bytes.old }
    requires index { index ≡ rank (entries_of bytes.old) key.now }
    requires within { index ≤ length (entries_of bytes.old) }
    requires fresh { has (entries_of bytes.old) key.now ≡ false }
    requires key { (1 ≤ length key.now) × (length key.now ≤ 800) }
    requires value { length value.now ≤ 1024 }
    requires room { size (insert (entries_of bytes.old) index (key.now, value.now)) ≤ 4080 }
    ensures leaf { IsLeaf bytes.new }
    ensures entries { entries_of bytes.new ≡ insert (entries_of bytes.old) index (key.now, value.now) }
    ensures next { next_of bytes.new ≡ next_of bytes.old }
    ensures tidy { IsTidy bytes.new }
{
    let count = read_two(bytes, 2);
    let start = 16 + 2 * count;
    let at = place(bytes, index);
    let end = place(bytes, count);
    move_part(bytes, at, end - at, at + 6 + key.len() + value.len());
    move_part(bytes, start, at - start, start + 2);
    write_cell(bytes, at + 2, key, value);
    finish(bytes, count + 1);
}

/// Takes the entry at an index out.
pub(crate) fn remove_in(bytes: &mut [u8], index: usize)
    requires leaf { IsLeaf bytes.old }
    requires index { index < length (entries_of bytes.old) }
    ensures leaf { IsLeaf bytes.new }
    ensures entries { entries_of bytes.new ≡ remove (entries_of bytes.old) index }
    ensures next { next_of bytes.new ≡ next_of bytes.old }
    ensures tidy { IsTidy bytes.new }
{
    let count = read_two(bytes, 2);
    let start = 16 + 2 * count;
    let at = place(bytes, index);
    let after = place(bytes, index + 1);
    let end = place(bytes, count);
    move_part(bytes, start, at - start, start - 2);
    move_part(bytes, after, end - after, at - 2);
    finish(bytes, count - 1);
}

/// Gives the entry at an index another value.
pub(crate) fn set_in(bytes: &mut [u8], index: usize, value: &[u8])
    requires leaf { IsLeaf bytes.old }
    requires index { index < length (entries_of bytes.old) }
    requires value { length value.now ≤ 1024 }
    requires room { size (revalued (entries_of bytes.old) index value.now) ≤ 4080 }
    ensures leaf { IsLeaf bytes.new }
    ensures entries { entries_of bytes.new ≡ revalued (entries_of bytes.old) index value.now }
    ensures next { next_of bytes.new ≡ next_of bytes.old }
    ensures tidy { IsTidy bytes.new }
{
    let count = read_two(bytes, 2);
    let at = place(bytes, index);
    let after = place(bytes, index + 1);
    let end = place(bytes, count);
    let key = read_two(bytes, at);
    let value_at = at + 4 + key;
    move_part(bytes, after, end - after, value_at + value.len());
    write_two(bytes, at + 2, value.len());
    write_part(bytes, value_at, value);
    finish(bytes, count);
}

/// Copies the entries from an index on into another leaf, in place of its own.
pub(crate) fn copy_tail(bytes: &[u8], index: usize, fresh: &mut [u8])
    requires leaf { IsLeaf bytes.now }
    requires index { index ≤ length (entries_of bytes.now) }
    requires size { length fresh.old ≡ 4096 }
    ensures leaf { IsLeaf fresh.new }
    ensures entries { entries_of fresh.new ≡ drop index (entries_of bytes.now) }
    ensures next { next_of fresh.new ≡ next_of fresh.old }
    ensures tidy { IsTidy fresh.new }
{
    let count = read_two(bytes, 2);
    let at = place(bytes, index);
    let end = place(bytes, count);
    let tail = part(bytes, at, end - at);
    write_part(fresh, 16 + 2 * (count - index), tail);
    finish(fresh, count - index);
}

/// Takes the entries from an index on out.
pub(crate) fn truncate(bytes: &mut [u8], index: usize)
    requires leaf { IsLeaf bytes.old }
    requires index { index ≤ length (entries_of bytes.old) }
    ensures leaf { IsLeaf bytes.new }
    ensures entries { entries_of bytes.new ≡ take index (entries_of bytes.old) }
    ensures next { next_of bytes.new ≡ next_of bytes.old }
    ensures tidy { IsTidy bytes.new }
{
    let count = read_two(bytes, 2);
    let start = 16 + 2 * count;
    let at = place(bytes, index);
    move_part(bytes, start, at - start, 16 + 2 * index);
    finish(bytes, index);
}

/// Makes a leaf without entries of bytes that are all 00.
pub(crate) fn make_empty(bytes: &mut [u8])
    requires { bytes.old ≡ replicate 4096 0 }
    ensures leaf { IsLeaf bytes.new }
    ensures entries { entries_of bytes.new ≡ [] }
    ensures next { next_of bytes.new ≡ 0 }
    ensures tidy { IsTidy bytes.new }
{
    finish(bytes, 0);
}

/// Writes the number of the next leaf.
pub(crate) fn set_next_in(bytes: &mut [u8], next: u64)
    requires leaf { IsLeaf bytes.old }
    ensures leaf { IsLeaf bytes.new }
    ensures entries { entries_of bytes.new ≡ entries_of bytes.old }
    ensures next { next_of bytes.new ≡ next }
    ensures bytes { bytes.new ≡ pasted bytes.old 4 (big_bytes 8 next) }
{
    write_eight(bytes, 4, next);
}
