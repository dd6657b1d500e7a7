// A leaf page.
ghost use Rattle.std.specs.Prelude.{◌≡◌, ◌⊎◌, ◌+◌, ◌*◌, ◌≤◌, ◌<◌, [], length, take, drop, slice_get, Some, IfOk, IfErr, OnOk, Option, option_map, true, false};
ghost use Rattle.std.specs.List.{insert, remove};
ghost use Rattle.mm_keeper.specs.Entries.{rank, has};
ghost use Rattle.byteorder.specs.Endian.{big_bytes};
ghost use Rattle.mm_page.specs.Limits.{size, revalued};
ghost use Rattle.mm_page.specs.Leaf.{IsLeaf, IsTidy, entries_of, next_of, pasted};
ghost use Rattle.mm_page.specs.Rules.{fault_of, damaged};

use crate::bytes::{read_eight, read_two};
use crate::change::{
    copy_tail, insert_in, make_empty, remove_in, room_in, set_in, set_next_in, truncate,
};
use crate::find::{entry_in, find_in};
use crate::rules::fault_in;
use mm_host::{Damage, Fault};
use mm_keeper::EntryRef;
use std::alloc::{AllocError, Global};
use std::marker::Model;

/// A valid leaf, seen as its bytes.
#[derive(Drop)]
pub struct Page {
    bytes: Box<[u8; 4096]>,
}

impl Model for Page {
    ghost use Rattle.std.specs.Prelude.{ℕ, List};
    ghost use Rattle.mm_page.specs.Leaf.{IsLeaf};

    ghost Value = { List ℕ };

    ghost view = { λ a. a.bytes.value };

    ghost invariant = { λ a. IsLeaf a.bytes.value };
}

impl Page {
    /// The page with these bytes, or the first of a leaf's own rules that they break, as damage of the page with this
    /// number.
    #[tactic(auto, using(crate::proofs::Valid::leaf_valid))]
    pub fn from_bytes(alloc: Global, number: u64, bytes: &[u8; 4096]) -> Result<Page, Fault>
        ensures page { IfOk result (λ p. p ≡ bytes.now) }
        ensures sound { OnOk result (fault_of bytes.now ≡ Option.None) }
        ensures damaged { IfErr result (λ e. (e ≡ Fault.Memory) ⊎ (option_map (damaged number) (fault_of bytes.now) ≡ Option.Some e)) }
        ensures valid { IsLeaf bytes.now → IfErr result (λ e. e ≡ Fault.Memory) }
    {
        if let Some(wrong) = fault_in(bytes) {
            return Err(Fault::Damaged(Damage::Page {
                page: number,
                why: wrong.why,
                stored: wrong.stored,
                due: wrong.due,
            }));
        }
        match Box::new(alloc, *bytes) {
            Ok(bytes) => Ok(Page { bytes }),
            Err(_) => Err(Fault::Memory),
        }
    }

    /// A leaf without entries, behind which comes none.
    pub fn empty(alloc: Global) -> Result<Page, AllocError>
        ensures entries { IfOk result (λ p. entries_of p ≡ []) }
        ensures next { IfOk result (λ p. next_of p ≡ 0) }
        ensures tidy { IfOk result (λ p. IsTidy p) }
        ensures leaf { IfOk result (λ p. IsLeaf p) }
    {
        let mut bytes = [0; 4096];
        make_empty(&mut bytes);
        let bytes = Box::new(alloc, bytes)?;
        Ok(Page { bytes })
    }

    /// The same page once more.
    pub fn copy(&self, alloc: Global) -> Result<Page, AllocError>
        ensures { IfOk result (λ p. p ≡ self.now) }
    {
        let bytes = Box::new(alloc, *self.bytes)?;
        Ok(Page { bytes })
    }

    /// The bytes of the page.
    pub fn bytes(&self) -> &[u8; 4096]
        ensures bytes { result.now ≡ self.now }
        ensures leaf { IsLeaf self.now }
    {
        &self.bytes
    }

    /// The number of the next leaf, 0 for none.
    pub fn next(&self) -> u64
        ensures { result ≡ next_of self.now }
    {
        read_eight(&*self.bytes, 4)
    }

    /// Sets the number of the next leaf. All other bytes stay.
    pub fn set_next(&mut self, next: u64)
        ensures entries { entries_of self.new ≡ entries_of self.old }
        ensures next { next_of self.new ≡ next }
        ensures bytes { self.new ≡ pasted self.old 4 (big_bytes 8 next) }
        ensures leaf { IsLeaf self.new }
    {
        set_next_in(&mut *self.bytes, next);
    }

    /// How many entries there are.
    pub fn len(&self) -> usize
        ensures length { result ≡ length (entries_of self.now) }
        ensures leaf { IsLeaf self.now }
    {
        read_two(&*self.bytes, 2)
    }

    /// How many bytes are free for further entries, of which each takes 6 more than its key and value.
    pub fn room(&self) -> usize
        ensures room { result + size (entries_of self.now) ≡ 4080 }
        ensures leaf { IsLeaf self.now }
    {
        room_in(&*self.bytes)
    }

    /// Lends the entry at an index.
    pub fn entry(&self, index: usize) -> EntryRef<'_>
        requires { index < length (entries_of self.now) }
        ensures { slice_get (entries_of self.now) index ≡ Some (result.key.now, result.value.now) }
    {
        entry_in(&*self.bytes, index)
    }

    /// The index of a key, or as `Err` the index where it belongs.
    pub fn find(&self, key: &[u8]) -> Result<usize, usize>
        ensures found { IfOk result (λ i. (i ≡ rank (entries_of self.now) key.now) × (has (entries_of self.now) key.now ≡ true)) }
        ensures missing { IfErr result (λ i. (i ≡ rank (entries_of self.now) key.now) × (has (entries_of self.now) key.now ≡ false)) }
        ensures leaf { IsLeaf self.now }
    {
        find_in(&*self.bytes, key)
    }

    /// Puts an entry in at the index where its key belongs. What isn't read is written as 00.
    #[tactic(auto, using(mm_keeper::specs::Facts::Keys::rank_at_most))]
    pub fn insert(&mut self, index: usize, key: &[u8], value: &[u8])
        requires index { index ≡ rank (entries_of self.old) key.now }
        requires fresh { has (entries_of self.old) key.now ≡ false }
        requires key { (1 ≤ length key.now) × (length key.now ≤ 800) }
        requires value { length value.now ≤ 1024 }
        requires room { size (insert (entries_of self.old) index (key.now, value.now)) ≤ 4080 }
        ensures entries { entries_of self.new ≡ insert (entries_of self.old) index (key.now, value.now) }
        ensures next { next_of self.new ≡ next_of self.old }
        ensures tidy { IsTidy self.new }
        ensures leaf { IsLeaf self.new }
    {
        insert_in(&mut *self.bytes, index, key, value);
    }

    /// Gives the entry at an index another value. What isn't read is written as 00.
    pub fn set(&mut self, index: usize, value: &[u8])
        requires index { index < length (entries_of self.old) }
        requires value { length value.now ≤ 1024 }
        requires room { size (revalued (entries_of self.old) index value.now) ≤ 4080 }
        ensures entries { entries_of self.new ≡ revalued (entries_of self.old) index value.now }
        ensures next { next_of self.new ≡ next_of self.old }
        ensures tidy { IsTidy self.new }
        ensures leaf { IsLeaf self.new }
    {
        set_in(&mut *self.bytes, index, value);
    }

    /// Takes the entry at an index out. What isn't read is written as 00.
    pub fn remove(&mut self, index: usize)
        requires { index < length (entries_of self.old) }
        ensures entries { entries_of self.new ≡ remove (entries_of self.old) index }
        ensures next { next_of self.new ≡ next_of self.old }
        ensures tidy { IsTidy self.new }
        ensures leaf { IsLeaf self.new }
    {
        remove_in(&mut *self.bytes, index);
    }

    /// Moves the entries from an index on into an empty page. What isn't read is written as 00 in both.
    pub fn split(&mut self, fresh: &mut Page, index: usize)
        requires index { index ≤ length (entries_of self.old) }
        requires fresh { entries_of fresh.old ≡ [] }
        ensures entries { entries_of self.new ≡ take index (entries_of self.old) }
        ensures next { next_of self.new ≡ next_of self.old }
        ensures tidy { IsTidy self.new }
        ensures leaf { IsLeaf self.new }
        ensures fresh_entries { entries_of fresh.new ≡ drop index (entries_of self.old) }
        ensures fresh_next { next_of fresh.new ≡ next_of fresh.old }
        ensures fresh_tidy { IsTidy fresh.new }
        ensures fresh_leaf { IsLeaf fresh.new }
    {
        copy_tail(&*self.bytes, index, &mut *fresh.bytes);
        truncate(&mut *self.bytes, index);
    }
}
