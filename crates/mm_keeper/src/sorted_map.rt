// A sorted map in memory, in blocks of entries.
ghost use Rattle.std.specs.Prelude.{◌≡◌, ◌≤◌, ◌<◌, ◌+◌, ◌-◌, ◌^◌, ◌⊎◌, ◌↔◌, IsTrue, ℕ, suc, [], ◌∷◌, length, take, drop, Some, option_map, slice_get, slice_index_or, true, remove, IfOk, IfSome, OnOk, OnErr};
ghost use Rattle.mm_keeper.specs.Entries.{AllBelow, HasRoom, IsSorted, Rises, IsBelow, rank, has, lookup, put, without, index_of, within, one_before, first_from, last_to, weight_of};
ghost use Rattle.mm_keeper.specs.Blocks.{joined, AllSome, IsMap};
ghost use Rattle.mm_keeper.specs.Places.{place_of};
ghost use Rattle.mm_keeper.specs.Inside.Finding.{IsAt};

use crate::block::{Block, ROOM, halve, holds, place_in, rank_of};
use crate::entry::{EntryRef, Item};
use crate::spot::Spot;
use std::alloc::{AllocError, Global};
use std::marker::Model;

// The block in which a key is sought.
fn block_of(blocks: &[Block], key: &[u8]) -> usize
    requires rises { Rises (joined blocks.now) }
    requires some { AllSome blocks.now }
    ensures at { IsAt blocks.now key.now result }
    ensures within { result ≤ length blocks.now }
{
    blocks.partition_point(|block| block.ends_below(key))
}

// Where a key is sought, and whether it is there.
fn locate(blocks: &[Block], key: &[u8]) -> (Spot, bool)
    requires rises { Rises (joined blocks.now) }
    requires some { AllSome blocks.now }
    ensures at { IsAt blocks.now key.now result.0.block }
    ensures within { result.0.block ≤ length blocks.now }
    ensures index { result.0.index ≡ rank (slice_index_or blocks.now result.0.block []) key.now }
    ensures has { result.1 ≡ has (joined blocks.now) key.now }
    ensures block { result.1 ≡ true → result.0.block < length blocks.now }
    ensures inside { result.1 ≡ true → result.0.index < length (slice_index_or blocks.now result.0.block []) }
{
    let block = block_of(blocks, key);
    if block == blocks.len() {
        return (Spot { block, index: 0 }, false);
    }
    let index = rank_of(blocks[block].items(), key);
    let found = holds(blocks[block].items(), index, key);
    (Spot { block, index }, found)
}

// The entry before this spot, which may stand behind the last one.
fn spot_before(blocks: &[Block], spot: Spot) -> Option<Spot>
    requires some { AllSome blocks.now }
    requires block { spot.block ≤ length blocks.now }
    requires index { (spot.index ≡ 0) ⊎ (spot.index < length (slice_index_or blocks.now spot.block [])) }
    ensures { option_map (λ s. place_of blocks.now s) result ≡ one_before (place_of blocks.now spot) }
{
    let Spot { block, index } = spot;
    if index > 0 {
        return Some(Spot {
            block,
            index: index - 1,
        });
    }
    if block == 0 {
        return None;
    }
    let index = blocks[block - 1].len() - 1;
    Some(Spot {
        block: block - 1,
        index,
    })
}

// The entry after this one.
fn spot_after(blocks: &[Block], spot: Spot) -> Option<Spot>
    requires some { AllSome blocks.now }
    requires block { spot.block < length blocks.now }
    requires index { spot.index < length (slice_index_or blocks.now spot.block []) }
    ensures { option_map (λ s. place_of blocks.now s) result ≡ within (joined blocks.now) (place_of blocks.now spot + 1) }
{
    let Spot { block, index } = spot;
    let count = blocks[block].len();
    if index + 1 < count {
        return Some(Spot {
            block,
            index: index + 1,
        });
    }
    if block + 1 < blocks.len() {
        return Some(Spot {
            block: block + 1,
            index: 0,
        });
    }
    None
}

// Where the key stands.
fn find(blocks: &[Block], key: &[u8]) -> Option<Spot>
    requires rises { Rises (joined blocks.now) }
    requires some { AllSome blocks.now }
    ensures { option_map (λ s. place_of blocks.now s) result ≡ index_of (joined blocks.now) key.now }
{
    let (spot, found) = locate(blocks, key);
    if found { Some(spot) } else { None }
}

// The first entry at or above the key.
fn find_up(blocks: &[Block], key: &[u8]) -> Option<Spot>
    requires rises { Rises (joined blocks.now) }
    requires some { AllSome blocks.now }
    ensures { option_map (λ s. place_of blocks.now s) result ≡ first_from (joined blocks.now) key.now }
{
    let (spot, _) = locate(blocks, key);
    if spot.block < blocks.len() {
        Some(spot)
    } else {
        None
    }
}

// The last entry at or below the key.
fn find_down(blocks: &[Block], key: &[u8]) -> Option<Spot>
    requires rises { Rises (joined blocks.now) }
    requires some { AllSome blocks.now }
    ensures { option_map (λ s. place_of blocks.now s) result ≡ last_to (joined blocks.now) key.now }
{
    let (spot, found) = locate(blocks, key);
    if found {
        Some(spot)
    } else {
        spot_before(blocks, spot)
    }
}

// Lends the entry at a spot.
fn entry_at(blocks: &[Block], spot: Spot) -> EntryRef<'_>
    requires block { spot.block < length blocks.now }
    requires index { spot.index < length (slice_index_or blocks.now spot.block []) }
    ensures { slice_get (joined blocks.now) (place_of blocks.now spot) ≡ Some (result.key.now, result.value.now) }
{
    let items = blocks[spot.block].items();
    let item = &items[spot.index];
    EntryRef {
        key: item.key(),
        value: item.value(),
    }
}

// Whether an entry stands at a spot.
fn stands(blocks: &[Block], spot: Spot) -> bool
    ensures { IsTrue result ↔ (place_of blocks.now spot < length (joined blocks.now)) }
{
    if spot.block >= blocks.len() {
        return false;
    }
    if spot.index >= blocks[spot.block].items().len() {
        return false;
    }
    true
}

// The block into which an entry is put.
fn seat_of(blocks: &[Block], key: &[u8]) -> usize
    requires rises { Rises (joined blocks.now) }
    requires some { AllSome blocks.now }
    requires block { 0 < length blocks.now }
    ensures front { AllBelow (joined (take result blocks.now)) key.now }
    ensures back { IsBelow key.now (joined (drop (suc result) blocks.now)) }
    ensures within { result < length blocks.now }
{
    let at = block_of(blocks, key);
    if at == blocks.len() { at - 1 } else { at }
}

// Parts a full block in two.
fn split(blocks: &mut Vec<Block>, at: usize) -> Result<(), AllocError>
    requires at { at < length blocks.old.items }
    requires full { 256 ≤ length (slice_index_or blocks.old.items at []) }
    requires some { AllSome blocks.old.items }
    ensures same { joined blocks.new.items ≡ joined blocks.old.items }
    ensures some { AllSome blocks.new.items }
{
    blocks.reserve(1)?;
    let high = match halve(&mut blocks[at].items) {
        Ok(high) => high,
        Err(error) => return Err(error),
    };
    match blocks.insert(at + 1, high) {
        Ok(()) => Ok(()),
        Err(_) => unreachable!(),
    }
}

// Makes room for one more entry where the key belongs. No entry changes.
fn make_room(blocks: &mut Vec<Block>, key: &[u8]) -> Result<(), AllocError>
    requires rises { Rises (joined blocks.old.items) }
    requires some { AllSome blocks.old.items }
    ensures same { joined blocks.new.items ≡ joined blocks.old.items }
    ensures some { AllSome blocks.new.items }
{
    if blocks.is_empty() {
        return Ok(());
    }
    let at = seat_of(blocks.as_slice(), key);
    if blocks[at].len() < ROOM {
        return Ok(());
    }
    split(blocks, at)
}

// A first block, with one entry.
fn put_first(blocks: &mut Vec<Block>, entry: Item) -> Result<(), AllocError>
    requires { blocks.old.items ≡ [] }
    ensures ok { OnOk result (joined blocks.new.items ≡ (entry.0, entry.1) ∷ []) }
    ensures err { OnErr result (blocks.new.items ≡ []) }
    ensures some { AllSome blocks.new.items }
{
    let mut items = Vec::with_capacity(*blocks.allocator(), ROOM)?;
    items.push(entry)?;
    blocks.push(Block { items })?;
    Ok(())
}

// Puts an entry, and answers the one whose place it took.
fn put_in(blocks: &mut Vec<Block>, entry: Item) -> Result<Option<Item>, AllocError>
    requires rises { Rises (joined blocks.old.items) }
    requires some { AllSome blocks.old.items }
    ensures ok { OnOk result (joined blocks.new.items ≡ put (joined blocks.old.items) entry.0 entry.1) }
    ensures before { IfOk result (λ before. option_map (λ e. e.1) before ≡ lookup (joined blocks.old.items) entry.0) }
    ensures key { IfOk result (λ before. IfSome before (λ e. e.0 ≡ entry.0)) }
    ensures err { OnErr result (joined blocks.new.items ≡ joined blocks.old.items) }
    ensures some { AllSome blocks.new.items }
{
    if blocks.is_empty() {
        put_first(blocks, entry)?;
        return Ok(None);
    }
    let at = seat_of(blocks.as_slice(), entry.key());
    match place_in(&mut blocks[at].items, entry) {
        Ok(before) => Ok(before),
        Err(error) => Err(error),
    }
}

// Takes out the entry of the key.
fn take_out(blocks: &mut Vec<Block>, key: &[u8]) -> Option<Item>
    requires rises { Rises (joined blocks.old.items) }
    requires some { AllSome blocks.old.items }
    ensures without { joined blocks.new.items ≡ without (joined blocks.old.items) key.now }
    ensures before { result ≡ option_map (λ v. (key.now, v)) (lookup (joined blocks.old.items) key.now) }
    ensures some { AllSome blocks.new.items }
{
    let (spot, found) = locate(blocks.as_slice(), key);
    if found {
        let item = blocks[spot.block].items.remove(spot.index);
        drop_empty(blocks, spot.block);
        Some(item)
    } else {
        None
    }
}

// Takes a block out if it is empty.
fn drop_empty(blocks: &mut Vec<Block>, at: usize)
    requires at { at < length blocks.old.items }
    requires some { AllSome (remove blocks.old.items at) }
    ensures same { joined blocks.new.items ≡ joined blocks.old.items }
    ensures some { AllSome blocks.new.items }
{
    if blocks[at].len() == 0 {
        blocks.remove(at);
    }
}

// Puts an entry, and keeps the weight.
fn put_weighed(
    blocks: &mut Vec<Block>,
    weight: &mut u64,
    key: &[u8],
    value: &[u8],
) -> Result<Option<Item>, AllocError>
    requires sound { IsMap blocks.old.items weight.old }
    requires room { HasRoom (joined blocks.old.items) key.now value.now }
    ensures ok { OnOk result (joined blocks.new.items ≡ put (joined blocks.old.items) key.now value.now) }
    ensures before { IfOk result (λ before. option_map (λ e. e.1) before ≡ lookup (joined blocks.old.items) key.now) }
    ensures key { IfOk result (λ before. IfSome before (λ e. e.0 ≡ key.now)) }
    ensures err { OnErr result (joined blocks.new.items ≡ joined blocks.old.items) }
    ensures sound { IsMap blocks.new.items weight.new }
{
    let entry = Item::new(*blocks.allocator(), key, value)?;
    make_room(blocks, key)?;
    match put_in(blocks, entry) {
        Ok(Some(before)) => {
            *weight = *weight - before.value().len() as u64 + value.len() as u64;
            Ok(Some(before))
        }
        Ok(None) => {
            *weight += key.len() as u64 + value.len() as u64;
            Ok(None)
        }
        Err(error) => Err(error),
    }
}

// Takes out the entry of the key, and keeps the weight.
fn take_weighed(blocks: &mut Vec<Block>, weight: &mut u64, key: &[u8]) -> Option<Item>
    requires sound { IsMap blocks.old.items weight.old }
    ensures without { joined blocks.new.items ≡ without (joined blocks.old.items) key.now }
    ensures before { result ≡ option_map (λ v. (key.now, v)) (lookup (joined blocks.old.items) key.now) }
    ensures sound { IsMap blocks.new.items weight.new }
{
    match take_out(blocks, key) {
        Some(before) => {
            *weight = *weight - before.key().len() as u64 - before.value().len() as u64;
            Some(before)
        }
        None => None,
    }
}

/// A sorted map in memory from keys to values. Contracts see it as its blocks of entries. A change in the
/// middle moves the entries of one block.
#[derive(Drop)]
pub struct SortedMap {
    blocks: Vec<Block>,
    weight: u64,
}

impl Model for SortedMap {
    ghost use Rattle.mm_keeper.specs.Blocks.{Blocks, IsMap};

    ghost Value = { Blocks };

    ghost view = { λ map. map.blocks.items };

    ghost invariant = { λ map. IsMap map.blocks.items map.weight };
}

impl SortedMap {
    /// A map without entries. It takes no memory.
    pub fn new(alloc: Global) -> SortedMap
        ensures { result ≡ [] }
    {
        SortedMap {
            blocks: Vec::new(alloc),
            weight: 0,
        }
    }

    /// The lengths of all keys and values together.
    pub fn weight(&self) -> u64
        ensures { result ≡ weight_of (joined self.now) }
    {
        self.weight
    }

    /// Where the key stands.
    pub fn get(&self, key: &[u8]) -> Option<Spot>
        ensures { option_map (λ s. place_of self.now s) result ≡ index_of (joined self.now) key.now }
    {
        find(self.blocks.as_slice(), key)
    }

    /// The first entry at or above the key.
    pub fn up(&self, key: &[u8]) -> Option<Spot>
        ensures { option_map (λ s. place_of self.now s) result ≡ first_from (joined self.now) key.now }
    {
        find_up(self.blocks.as_slice(), key)
    }

    /// The last entry at or below the key.
    pub fn down(&self, key: &[u8]) -> Option<Spot>
        ensures { option_map (λ s. place_of self.now s) result ≡ last_to (joined self.now) key.now }
    {
        find_down(self.blocks.as_slice(), key)
    }

    /// The entry after this one.
    pub fn after(&self, spot: Spot) -> Option<Spot>
        requires { place_of self.now spot < length (joined self.now) }
        ensures { option_map (λ s. place_of self.now s) result ≡ within (joined self.now) (place_of self.now spot + 1) }
    {
        spot_after(self.blocks.as_slice(), spot)
    }

    /// The entry before this one.
    pub fn before(&self, spot: Spot) -> Option<Spot>
        requires { place_of self.now spot < length (joined self.now) }
        ensures { option_map (λ s. place_of self.now s) result ≡ one_before (place_of self.now spot) }
    {
        spot_before(self.blocks.as_slice(), spot)
    }

    /// Whether an entry stands at a spot.
    pub fn stands(&self, spot: Spot) -> bool
        ensures { IsTrue result ↔ (place_of self.now spot < length (joined self.now)) }
    {
        stands(self.blocks.as_slice(), spot)
    }

    /// Lends the key and the value of an entry.
    pub fn entry(&self, spot: Spot) -> EntryRef<'_>
        requires { place_of self.now spot < length (joined self.now) }
        ensures { slice_get (joined self.now) (place_of self.now spot) ≡ Some (result.key.now, result.value.now) }
    {
        entry_at(self.blocks.as_slice(), spot)
    }

    /// Puts an entry, and answers the one whose place it took. Where there is no memory no entry changed.
    pub fn put(&mut self, key: &[u8], value: &[u8]) -> Result<Option<Item>, AllocError>
        requires { HasRoom (joined self.old) key.now value.now }
        ensures ok { OnOk result (joined self.new ≡ put (joined self.old) key.now value.now) }
        ensures before { IfOk result (λ before. option_map (λ e. e.1) before ≡ lookup (joined self.old) key.now) }
        ensures key { IfOk result (λ before. IfSome before (λ e. e.0 ≡ key.now)) }
        ensures err { OnErr result (joined self.new ≡ joined self.old) }
        ensures sorted { IsSorted (joined self.new) }
    {
        match put_weighed(&mut self.blocks, &mut self.weight, key, value) {
            Ok(before) => Ok(before),
            Err(error) => Err(error),
        }
    }

    /// Takes out the entry of the key, and answers it.
    pub fn remove(&mut self, key: &[u8]) -> Option<Item>
        ensures without { joined self.new ≡ without (joined self.old) key.now }
        ensures before { result ≡ option_map (λ v. (key.now, v)) (lookup (joined self.old) key.now) }
        ensures sorted { IsSorted (joined self.new) }
    {
        take_weighed(&mut self.blocks, &mut self.weight, key)
    }
}
