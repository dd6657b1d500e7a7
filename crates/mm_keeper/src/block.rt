// Some entries that stand next to each other, in a vector.
ghost use Rattle.std.specs.Prelude.{◌≡◌, ◌≤◌, ◌<◌, ◌++◌, true, [], length, option_map, OnOk, OnErr, IfOk, IfSome, vec_capacity};
ghost use Rattle.mm_keeper.specs.Entries.{Rises, rank, has, lookup, put};
ghost use Rattle.mm_keeper.specs.Inside.Finding.{ends_below};

use crate::entry::Item;
use std::alloc::AllocError;
use std::marker::Model;
use std::mem;

// How many entries a block has at most.
pub(crate) const ROOM: usize = 256;

/// Some entries that stand next to each other.
#[derive(Drop)]
pub(crate) struct Block {
    pub(crate) items: Vec<Item>,
}

impl Model for Block {
    ghost use Rattle.mm_keeper.specs.Entries.{Entries};

    ghost Value = { Entries };

    ghost view = { λ block. block.items.items };
}

impl Block {
    pub(crate) fn items(&self) -> &[Item]
        ensures { result.now ≡ self.now }
    {
        self.items.as_slice()
    }

    pub(crate) fn len(&self) -> usize
        ensures { result ≡ length self.now }
    {
        self.items.len()
    }

    // Whether its last key is below this one.
    pub(crate) fn ends_below(&self, key: &[u8]) -> bool
        ensures { result ≡ ends_below self.now key.now }
    {
        let items = self.items.as_slice();
        let count = items.len();
        count == 0 || items[count - 1].is_below(key)
    }
}

// How many keys are below this one.
pub(crate) fn rank_of(items: &[Item], key: &[u8]) -> usize
    requires { Rises items.now }
    ensures rank { result ≡ rank items.now key.now }
    ensures within { result ≤ length items.now }
{
    items.partition_point(|item| item.is_below(key))
}

// Whether the key stands at its rank.
pub(crate) fn holds(items: &[Item], at: usize, key: &[u8]) -> bool
    requires { at ≡ rank items.now key.now }
    ensures has { result ≡ has items.now key.now }
    ensures within { result ≡ true → at < length items.now }
{
    at < items.len() && items[at].has_key(key)
}

// Puts an entry, and answers the one whose place it took.
pub(crate) fn place_in(items: &mut Vec<Item>, entry: Item) -> Result<Option<Item>, AllocError>
    requires { Rises items.old.items }
    ensures ok { OnOk result (items.new.items ≡ put items.old.items entry.0 entry.1) }
    ensures before { IfOk result (λ before. option_map (λ e. e.1) before ≡ lookup items.old.items entry.0) }
    ensures key { IfOk result (λ before. IfSome before (λ e. e.0 ≡ entry.0)) }
    ensures err { OnErr result (items.new.items ≡ items.old.items) }
{
    let at = rank_of(items.as_slice(), entry.key());
    if holds(items.as_slice(), at, entry.key()) {
        return Ok(Some(mem::replace(&mut items[at], entry)));
    }
    items.insert(at, entry)?;
    Ok(None)
}

// Moves the last entries of a vector into an empty one that has room for them.
pub(crate) fn move_last(count: usize, low: &mut Vec<Item>, high: &mut Vec<Item>)
    requires empty { high.old.items ≡ [] }
    requires room { count ≤ vec_capacity high.old }
    requires some { 0 < count }
    requires fewer { count < length low.old.items }
    ensures same { low.new.items ++ high.new.items ≡ low.old.items }
    ensures low { 0 < length low.new.items }
    ensures high { 0 < length high.new.items }
{
    for _ in 0..count {
        match low.pop() {
            Some(item) => high.push_reserved(item),
            None => unreachable!(),
        }
    }
    high.reverse();
}

// Takes the last half out of a full block.
pub(crate) fn halve(items: &mut Vec<Item>) -> Result<Block, AllocError>
    requires { 256 ≤ length items.old.items }
    ensures ok { IfOk result (λ high. items.new.items ++ high ≡ items.old.items) }
    ensures low { 0 < length items.new.items }
    ensures high { IfOk result (λ high. 0 < length high) }
    ensures err { OnErr result (items.new.items ≡ items.old.items) }
{
    let mut high = Vec::with_capacity(*items.allocator(), ROOM)?;
    move_last(ROOM / 2, items, &mut high);
    Ok(Block { items: high })
}
