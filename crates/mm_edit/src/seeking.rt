//! Nodes that single look-ups find, by the keys of their content.

ghost use Rattle.std.specs.Prelude.{◌≡◌, ◌∷◌, ◌++◌, ◌+◌, ◌≤◌, ◌<◌, ℕ, List, Option, IfOk, IfErr, length, option_map, slice_get};
ghost use Rattle.mm_host.specs.declared.damage.Fault.{Fault};
ghost use Rattle.mm_image.specs.Ground.{Accounts, SameGround};
ghost use Rattle.mm_image.specs.Keys.{chunk_key};
ghost use Rattle.mm_image.specs.Looking.{entry_at};
ghost use Rattle.mm_keeper.specs.Entries.{first_from, index_of, last_to};
ghost use Rattle.mm_keeper.specs.Keeping.{fault_of};
ghost use Rattle.mm_label.specs.Bytes.{bytes_of};
ghost use Rattle.mm_label.specs.Refusals.{front_of};
ghost use Rattle.mm_edit.specs.Inside.Counting.{IsOwn};
ghost use Rattle.mm_edit.specs.Inside.Placing.{BlamesKey, TellsLabel, begins_text, is_text_in};

use mm_host::{Bytes, Damage, Fault};
use mm_image::{Parsed, chunk_key, parse_key};
use mm_keeper::Keeper;
use mm_label::Label;
use mm_steps::Steps;
use std::alloc::{AllocError, Global};
use std::sync::ledger::Ledger;

/// The bytes of the label, or none.
fn bytes_in(label: Option<&Label>) -> &[u8]
    ensures { result.now ≡ bytes_of (front_of (option_map (λ l. l.now) label.entry)) }
{
    match label {
        Some(label) => label.as_bytes(),
        None => &[],
    }
}

/// The key of 01, the label's bytes if there is one, and these behind them.
pub fn seek_key(alloc: Global, label: Option<&Label>, behind: &[u8]) -> Result<Vec<u8>, AllocError>
    ensures { IfOk result (λ key. key.items ≡ 1 ∷ bytes_of (front_of (option_map (λ l. l.now) label.entry)) ++ behind.now) }
{
    let front = bytes_in(label);
    let mut key = Vec::new(alloc);
    key.push(1)?;
    key.extend_from_slice(front)?;
    key.extend_from_slice(behind)?;
    Ok(key)
}

/// The label in the key of a piece of a node; None where the key is of another sort.
fn label_in(alloc: Global, key: &[u8]) -> Result<Option<Label>, Fault>
    ensures told { (value : List ℕ) → IfOk result (TellsLabel (Option.Some (key.now, value))) }
    ensures damaged { (value : List ℕ) → IfErr result (BlamesKey (Option.Some (key.now, value))) }
    ensures own { IfErr result IsOwn }
{
    match parse_key(alloc, key)? {
        Some(Parsed::Chunk { label, .. }) => Ok(Some(label)),
        Some(_) => Ok(None),
        None => Err(Fault::Damaged(Damage::Key {
            key: Bytes::from_slice(alloc, key)?,
        })),
    }
}

/// The label in the key of the entry at a spot.
fn label_at<K: Keeper>(alloc: Global, keeper: &mut K, spot: K::Spot) -> Result<Option<Label>, Fault>
    requires sound { K.is_sound keeper.old }
    requires stands { K.has_maps keeper.old → (K.seen keeper.old).place spot < length (K.seen keeper.old).now }
    ensures told { K.has_maps keeper.old → IfOk result (TellsLabel (slice_get (K.seen keeper.old).now ((K.seen keeper.old).place spot))) }
    ensures damaged { K.has_maps keeper.old → IfErr result (BlamesKey (slice_get (K.seen keeper.old).now ((K.seen keeper.old).place spot))) }
    ensures ground { SameGround K.over K.has_maps K.tells K.seen K.written K.changes K.moment K.left_since keeper.old keeper.new }
    ensures accounts { Accounts K.is_sound K.is_spent K.fault_count K.want_count keeper.old keeper.new (fault_of result) }
{
    match keeper.entry(spot) {
        Ok(entry) => label_in(alloc, entry.key),
        Err(error) => Err(error.into_fault()),
    }
}

/// The label in the first key at or above this one, if it is that of a node's piece.
#[tactic(auto, using(mm_keeper::specs::Facts::InRange::first_in_range))]
pub fn first_label<K: Keeper, L: Ledger>(
    alloc: Global,
    keeper: &mut K,
    key: &[u8],
    steps: &mut Steps<L>,
) -> Result<Option<Label>, Fault>
    requires { K.is_sound keeper.old }
    ensures told { K.has_maps keeper.old → IfOk result (TellsLabel (entry_at (K.seen keeper.old).now (first_from (K.seen keeper.old).now key.now))) }
    ensures damaged { K.has_maps keeper.old → IfErr result (BlamesKey (entry_at (K.seen keeper.old).now (first_from (K.seen keeper.old).now key.now))) }
    ensures ground { SameGround K.over K.has_maps K.tells K.seen K.written K.changes K.moment K.left_since keeper.old keeper.new }
    ensures accounts { Accounts K.is_sound K.is_spent K.fault_count K.want_count keeper.old keeper.new (fault_of result) }
    ensures step { steps.new ≡ steps.old + 1 }
{
    match keeper.up(key, steps)? {
        Some(spot) => label_at(alloc, keeper, spot),
        None => Ok(None),
    }
}

/// The label in the last key at or below this one, if it is that of a node's piece.
#[tactic(auto, using(mm_keeper::specs::Facts::InRange::last_in_range))]
pub fn last_label<K: Keeper, L: Ledger>(
    alloc: Global,
    keeper: &mut K,
    key: &[u8],
    steps: &mut Steps<L>,
) -> Result<Option<Label>, Fault>
    requires { K.is_sound keeper.old }
    ensures told { K.has_maps keeper.old → IfOk result (TellsLabel (entry_at (K.seen keeper.old).now (last_to (K.seen keeper.old).now key.now))) }
    ensures damaged { K.has_maps keeper.old → IfErr result (BlamesKey (entry_at (K.seen keeper.old).now (last_to (K.seen keeper.old).now key.now))) }
    ensures ground { SameGround K.over K.has_maps K.tells K.seen K.written K.changes K.moment K.left_since keeper.old keeper.new }
    ensures accounts { Accounts K.is_sound K.is_spent K.fault_count K.want_count keeper.old keeper.new (fault_of result) }
    ensures step { steps.new ≡ steps.old + 1 }
{
    match keeper.down(key, steps)? {
        Some(spot) => label_at(alloc, keeper, spot),
        None => Ok(None),
    }
}

/// Whether the bytes begin as a text's content.
fn begins_text(bytes: &[u8]) -> bool
    ensures { result ≡ begins_text bytes.now }
{
    match bytes.first() {
        Some(first) => *first == b'T',
        None => false,
    }
}

/// Whether the entry at a spot is the first piece of a text.
fn is_text_at<K: Keeper>(keeper: &mut K, spot: K::Spot) -> Result<bool, Fault>
    requires sound { K.is_sound keeper.old }
    requires stands { K.has_maps keeper.old → (K.seen keeper.old).place spot < length (K.seen keeper.old).now }
    ensures told { K.has_maps keeper.old → IfOk result (λ t. is_text_in (slice_get (K.seen keeper.old).now ((K.seen keeper.old).place spot)) ≡ Option.Some t) }
    ensures undamaged { K.has_maps keeper.old → IfErr result (BlamesKey Option.None) }
    ensures ground { SameGround K.over K.has_maps K.tells K.seen K.written K.changes K.moment K.left_since keeper.old keeper.new }
    ensures accounts { Accounts K.is_sound K.is_spent K.fault_count K.want_count keeper.old keeper.new (fault_of result) }
{
    match keeper.entry(spot) {
        Ok(entry) => Ok(begins_text(entry.value)),
        Err(error) => Err(error.into_fault()),
    }
}

/// Whether the node with the label is a text; None where the map doesn't hold its first piece.
#[tactic(auto, using(mm_keeper::specs::Facts::InRange::index_in_range))]
pub fn is_text<K: Keeper, L: Ledger>(
    alloc: Global,
    keeper: &mut K,
    label: &Label,
    steps: &mut Steps<L>,
) -> Result<Option<bool>, Fault>
    requires { K.is_sound keeper.old }
    ensures told { K.has_maps keeper.old → IfOk result (λ t. t ≡ is_text_in (entry_at (K.seen keeper.old).now (index_of (K.seen keeper.old).now (chunk_key label.now 0)))) }
    ensures undamaged { K.has_maps keeper.old → IfErr result (BlamesKey Option.None) }
    ensures ground { SameGround K.over K.has_maps K.tells K.seen K.written K.changes K.moment K.left_since keeper.old keeper.new }
    ensures accounts { Accounts K.is_sound K.is_spent K.fault_count K.want_count keeper.old keeper.new (fault_of result) }
    ensures cost { steps.new ≤ steps.old + 1 }
{
    let key = chunk_key(alloc, label, 0)?;
    match keeper.get(key.as_slice(), steps)? {
        Some(spot) => Ok(Some(is_text_at(keeper, spot)?)),
        None => Ok(None),
    }
}
