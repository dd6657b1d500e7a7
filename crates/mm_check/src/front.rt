//! The entries whose keys stand before all chunk keys.

ghost use Rattle.std.specs.Prelude.{◌≡◌, ◌+◌, ◌<◌, ◌∷◌, [], IfErr, Some, length, slice_get};
ghost use Rattle.mm_keeper.specs.Entries.{Entry, below};
ghost use Rattle.mm_image.specs.Ground.{Accounts, SameGround};
ghost use Rattle.mm_check.specs.Inside.Stopping.{Fronts, NamesBefore, WantsAlone, fault_in};

use crate::stop::{Stop, not_due};
use mm_keeper::Keeper;
use mm_steps::Steps;
use std::alloc::Global;
use std::sync::ledger::Ledger;

fn is_before_chunks(key: &[u8]) -> bool
    ensures { result ≡ below key.now (1 ∷ []) }
{
    let first: &[u8] = &[1];
    key.cmp(first).is_lt()
}

/// Names the entry, where its key stands before all chunk keys.
fn judge_front(alloc: Global, key: &[u8], value: &[u8]) -> Result<(), Stop>
    ensures before { NamesBefore (key.now, value.now) result }
    ensures wants { IfErr result WantsAlone }
{
    if is_before_chunks(key) {
        Err(Stop::Named(not_due(alloc, key, value)?))
    } else {
        Ok(())
    }
}

/// Names the entry at the spot, where its key stands before all chunk keys.
fn expect_not_before<K: Keeper>(alloc: Global, keeper: &mut K, spot: K::Spot) -> Result<(), Stop>
    requires sound { K.is_sound keeper.old }
    requires stands { K.has_maps keeper.old → (K.seen keeper.old).place spot < length (K.seen keeper.old).now }
    ensures before { K.has_maps keeper.old → (e : Entry) → slice_get (K.seen keeper.old).now ((K.seen keeper.old).place spot) ≡ Some e → NamesBefore e result }
    ensures ground { SameGround K.over K.has_maps K.tells K.seen K.written K.changes K.moment K.left_since keeper.old keeper.new }
    ensures accounts { Accounts K.is_sound K.is_spent K.fault_count K.want_count keeper.old keeper.new (fault_in result) }
{
    match keeper.entry(spot) {
        Ok(entry) => judge_front(alloc, entry.key, entry.value),
        Err(error) => Err(Stop::Fault(error.into_fault())),
    }
}

/// Names the first entry of the map, where its key stands before all chunk keys.
pub fn expect_none_before<K: Keeper, L: Ledger>(
    alloc: Global,
    keeper: &mut K,
    steps: &mut Steps<L>,
) -> Result<(), Stop>
    requires { K.is_sound keeper.old }
    ensures fronts { K.has_maps keeper.old → Fronts (K.seen keeper.old).now result }
    ensures step { steps.new ≡ steps.old + 1 }
    ensures ground { SameGround K.over K.has_maps K.tells K.seen K.written K.changes K.moment K.left_since keeper.old keeper.new }
    ensures accounts { Accounts K.is_sound K.is_spent K.fault_count K.want_count keeper.old keeper.new (fault_in result) }
{
    match keeper.up(&[], steps)? {
        Some(spot) => expect_not_before(alloc, keeper, spot),
        None => Ok(()),
    }
}
