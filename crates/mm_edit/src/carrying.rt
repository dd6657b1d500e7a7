//! How a plan is carried out.

ghost use Rattle.std.specs.Prelude.{◌≡◌, ◌+◌, ◌≤◌, OnOk, length};
ghost use Rattle.mm_image.specs.Keyed.{keyed};
ghost use Rattle.mm_keeper.specs.Entries.{Entries, IsSorted};
ghost use Rattle.mm_keeper.specs.Keeping.{fault_of};
ghost use Rattle.mm_edit.specs.Carrying.{Carries};
ghost use Rattle.mm_edit.specs.Difference.{IsDifference, carried_out, put_all, without_all};
ghost use Rattle.mm_edit.specs.Plans.{AreSized, HasRoomFor, HaveRoom};

use crate::plan::Plan;
use mm_host::{Bytes, Fault};
use mm_image::Entry;
use mm_keeper::Keeper;
use mm_steps::Steps;
use std::sync::ledger::Ledger;

/// Removes these keys.
fn remove_all<K: Keeper, L: Ledger>(
    keys: &[Bytes],
    keeper: &mut K,
    steps: &mut Steps<L>,
) -> Result<(), Fault>
    requires { K.is_sound keeper.old }
    ensures removed { K.has_maps keeper.old → OnOk result ((K.seen keeper.new).now ≡ without_all keys.now (K.seen keeper.old).now) }
    ensures keeps { Carries K.over K.tells K.has_maps K.is_sound K.seen K.is_spent K.fault_count K.want_count K.moment K.left_since K.written K.changes (length keys.now) keeper.old keeper.new (fault_of result) }
    ensures steps { OnOk result (steps.new ≡ steps.old + length keys.now) }
    ensures bound { steps.new ≤ steps.old + length keys.now }
{
    for key in keys {
        match keeper.remove(key.as_slice(), steps) {
            Ok(_) => {}
            Err(fault) => return Err(fault),
        }
    }
    Ok(())
}

/// Puts these entries.
fn put_all<K: Keeper, L: Ledger>(
    entries: &[Entry],
    keeper: &mut K,
    steps: &mut Steps<L>,
) -> Result<(), Fault>
    requires sound { K.is_sound keeper.old }
    requires sized { AreSized (keyed entries.now) }
    requires room { K.has_maps keeper.old → HaveRoom (K.seen keeper.old).now (keyed entries.now) }
    ensures put { K.has_maps keeper.old → OnOk result ((K.seen keeper.new).now ≡ put_all (keyed entries.now) (K.seen keeper.old).now) }
    ensures keeps { Carries K.over K.tells K.has_maps K.is_sound K.seen K.is_spent K.fault_count K.want_count K.moment K.left_since K.written K.changes (length entries.now) keeper.old keeper.new (fault_of result) }
    ensures steps { OnOk result (steps.new ≡ steps.old + length entries.now) }
    ensures bound { steps.new ≤ steps.old + length entries.now }
{
    for entry in entries {
        match keeper.put(entry.key.as_slice(), entry.value.as_slice(), steps) {
            Ok(()) => {}
            Err(fault) => return Err(fault),
        }
    }
    Ok(())
}

/// Does the removes of a plan, and then its puts, one step each. It doesn't commit. The map is the one that the plan
/// was made from; where the plan is the difference of it and another map, the keeper has that one afterwards.
pub fn carry_out<K: Keeper, L: Ledger>(
    plan: &Plan,
    keeper: &mut K,
    steps: &mut Steps<L>,
) -> Result<(), Fault>
    requires sound { K.is_sound keeper.old }
    requires room { K.has_maps keeper.old → HasRoomFor (K.seen keeper.old).now plan.now }
    ensures done { K.has_maps keeper.old → OnOk result ((K.seen keeper.new).now ≡ carried_out plan.now.removes plan.now.puts (K.seen keeper.old).now) }
    ensures leads { K.has_maps keeper.old → (new : Entries) → IsSorted new → IsDifference plan.now.removes plan.now.puts (K.seen keeper.old).now new → OnOk result ((K.seen keeper.new).now ≡ new) }
    ensures keeps { Carries K.over K.tells K.has_maps K.is_sound K.seen K.is_spent K.fault_count K.want_count K.moment K.left_since K.written K.changes (length plan.now.removes + length plan.now.puts) keeper.old keeper.new (fault_of result) }
    ensures steps { OnOk result (steps.new ≡ steps.old + (length plan.now.removes + length plan.now.puts)) }
    ensures bound { steps.new ≤ steps.old + (length plan.now.removes + length plan.now.puts) }
{
    match remove_all(plan.removes(), keeper, steps) {
        Ok(()) => put_all(plan.puts(), keeper, steps),
        Err(fault) => Err(fault),
    }
}
