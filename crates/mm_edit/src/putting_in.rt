//! What a new subtree's coming changes, in a place of its own or in that of another.

ghost use Rattle.std.specs.Prelude.{◌≡◌, ◌+◌, ◌-◌, ◌^◌, ◌≤◌, IfOk, IfErr, IsTrue, None, OnOk, Some, if◌then◌else◌, length, min, nat_lt};
ghost use Rattle.mm_image.specs.Ground.{Accounts, HoldsImage, SameGround};
ghost use Rattle.mm_image.specs.Image.{entries_of, image};
ghost use Rattle.mm_image.specs.Keyed.{keyed};
ghost use Rattle.mm_keeper.specs.Entries.{IsSorted, weight_of};
ghost use Rattle.mm_tree.specs.Forests.{has_valid_kind};
ghost use Rattle.mm_tree.specs.Numbering.{Labelled, forest_of, has_room, node_of};
ghost use Rattle.mm_tree.specs.Trees.{Trees, every, nodes, one};
ghost use Rattle.mm_tree.specs.declared.refusal.Refusal.TheVariants.{Full};
ghost use Rattle.mm_edit.specs.Difference.{IsDifference, changed, gone, keys};
ghost use Rattle.mm_edit.specs.Inside.Changes.{Becomes, changes};
ghost use Rattle.mm_edit.specs.Inside.Counting.{BlamesCounts};
ghost use Rattle.mm_edit.specs.Plans.{AreSized, HasRoomFor, IfFault, IsRefusedBy, edit_fault, full_refusal};

use crate::parting::{Parts, parts_of, planned};
use crate::plan::{EditError, Plan};
use crate::weighing::weight;
use mm_host::Fault;
use mm_image::laws::{images_rise, keys_are_apart, values_tell};
use mm_keeper::Keeper;
use mm_label::laws::{ancestry, byte_order};
use mm_steps::Steps;
use mm_tree::{Node, Refusal};
use std::alloc::Global;
use std::slice;
use std::sync::ledger::Ledger;

/// The most bytes of entries in hand that leave room for the puts beside them.
const PART_LIMIT: u64 = 1 << 41;

/// The plan that makes the one part of a map of this weight the other, where the map doesn't pass the limit then.
fn plan_within(
    alloc: Global,
    given: &Node,
    parts: Parts,
    now: u64,
    limit: u64,
) -> Result<Plan, EditError>
    requires sized { AreSized (keyed parts.after) }
    requires limit { limit ≤ 2 ^ 40 }
    ensures accepted { weight_of (keyed parts.before) ≤ now → OnOk result (now + weight_of (keyed parts.after) ≤ limit + weight_of (keyed parts.before)) }
    ensures refused { weight_of (keyed parts.before) ≤ now → IfErr result (IsRefusedBy (if nat_lt (limit + weight_of (keyed parts.before)) (now + weight_of (keyed parts.after)) then Some Full else None)) }
    ensures faults { IfErr result (IfFault (λ f. f ≡ Fault.Memory)) }
    ensures room { OnOk result (now + weight_of (keyed parts.after) ≤ 2 ^ 42) }
    ensures removes { IsSorted (keyed parts.after) → IfOk result (λ p. p.removes ≡ keys (gone (keyed parts.before) (keyed parts.after))) }
    ensures puts { IsSorted (keyed parts.before) → IfOk result (λ p. p.puts ≡ changed (keyed parts.before) (keyed parts.after)) }
    ensures label { IfOk result (λ p. p.done.label ≡ (node_of given.now).0.label) }
    ensures nodes { IfOk result (λ p. p.done.nodes ≡ min (nodes (one (node_of given.now))) (2 ^ 64 - 1)) }
{
    let before = weight(parts.before.as_slice());
    let after = weight(parts.after.as_slice());
    if now.saturating_sub(before).saturating_add(after) > limit {
        return Err(EditError::Refused(Refusal::Full));
    }
    // No memory holds as many, and their puts might not fit beside them.
    if before > PART_LIMIT {
        return Err(EditError::Fault(Fault::Memory));
    }
    match planned(alloc, given, parts) {
        Ok(plan) => Ok(plan),
        Err(_) => Err(EditError::Fault(Fault::Memory)),
    }
}

/// The plan that puts the node in with all below it, in place of the nodes that leave, by one look-up for each of
/// their words. It is refused where the map would weigh more than the limit.
pub fn plan_with<K: Keeper, L: Ledger>(
    alloc: Global,
    taken: &[Node],
    given: &Node,
    limit: u64,
    keeper: &mut K,
    steps: &mut Steps<L>,
) -> Result<Plan, EditError>
    requires sound { K.is_sound keeper.old }
    requires taken { IsTrue (every has_valid_kind (forest_of taken.now)) }
    requires given { IsTrue (every has_valid_kind (one (node_of given.now))) }
    requires fitting { IsTrue (every has_room (one (node_of given.now))) }
    requires limit { limit ≤ 2 ^ 40 }
    ensures accepted { (f g : Trees Labelled) → HoldsImage K.has_maps K.seen keeper.old f → Becomes f g (forest_of taken.now) (one (node_of given.now)) → OnOk result (full_refusal limit g ≡ None) }
    ensures refused { (f g : Trees Labelled) → HoldsImage K.has_maps K.seen keeper.old f → Becomes f g (forest_of taken.now) (one (node_of given.now)) → IfErr result (IsRefusedBy (full_refusal limit g)) }
    ensures difference { (f g : Trees Labelled) → HoldsImage K.has_maps K.seen keeper.old f → Becomes f g (forest_of taken.now) (one (node_of given.now)) → IfOk result (λ p. IsDifference p.removes p.puts (image f) (image g)) }
    ensures room { K.has_maps keeper.old → IsSorted (entries_of (forest_of taken.now)) → IsSorted (entries_of (one (node_of given.now))) → IfOk result (λ p. HasRoomFor (K.seen keeper.old).now p) }
    ensures label { IfOk result (λ p. p.done.label ≡ (node_of given.now).0.label) }
    ensures nodes { IfOk result (λ p. p.done.nodes ≡ min (nodes (one (node_of given.now))) (2 ^ 64 - 1)) }
    ensures damaged { K.has_maps keeper.old → IfErr result (IfFault (BlamesCounts (K.seen keeper.old).now (changes (forest_of taken.now) (one (node_of given.now))))) }
    ensures ground { SameGround K.over K.has_maps K.tells K.seen K.written K.changes K.moment K.left_since keeper.old keeper.new }
    ensures accounts { Accounts K.is_sound K.is_spent K.fault_count K.want_count keeper.old keeper.new (edit_fault result) }
    ensures cost { steps.new ≤ steps.old + length (changes (forest_of taken.now) (one (node_of given.now))) }
{
    byte_order();
    ancestry();
    keys_are_apart();
    images_rise();
    values_tell();
    let now = keeper.weight();
    match parts_of(alloc, taken, slice::from_ref(given), keeper, steps) {
        Ok(parts) => plan_within(alloc, given, parts, now, limit),
        Err(fault) => Err(EditError::Fault(fault)),
    }
}
