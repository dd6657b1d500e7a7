//! What a subtree's leaving changes.

ghost use Rattle.std.specs.Prelude.{◌≡◌, ◌+◌, ◌-◌, ◌^◌, ◌≤◌, IfOk, IfErr, IsTrue, length, min};
ghost use Rattle.mm_image.specs.Ground.{Accounts, HoldsImage, SameGround};
ghost use Rattle.mm_image.specs.Image.{entries_of, image};
ghost use Rattle.mm_keeper.specs.Entries.{IsSorted};
ghost use Rattle.mm_keeper.specs.Keeping.{fault_of};
ghost use Rattle.mm_tree.specs.Forests.{has_valid_kind};
ghost use Rattle.mm_tree.specs.Numbering.{Labelled, node_of};
ghost use Rattle.mm_tree.specs.Trees.{Trees, every, nodes, none, one};
ghost use Rattle.mm_edit.specs.Difference.{IsDifference};
ghost use Rattle.mm_edit.specs.Inside.Changes.{Becomes, changes};
ghost use Rattle.mm_edit.specs.Inside.Counting.{BlamesCounts, IsUndamaged};
ghost use Rattle.mm_edit.specs.Plans.{HasRoomFor};

use crate::parting::{parts_of, planned};
use crate::plan::Plan;
use mm_host::Fault;
use mm_image::laws::{images_rise, keys_are_apart, values_tell};
use mm_keeper::Keeper;
use mm_label::laws::{ancestry, byte_order};
use mm_steps::Steps;
use mm_tree::Node;
use std::alloc::Global;
use std::slice;
use std::sync::ledger::Ledger;

/// The plan that takes the node out with all below it, by one look-up for each of its words.
pub fn plan_without<K: Keeper, L: Ledger>(
    alloc: Global,
    node: &Node,
    keeper: &mut K,
    steps: &mut Steps<L>,
) -> Result<Plan, Fault>
    requires sound { K.is_sound keeper.old }
    requires valid { IsTrue (every has_valid_kind (one (node_of node.now))) }
    ensures difference { (f g : Trees Labelled) → HoldsImage K.has_maps K.seen keeper.old f → Becomes f g (one (node_of node.now)) none → IfOk result (λ p. IsDifference p.removes p.puts (image f) (image g)) }
    ensures room { K.has_maps keeper.old → IsSorted (entries_of (one (node_of node.now))) → IfOk result (λ p. HasRoomFor (K.seen keeper.old).now p) }
    ensures label { IfOk result (λ p. p.done.label ≡ (node_of node.now).0.label) }
    ensures nodes { IfOk result (λ p. p.done.nodes ≡ min (nodes (one (node_of node.now))) (2 ^ 64 - 1)) }
    ensures damaged { K.has_maps keeper.old → IfErr result (BlamesCounts (K.seen keeper.old).now (changes (one (node_of node.now)) none)) }
    ensures undamaged { (f : Trees Labelled) → HoldsImage K.has_maps K.seen keeper.old f → IfErr result IsUndamaged }
    ensures ground { SameGround K.over K.has_maps K.tells K.seen K.written K.changes K.moment K.left_since keeper.old keeper.new }
    ensures accounts { Accounts K.is_sound K.is_spent K.fault_count K.want_count keeper.old keeper.new (fault_of result) }
    ensures cost { steps.new ≤ steps.old + length (changes (one (node_of node.now)) none) }
{
    byte_order();
    ancestry();
    keys_are_apart();
    images_rise();
    values_tell();
    // The map's weight bounds its counts.
    let _weight = keeper.weight();
    let parts = parts_of(alloc, slice::from_ref(node), &[], keeper, steps)?;
    Ok(planned(alloc, node, parts)?)
}
