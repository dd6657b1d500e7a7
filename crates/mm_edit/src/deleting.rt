//! The plan of a deletion.

ghost use Rattle.std.specs.Prelude.{◌≡◌, ◌*◌, ◌+◌, ◌-◌, ◌^◌, ◌≤◌, IfOk, IfErr, OnOk, None, length, min};
ghost use Rattle.mm_image.specs.Ground.{Accounts, HoldsImage, SameGround};
ghost use Rattle.mm_image.specs.Image.{image};
ghost use Rattle.mm_tree.specs.Edits.{delete, delete_refusal, subtree_size};
ghost use Rattle.mm_tree.specs.Numbering.{Labelled};
ghost use Rattle.mm_tree.specs.Trees.{Trees};
ghost use Rattle.mm_edit.specs.Blame.{BlamesTarget};
ghost use Rattle.mm_edit.specs.Difference.{IsDifference};
ghost use Rattle.mm_edit.specs.Plans.{HasRoomFor, IfFault, IsRefusedBy, edit_fault};

use crate::plan::{EditError, Plan};
use crate::taking_out::plan_without;
use mm_image::laws::{images_rise, keys_are_apart};
use mm_image::subtree;
use mm_keeper::Keeper;
use mm_label::Label;
use mm_label::laws::{ancestry, byte_order};
use mm_steps::Steps;
use mm_tree::Refusal;
use mm_tree::laws::{edits_stay_formed, untouched};
use std::alloc::Global;
use std::sync::ledger::Ledger;

/// The plan of a deletion: the target's subtree is taken out.
pub fn plan_delete<K: Keeper, L: Ledger>(
    alloc: Global,
    keeper: &mut K,
    target: &Label,
    steps: &mut Steps<L>,
) -> Result<Plan, EditError>
    requires { K.is_sound keeper.old }
    ensures accepted { (f : Trees Labelled) → HoldsImage K.has_maps K.seen keeper.old f → OnOk result (delete_refusal target.now f ≡ None) }
    ensures refused { (f : Trees Labelled) → HoldsImage K.has_maps K.seen keeper.old f → IfErr result (IsRefusedBy (delete_refusal target.now f)) }
    ensures difference { (f : Trees Labelled) → HoldsImage K.has_maps K.seen keeper.old f → IfOk result (λ p. IsDifference p.removes p.puts (image f) (image (delete target.now f))) }
    ensures label { IfOk result (λ p. p.done.label ≡ target.now) }
    ensures nodes { (f : Trees Labelled) → HoldsImage K.has_maps K.seen keeper.old f → IfOk result (λ p. p.done.nodes ≡ min (subtree_size target.now f) (2 ^ 64 - 1)) }
    ensures room { K.has_maps keeper.old → IfOk result (λ p. HasRoomFor (K.seen keeper.old).now p) }
    ensures damaged { K.has_maps keeper.old → IfErr result (IfFault (BlamesTarget target.now (K.seen keeper.old).now)) }
    ensures ground { SameGround K.over K.has_maps K.tells K.seen K.written K.changes K.moment K.left_since keeper.old keeper.new }
    ensures accounts { Accounts K.is_sound K.is_spent K.fault_count K.want_count keeper.old keeper.new (edit_fault result) }
    ensures cost { (f : Trees Labelled) → HoldsImage K.has_maps K.seen keeper.old f → steps.new ≤ steps.old + 4 * (length (image f) + length (image (delete target.now f)) + 1) }
    ensures early { (f : Trees Labelled) → HoldsImage K.has_maps K.seen keeper.old f → (delete_refusal target.now f ≡ None → ⊥) → steps.new ≤ steps.old + length (image f) + 1 }
{
    byte_order();
    ancestry();
    keys_are_apart();
    images_rise();
    untouched();
    edits_stay_formed();
    let _spelled = target.as_bytes();
    match subtree(alloc, target, keeper, steps) {
        Ok(Some(node)) => match plan_without(alloc, &node, keeper, steps) {
            Ok(plan) => Ok(plan),
            Err(fault) => Err(EditError::Fault(fault)),
        },
        Ok(None) => Err(EditError::Refused(Refusal::Absent)),
        Err(fault) => Err(EditError::Fault(fault)),
    }
}
