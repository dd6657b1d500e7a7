//! Edits of a store, and their plans.

ghost use Rattle.std.specs.Prelude.{◌≡◌, ◌*◌, ◌+◌, ◌^◌, ◌≤◌, IfErr, IfOk, None, OnOk, length};
ghost use Rattle.mm_edit.specs.Difference.{IsDifference};
ghost use Rattle.mm_edit.specs.Plans.{HasRoomFor, IfFault, IsRefusedBy, edit_fault};
ghost use Rattle.mm_image.specs.Ground.{Accounts, HoldsImage, SameGround};
ghost use Rattle.mm_image.specs.Image.{image};
ghost use Rattle.mm_store.specs.Editing.{EditBlames, IsValidEdit, early_refusal, edit_refusal, edited, edited_label, edited_nodes};
ghost use Rattle.mm_tree.specs.Numbering.{Labelled};
ghost use Rattle.mm_tree.specs.Trees.{Trees};

use mm_edit::{EditError, Plan, plan_delete, plan_insert, plan_load, plan_replace};
use mm_keeper::Keeper;
use mm_label::Label;
use mm_steps::Steps;
use mm_tree::{Place, Plain};
use std::alloc::Global;
use std::sync::ledger::Ledger;

/// An edit of the store's forest.
#[derive(Drop)]
pub enum Edit {
    /// The tree is put behind all others.
    Load {
        tree: Plain,
    },
    /// The tree is put before or after the target, or as its first or last child.
    Insert {
        place: Place,
        target: Label,
        tree: Plain,
    },
    /// The target goes, with all below it.
    Delete {
        target: Label,
    },
    /// The tree is put in place of the target and all below it.
    Replace {
        target: Label,
        tree: Plain,
    },
}

/// The plan of an edit.
pub fn plan<K: Keeper, L: Ledger>(
    alloc: Global,
    edit: Edit,
    limit: u64,
    keeper: &mut K,
    steps: &mut Steps<L>,
) -> Result<Plan, EditError>
    requires sound { K.is_sound keeper.old }
    requires valid { IsValidEdit edit }
    requires limit { limit ≤ 2 ^ 40 }
    ensures accepted { (f : Trees Labelled) → HoldsImage K.has_maps K.seen keeper.old f → OnOk result (edit_refusal limit edit f ≡ None) }
    ensures refused { (f : Trees Labelled) → HoldsImage K.has_maps K.seen keeper.old f → IfErr result (IsRefusedBy (edit_refusal limit edit f)) }
    ensures difference { (f : Trees Labelled) → HoldsImage K.has_maps K.seen keeper.old f → IfOk result (λ p. IsDifference p.removes p.puts (image f) (image (edited edit f))) }
    ensures label { (f : Trees Labelled) → HoldsImage K.has_maps K.seen keeper.old f → IfOk result (λ p. p.done.label ≡ edited_label edit f) }
    ensures nodes { (f : Trees Labelled) → HoldsImage K.has_maps K.seen keeper.old f → IfOk result (λ p. p.done.nodes ≡ edited_nodes edit f) }
    ensures damaged { K.has_maps keeper.old → IfErr result (IfFault (EditBlames edit (K.seen keeper.old).now)) }
    ensures room { K.has_maps keeper.old → IfOk result (λ p. HasRoomFor (K.seen keeper.old).now p) }
    ensures ground { SameGround K.over K.has_maps K.tells K.seen K.written K.changes K.moment K.left_since keeper.old keeper.new }
    ensures accounts { Accounts K.is_sound K.is_spent K.fault_count K.want_count keeper.old keeper.new (edit_fault result) }
    ensures cost { (f : Trees Labelled) → HoldsImage K.has_maps K.seen keeper.old f → steps.new ≤ steps.old + 4 * (length (image f) + length (image (edited edit f)) + 1) }
    ensures early { (f : Trees Labelled) → HoldsImage K.has_maps K.seen keeper.old f → (early_refusal edit f ≡ None → ⊥) → steps.new ≤ steps.old + length (image f) + 2 }
{
    match edit {
        Edit::Load { tree } => plan_load(alloc, keeper, tree, limit, steps),
        Edit::Insert {
            place,
            target,
            tree,
        } => plan_insert(alloc, keeper, place, &target, tree, limit, steps),
        Edit::Delete { target } => plan_delete(alloc, keeper, &target, steps),
        Edit::Replace { target, tree } => {
            plan_replace(alloc, keeper, &target, tree, limit, steps)
        }
    }
}
