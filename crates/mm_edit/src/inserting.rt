//! The plans of a load, an insertion and a replacement: refused by what the place, the target and the tree tell, and
//! by the weight of the map afterwards last.

ghost use Rattle.std.specs.Prelude.{◌≡◌, ◌*◌, ◌+◌, ◌^◌, ◌≤◌, IfOk, IfErr, IsTrue, None, OnOk, length};
ghost use Rattle.mm_image.specs.Ground.{Accounts, HoldsImage, SameGround};
ghost use Rattle.mm_image.specs.Image.{image};
ghost use Rattle.mm_tree.specs.Edits.{insert, insert_refusal, inserted_label, replace, replace_refusal};
ghost use Rattle.mm_tree.specs.Forests.{load, load_refusal, next_label};
ghost use Rattle.mm_tree.specs.Numbering.{Labelled};
ghost use Rattle.mm_tree.specs.Trees.{Trees, nodes, one, tree_of};
ghost use Rattle.mm_tree.specs.Validity.{is_valid_tree};
ghost use Rattle.mm_edit.specs.Blame.{Blames, BlamesTarget, IsUnreadable};
ghost use Rattle.mm_edit.specs.Difference.{IsDifference};
ghost use Rattle.mm_edit.specs.Plans.{HasRoomFor, IfFault, IsRefusedBy, edit_fault, or_full};

use crate::plan::{EditError, Plan};
use crate::planting::{tree_for_insert, tree_for_load, tree_for_replace};
use crate::putting_in::plan_with;
use mm_image::laws::{images_rise, keys_are_apart};
use mm_image::subtree;
use mm_keeper::Keeper;
use mm_label::Label;
use mm_label::laws::{ancestry, byte_order};
use mm_steps::Steps;
use mm_tree::laws::{edits_stay_formed, untouched};
use mm_tree::{Place, Plain, Refusal};
use std::alloc::Global;
use std::slice;
use std::sync::ledger::Ledger;

/// The plan of a load: the tree, with new labels, is put behind all others. It is refused with 20, 21, 22 and, where
/// the map would weigh more than the limit, 23.
pub fn plan_load<K: Keeper, L: Ledger>(
    alloc: Global,
    keeper: &mut K,
    tree: Plain,
    limit: u64,
    steps: &mut Steps<L>,
) -> Result<Plan, EditError>
    requires sound { K.is_sound keeper.old }
    requires valid { IsTrue (is_valid_tree (tree_of tree)) }
    requires limit { limit ≤ 2 ^ 40 }
    ensures accepted { (f : Trees Labelled) → HoldsImage K.has_maps K.seen keeper.old f → OnOk result (or_full (load_refusal (tree_of tree) f) limit (load (tree_of tree) f) ≡ None) }
    ensures refused { (f : Trees Labelled) → HoldsImage K.has_maps K.seen keeper.old f → IfErr result (IsRefusedBy (or_full (load_refusal (tree_of tree) f) limit (load (tree_of tree) f))) }
    ensures difference { (f : Trees Labelled) → HoldsImage K.has_maps K.seen keeper.old f → IfOk result (λ p. IsDifference p.removes p.puts (image f) (image (load (tree_of tree) f))) }
    ensures label { (f : Trees Labelled) → HoldsImage K.has_maps K.seen keeper.old f → IfOk result (λ p. p.done.label ≡ next_label f) }
    ensures nodes { IfOk result (λ p. p.done.nodes ≡ nodes (one (tree_of tree))) }
    ensures room { K.has_maps keeper.old → IfOk result (λ p. HasRoomFor (K.seen keeper.old).now p) }
    ensures damaged { K.has_maps keeper.old → IfErr result (IfFault (Blames (IsUnreadable (K.seen keeper.old).now))) }
    ensures ground { SameGround K.over K.has_maps K.tells K.seen K.written K.changes K.moment K.left_since keeper.old keeper.new }
    ensures accounts { Accounts K.is_sound K.is_spent K.fault_count K.want_count keeper.old keeper.new (edit_fault result) }
    ensures cost { (f : Trees Labelled) → HoldsImage K.has_maps K.seen keeper.old f → steps.new ≤ steps.old + 4 * (length (image f) + length (image (load (tree_of tree) f)) + 1) }
    ensures early { (f : Trees Labelled) → HoldsImage K.has_maps K.seen keeper.old f → (load_refusal (tree_of tree) f ≡ None → ⊥) → steps.new ≤ steps.old + 1 }
{
    untouched();
    edits_stay_formed();
    byte_order();
    ancestry();
    keys_are_apart();
    images_rise();
    let node = tree_for_load(alloc, keeper, tree, steps)?;
    plan_with(alloc, &[], &node, limit, keeper, steps)
}

/// The plan of an insertion: the tree, with new labels, is put directly before or after the target, or as its first
/// or last child. It is refused with 17, 18, 20, 21, 22 and, where the map would weigh more than the limit, 23.
pub fn plan_insert<K: Keeper, L: Ledger>(
    alloc: Global,
    keeper: &mut K,
    place: Place,
    target: &Label,
    tree: Plain,
    limit: u64,
    steps: &mut Steps<L>,
) -> Result<Plan, EditError>
    requires sound { K.is_sound keeper.old }
    requires valid { IsTrue (is_valid_tree (tree_of tree)) }
    requires limit { limit ≤ 2 ^ 40 }
    ensures accepted { (f : Trees Labelled) → HoldsImage K.has_maps K.seen keeper.old f → OnOk result (or_full (insert_refusal place target.now (tree_of tree) f) limit (insert place target.now (tree_of tree) f) ≡ None) }
    ensures refused { (f : Trees Labelled) → HoldsImage K.has_maps K.seen keeper.old f → IfErr result (IsRefusedBy (or_full (insert_refusal place target.now (tree_of tree) f) limit (insert place target.now (tree_of tree) f))) }
    ensures difference { (f : Trees Labelled) → HoldsImage K.has_maps K.seen keeper.old f → IfOk result (λ p. IsDifference p.removes p.puts (image f) (image (insert place target.now (tree_of tree) f))) }
    ensures label { (f : Trees Labelled) → HoldsImage K.has_maps K.seen keeper.old f → IfOk result (λ p. p.done.label ≡ inserted_label place target.now f) }
    ensures nodes { IfOk result (λ p. p.done.nodes ≡ nodes (one (tree_of tree))) }
    ensures room { K.has_maps keeper.old → IfOk result (λ p. HasRoomFor (K.seen keeper.old).now p) }
    ensures damaged { K.has_maps keeper.old → IfErr result (IfFault (Blames (IsUnreadable (K.seen keeper.old).now))) }
    ensures ground { SameGround K.over K.has_maps K.tells K.seen K.written K.changes K.moment K.left_since keeper.old keeper.new }
    ensures accounts { Accounts K.is_sound K.is_spent K.fault_count K.want_count keeper.old keeper.new (edit_fault result) }
    ensures cost { (f : Trees Labelled) → HoldsImage K.has_maps K.seen keeper.old f → steps.new ≤ steps.old + 4 * (length (image f) + length (image (insert place target.now (tree_of tree) f)) + 1) }
    ensures early { (f : Trees Labelled) → HoldsImage K.has_maps K.seen keeper.old f → (insert_refusal place target.now (tree_of tree) f ≡ None → ⊥) → steps.new ≤ steps.old + 2 }
{
    untouched();
    edits_stay_formed();
    byte_order();
    ancestry();
    keys_are_apart();
    images_rise();
    let node = tree_for_insert(alloc, keeper, place, target, tree, steps)?;
    plan_with(alloc, &[], &node, limit, keeper, steps)
}

/// The plan of a replacement: the tree, whose root gets the target's label, is put in place of the target's subtree.
/// It is refused with 17, 20, 21, 22 and, where the map would weigh more than the limit, 23.
pub fn plan_replace<K: Keeper, L: Ledger>(
    alloc: Global,
    keeper: &mut K,
    target: &Label,
    tree: Plain,
    limit: u64,
    steps: &mut Steps<L>,
) -> Result<Plan, EditError>
    requires sound { K.is_sound keeper.old }
    requires valid { IsTrue (is_valid_tree (tree_of tree)) }
    requires limit { limit ≤ 2 ^ 40 }
    ensures accepted { (f : Trees Labelled) → HoldsImage K.has_maps K.seen keeper.old f → OnOk result (or_full (replace_refusal target.now (tree_of tree) f) limit (replace target.now (tree_of tree) f) ≡ None) }
    ensures refused { (f : Trees Labelled) → HoldsImage K.has_maps K.seen keeper.old f → IfErr result (IsRefusedBy (or_full (replace_refusal target.now (tree_of tree) f) limit (replace target.now (tree_of tree) f))) }
    ensures difference { (f : Trees Labelled) → HoldsImage K.has_maps K.seen keeper.old f → IfOk result (λ p. IsDifference p.removes p.puts (image f) (image (replace target.now (tree_of tree) f))) }
    ensures label { IfOk result (λ p. p.done.label ≡ target.now) }
    ensures nodes { IfOk result (λ p. p.done.nodes ≡ nodes (one (tree_of tree))) }
    ensures room { K.has_maps keeper.old → IfOk result (λ p. HasRoomFor (K.seen keeper.old).now p) }
    ensures damaged { K.has_maps keeper.old → IfErr result (IfFault (BlamesTarget target.now (K.seen keeper.old).now)) }
    ensures ground { SameGround K.over K.has_maps K.tells K.seen K.written K.changes K.moment K.left_since keeper.old keeper.new }
    ensures accounts { Accounts K.is_sound K.is_spent K.fault_count K.want_count keeper.old keeper.new (edit_fault result) }
    ensures cost { (f : Trees Labelled) → HoldsImage K.has_maps K.seen keeper.old f → steps.new ≤ steps.old + 4 * (length (image f) + length (image (replace target.now (tree_of tree) f)) + 1) }
    ensures early { (f : Trees Labelled) → HoldsImage K.has_maps K.seen keeper.old f → (replace_refusal target.now (tree_of tree) f ≡ None → ⊥) → steps.new ≤ steps.old + length (image f) + 1 }
{
    untouched();
    edits_stay_formed();
    byte_order();
    ancestry();
    keys_are_apart();
    images_rise();
    let _spelled = target.as_bytes();
    match subtree(alloc, target, keeper, steps)? {
        Some(taken) => {
            let node = tree_for_replace(alloc, target, tree)?;
            plan_with(alloc, slice::from_ref(&taken), &node, limit, keeper, steps)
        }
        None => Err(EditError::Refused(Refusal::Absent)),
    }
}
