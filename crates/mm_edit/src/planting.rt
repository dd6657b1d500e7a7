//! New trees with their labels, or why they can't stand where they would.

ghost use Rattle.std.specs.Prelude.{◌≡◌, ◌&&◌, ◌+◌, ◌-◌, ◌<◌, ◌≤◌, ◌^◌, [], IsTrue, IfOk, IfErr, None, OnOk, option_map};
ghost use Rattle.mm_image.specs.Ground.{Accounts, HoldsImage, SameGround};
ghost use Rattle.mm_image.specs.Image.{entries_of};
ghost use Rattle.mm_keeper.specs.Entries.{IsSorted};
ghost use Rattle.mm_label.specs.Label.{level};
ghost use Rattle.mm_tree.specs.declared.plain.Kind.{Kind};
ghost use Rattle.mm_tree.specs.Edits.{gap, insert_refusal, inserted_label, label_in, placed_refusal, room_refusal, is_inside};
ghost use Rattle.mm_tree.specs.Forests.{IsRefusal, has_valid_kind, load_refusal, next_label};
ghost use Rattle.mm_tree.specs.Gaps.{IsOpen};
ghost use Rattle.mm_tree.specs.Numbering.{Labelled, has_room, node_of, number};
ghost use Rattle.mm_tree.specs.Trees.{Tree, Trees, every, nodes, one, tree_of};
ghost use Rattle.mm_tree.specs.Validity.{is_valid_tree};
ghost use Rattle.mm_edit.specs.Inside.Sites.{BlamesFound, gap_in};
ghost use Rattle.mm_edit.specs.Plans.{IsRefusedBy, edit_fault};

use crate::plan::EditError;
use crate::seeking::is_text;
use crate::sites::{Site, last, lent, site_at};
use mm_image::laws::images_rise;
use mm_keeper::Keeper;
use mm_label::Label;
use mm_label::laws::{ancestry, byte_order};
use mm_steps::Steps;
use mm_tree::{
    Node, Opening, Place, Plain, Refusal, TreeError, level_of, new_label, number, placed,
};
use std::alloc::Global;
use std::sync::ledger::Ledger;

/// The tree with its labels, of which the root's is this one.
fn numbered(alloc: Global, label: Label, tree: Plain) -> Result<Node, TreeError>
    requires { IsTrue (is_valid_tree (tree_of tree)) }
    ensures node { IfOk result (λ n. node_of n ≡ number label (tree_of tree)) }
    ensures accepted { OnOk result (room_refusal label (tree_of tree) ≡ None) }
    ensures refused { IfErr result (λ e. IsRefusal e (room_refusal label (tree_of tree))) }
    ensures valid { IfOk result (λ n. IsTrue (every has_valid_kind (one (node_of n)))) }
    ensures fitting { IfOk result (λ n. IsTrue (every has_room (one (node_of n)))) }
    ensures sorted { IfOk result (λ n. IsSorted (entries_of (one (node_of n)))) }
    ensures nodes { IfOk result (λ n. nodes (one (node_of n)) ≡ nodes (one (tree_of tree))) }
{
    byte_order();
    ancestry();
    let _spelled = label.as_bytes();
    number(alloc, tree, label)
}

/// The tree with its labels at a place.
fn planted(alloc: Global, site: &Site, tree: Plain) -> Result<Node, TreeError>
    requires open { IsOpen (gap_in site.now) }
    requires valid { IsTrue (is_valid_tree (tree_of tree)) }
    ensures node { IfOk result (λ n. node_of n ≡ number (label_in (gap_in site.now)) (tree_of tree)) }
    ensures accepted { OnOk result (placed_refusal (level (gap_in site.now).parent) (label_in (gap_in site.now)) (tree_of tree) ≡ None) }
    ensures refused { IfErr result (λ e. IsRefusal e (placed_refusal (level (gap_in site.now).parent) (label_in (gap_in site.now)) (tree_of tree))) }
    ensures valid { IfOk result (λ n. IsTrue (every has_valid_kind (one (node_of n)))) }
    ensures fitting { IfOk result (λ n. IsTrue (every has_room (one (node_of n)))) }
    ensures sorted { IfOk result (λ n. IsSorted (entries_of (one (node_of n)))) }
    ensures nodes { IfOk result (λ n. nodes (one (node_of n)) ≡ nodes (one (tree_of tree))) }
    ensures few { IfOk result (λ n. nodes (one (node_of n)) < 2 ^ 64) }
{
    let opening = Opening {
        parent: lent(&site.parent),
        left: lent(&site.left),
        right: lent(&site.right),
    };
    let _nodes = placed(level_of(opening.parent), &tree)?;
    let label = new_label(alloc, opening)?;
    numbered(alloc, label, tree)
}

/// The tree with its labels for a load: behind all others.
pub fn tree_for_load<K: Keeper, L: Ledger>(
    alloc: Global,
    keeper: &mut K,
    tree: Plain,
    steps: &mut Steps<L>,
) -> Result<Node, EditError>
    requires sound { K.is_sound keeper.old }
    requires valid { IsTrue (is_valid_tree (tree_of tree)) }
    ensures node { (f : Trees Labelled) → HoldsImage K.has_maps K.seen keeper.old f → IfOk result (λ n. node_of n ≡ number (next_label f) (tree_of tree)) }
    ensures accepted { (f : Trees Labelled) → HoldsImage K.has_maps K.seen keeper.old f → OnOk result (load_refusal (tree_of tree) f ≡ None) }
    ensures refused { (f : Trees Labelled) → HoldsImage K.has_maps K.seen keeper.old f → IfErr result (IsRefusedBy (load_refusal (tree_of tree) f)) }
    ensures damaged { K.has_maps keeper.old → IfErr result (BlamesFound (K.seen keeper.old).now) }
    ensures valid { IfOk result (λ n. IsTrue (every has_valid_kind (one (node_of n)))) }
    ensures fitting { IfOk result (λ n. IsTrue (every has_room (one (node_of n)))) }
    ensures sorted { IfOk result (λ n. IsSorted (entries_of (one (node_of n)))) }
    ensures nodes { IfOk result (λ n. nodes (one (node_of n)) ≡ nodes (one (tree_of tree))) }
    ensures few { IfOk result (λ n. nodes (one (node_of n)) < 2 ^ 64) }
    ensures ground { SameGround K.over K.has_maps K.tells K.seen K.written K.changes K.moment K.left_since keeper.old keeper.new }
    ensures accounts { Accounts K.is_sound K.is_spent K.fault_count K.want_count keeper.old keeper.new (edit_fault result) }
    ensures cost { steps.new ≤ steps.old + 1 }
{
    let site = last(alloc, keeper, None, steps)?;
    Ok(planted(alloc, &site, tree)?)
}

/// Whether the new tree would be a text's child.
fn is_in_text(place: Place, text: bool) -> bool
    ensures { result ≡ (is_inside place && text) }
{
    match place {
        Place::Before => false,
        Place::After => false,
        Place::First => text,
        Place::Last => text,
    }
}

/// The place beside or below the target, if the target is there and no text would get a child.
fn site_for<K: Keeper, L: Ledger>(
    alloc: Global,
    keeper: &mut K,
    place: Place,
    target: &Label,
    steps: &mut Steps<L>,
) -> Result<Site, EditError>
    requires { K.is_sound keeper.old }
    ensures gap { (f : Trees Labelled) → HoldsImage K.has_maps K.seen keeper.old f → IfOk result (λ s. gap_in s ≡ gap place target.now [] None f) }
    ensures accepted { (f : Trees Labelled) → HoldsImage K.has_maps K.seen keeper.old f → OnOk result ((t : Tree Kind) → insert_refusal place target.now t f ≡ placed_refusal (level (gap place target.now [] None f).parent) (inserted_label place target.now f) t) }
    ensures refused { (f : Trees Labelled) → HoldsImage K.has_maps K.seen keeper.old f → IfErr result (λ e. (t : Tree Kind) → IsRefusedBy (insert_refusal place target.now t f) e) }
    ensures open { IfOk result (λ s. IsOpen (gap_in s)) }
    ensures damaged { K.has_maps keeper.old → IfErr result (BlamesFound (K.seen keeper.old).now) }
    ensures ground { SameGround K.over K.has_maps K.tells K.seen K.written K.changes K.moment K.left_since keeper.old keeper.new }
    ensures accounts { Accounts K.is_sound K.is_spent K.fault_count K.want_count keeper.old keeper.new (edit_fault result) }
    ensures cost { steps.new ≤ steps.old + 2 }
{
    byte_order();
    ancestry();
    images_rise();
    let _spelled = target.as_bytes();
    match is_text(alloc, keeper, target, steps)? {
        None => Err(EditError::Refused(Refusal::Absent)),
        Some(text) => {
            if is_in_text(place, text) {
                return Err(EditError::Refused(Refusal::Leaf));
            }
            Ok(site_at(alloc, keeper, place, target, steps)?)
        }
    }
}

/// The tree with its labels for an insertion beside or below the target.
pub fn tree_for_insert<K: Keeper, L: Ledger>(
    alloc: Global,
    keeper: &mut K,
    place: Place,
    target: &Label,
    tree: Plain,
    steps: &mut Steps<L>,
) -> Result<Node, EditError>
    requires sound { K.is_sound keeper.old }
    requires valid { IsTrue (is_valid_tree (tree_of tree)) }
    ensures node { (f : Trees Labelled) → HoldsImage K.has_maps K.seen keeper.old f → IfOk result (λ n. node_of n ≡ number (inserted_label place target.now f) (tree_of tree)) }
    ensures accepted { (f : Trees Labelled) → HoldsImage K.has_maps K.seen keeper.old f → OnOk result (insert_refusal place target.now (tree_of tree) f ≡ None) }
    ensures refused { (f : Trees Labelled) → HoldsImage K.has_maps K.seen keeper.old f → IfErr result (IsRefusedBy (insert_refusal place target.now (tree_of tree) f)) }
    ensures damaged { K.has_maps keeper.old → IfErr result (BlamesFound (K.seen keeper.old).now) }
    ensures valid { IfOk result (λ n. IsTrue (every has_valid_kind (one (node_of n)))) }
    ensures fitting { IfOk result (λ n. IsTrue (every has_room (one (node_of n)))) }
    ensures sorted { IfOk result (λ n. IsSorted (entries_of (one (node_of n)))) }
    ensures nodes { IfOk result (λ n. nodes (one (node_of n)) ≡ nodes (one (tree_of tree))) }
    ensures few { IfOk result (λ n. nodes (one (node_of n)) < 2 ^ 64) }
    ensures ground { SameGround K.over K.has_maps K.tells K.seen K.written K.changes K.moment K.left_since keeper.old keeper.new }
    ensures accounts { Accounts K.is_sound K.is_spent K.fault_count K.want_count keeper.old keeper.new (edit_fault result) }
    ensures cost { steps.new ≤ steps.old + 2 }
{
    let site = site_for(alloc, keeper, place, target, steps)?;
    Ok(planted(alloc, &site, tree)?)
}

/// The tree with its labels for a replacement of the target, which is there.
pub fn tree_for_replace(alloc: Global, target: &Label, tree: Plain) -> Result<Node, TreeError>
    requires { IsTrue (is_valid_tree (tree_of tree)) }
    ensures node { IfOk result (λ n. node_of n ≡ number target.now (tree_of tree)) }
    ensures accepted { OnOk result (placed_refusal (level target.now - 1) target.now (tree_of tree) ≡ None) }
    ensures refused { IfErr result (λ e. IsRefusal e (placed_refusal (level target.now - 1) target.now (tree_of tree))) }
    ensures valid { IfOk result (λ n. IsTrue (every has_valid_kind (one (node_of n)))) }
    ensures fitting { IfOk result (λ n. IsTrue (every has_room (one (node_of n)))) }
    ensures sorted { IfOk result (λ n. IsSorted (entries_of (one (node_of n)))) }
    ensures nodes { IfOk result (λ n. nodes (one (node_of n)) ≡ nodes (one (tree_of tree))) }
    ensures few { IfOk result (λ n. nodes (one (node_of n)) < 2 ^ 64) }
{
    let _nodes = placed(target.level().saturating_sub(1), &tree)?;
    let label = target.copy(alloc)?;
    numbered(alloc, label, tree)
}
