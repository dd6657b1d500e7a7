//! Where a new root goes: below which node, and between which neighbours.

ghost use Rattle.std.specs.Prelude.{◌≡◌, ◌+◌, ◌≤◌, ◌⊎◌, [], false, true, IfOk, IfErr, None, option_map};
ghost use Rattle.mm_image.specs.Ground.{Accounts, HoldsImage, SameGround};
ghost use Rattle.mm_keeper.specs.Keeping.{fault_of};
ghost use Rattle.mm_label.specs.Label.{last_odd};
ghost use Rattle.mm_label.specs.Refusals.{front_of};
ghost use Rattle.mm_tree.specs.declared.forest.place.Place.TheVariants as places;
ghost use Rattle.mm_tree.specs.Edits.{gap, has_node, last_label};
ghost use Rattle.mm_tree.specs.Gaps.{IsOpen};
ghost use Rattle.mm_tree.specs.Numbering.{Labelled};
ghost use Rattle.mm_tree.specs.Trees.{Trees};
ghost use Rattle.mm_edit.specs.Inside.Sites.{gap_in};
ghost use Rattle.mm_edit.specs.Inside.Placing.{BlamesHeld};

use crate::neighbours::{first_child, keep_after, keep_before, last_child, parent_of};
use crate::seeking::seek_key;
use mm_host::Fault;
use mm_keeper::Keeper;
use mm_label::Label;
use mm_label::laws::{ancestry, byte_order};
use mm_steps::Steps;
use mm_tree::Place;
use std::alloc::{AllocError, Global};
use std::sync::ledger::Ledger;

/// The labels around a new root: its parent's, or none on top, and those of its neighbours.
#[derive(Drop)]
pub struct Site {
    pub parent: Option<Label>,
    pub left: Option<Label>,
    pub right: Option<Label>,
}

/// Lends the label, if there is one.
pub fn lent(label: &Option<Label>) -> Option<&Label>
    ensures { option_map (λ l. l.now) result ≡ label.now }
{
    match label {
        Some(label) => Some(label),
        None => None,
    }
}

/// The same label once more, if there is one.
fn copied(alloc: Global, label: Option<&Label>) -> Result<Option<Label>, AllocError>
    ensures value { IfOk result (λ l. l ≡ option_map (λ l. l.now) label.entry) }
    ensures ends { IfOk result (λ l. (front_of l ≡ []) ⊎ (last_odd false (front_of l) ≡ true)) }
{
    match label {
        Some(label) => Ok(Some(label.copy(alloc)?)),
        None => Ok(None),
    }
}

/// Directly before the target.
fn before<K: Keeper, L: Ledger>(
    alloc: Global,
    keeper: &mut K,
    target: &Label,
    steps: &mut Steps<L>,
) -> Result<Site, Fault>
    requires { K.is_sound keeper.old }
    ensures gap { (f : Trees Labelled) → HoldsImage K.has_maps K.seen keeper.old f → has_node target.now f ≡ true → IfOk result (λ a. gap_in a ≡ gap places.Before target.now [] None f) }
    ensures open { IfOk result (λ a. IsOpen (gap_in a)) }
    ensures damaged { K.has_maps keeper.old → IfErr result (BlamesHeld (K.seen keeper.old).now) }
    ensures ground { SameGround K.over K.has_maps K.tells K.seen K.written K.changes K.moment K.left_since keeper.old keeper.new }
    ensures accounts { Accounts K.is_sound K.is_spent K.fault_count K.want_count keeper.old keeper.new (fault_of result) }
    ensures cost { steps.new ≤ steps.old + 1 }
{
    byte_order();
    ancestry();
    let parent = parent_of(alloc, target)?;
    let right = target.copy(alloc)?;
    let key = seek_key(alloc, Some(target), &[])?;
    let found = last_child(alloc, keeper, lent(&parent), key.as_slice(), steps)?;
    let left = keep_before(found, target);
    Ok(Site {
        parent,
        left,
        right: Some(right),
    })
}

/// Directly after the target and all below it.
fn after<K: Keeper, L: Ledger>(
    alloc: Global,
    keeper: &mut K,
    target: &Label,
    steps: &mut Steps<L>,
) -> Result<Site, Fault>
    requires { K.is_sound keeper.old }
    ensures gap { (f : Trees Labelled) → HoldsImage K.has_maps K.seen keeper.old f → has_node target.now f ≡ true → IfOk result (λ a. gap_in a ≡ gap places.After target.now [] None f) }
    ensures open { IfOk result (λ a. IsOpen (gap_in a)) }
    ensures damaged { K.has_maps keeper.old → IfErr result (BlamesHeld (K.seen keeper.old).now) }
    ensures ground { SameGround K.over K.has_maps K.tells K.seen K.written K.changes K.moment K.left_since keeper.old keeper.new }
    ensures accounts { Accounts K.is_sound K.is_spent K.fault_count K.want_count keeper.old keeper.new (fault_of result) }
    ensures cost { steps.new ≤ steps.old + 1 }
{
    byte_order();
    ancestry();
    let parent = parent_of(alloc, target)?;
    let left = target.copy(alloc)?;
    // No byte of a key that goes on from the target's is above this one.
    let key = seek_key(alloc, Some(target), &[255])?;
    let found = first_child(alloc, keeper, lent(&parent), key.as_slice(), steps)?;
    let right = keep_after(found, target);
    Ok(Site {
        parent,
        left: Some(left),
        right,
    })
}

/// As the target's first child.
fn first<K: Keeper, L: Ledger>(
    alloc: Global,
    keeper: &mut K,
    target: &Label,
    steps: &mut Steps<L>,
) -> Result<Site, Fault>
    requires { K.is_sound keeper.old }
    ensures gap { (f : Trees Labelled) → HoldsImage K.has_maps K.seen keeper.old f → has_node target.now f ≡ true → IfOk result (λ a. gap_in a ≡ gap places.First target.now [] None f) }
    ensures open { IfOk result (λ a. IsOpen (gap_in a)) }
    ensures damaged { K.has_maps keeper.old → IfErr result (BlamesHeld (K.seen keeper.old).now) }
    ensures ground { SameGround K.over K.has_maps K.tells K.seen K.written K.changes K.moment K.left_since keeper.old keeper.new }
    ensures accounts { Accounts K.is_sound K.is_spent K.fault_count K.want_count keeper.old keeper.new (fault_of result) }
    ensures cost { steps.new ≤ steps.old + 1 }
{
    byte_order();
    ancestry();
    let parent = copied(alloc, Some(target))?;
    // This byte is above the one that ends the target in its own keys, and below each that goes on.
    let key = seek_key(alloc, Some(target), &[1])?;
    let right = first_child(alloc, keeper, Some(target), key.as_slice(), steps)?;
    Ok(Site {
        parent,
        left: None,
        right,
    })
}

/// As the last child of the parent; without a parent, behind all trees.
pub fn last<K: Keeper, L: Ledger>(
    alloc: Global,
    keeper: &mut K,
    parent: Option<&Label>,
    steps: &mut Steps<L>,
) -> Result<Site, Fault>
    requires { K.is_sound keeper.old }
    ensures gap { (f : Trees Labelled) → HoldsImage K.has_maps K.seen keeper.old f → has_node (front_of (option_map (λ p. p.now) parent.entry)) f ≡ true → IfOk result (λ a. gap_in a ≡ gap places.Last (front_of (option_map (λ p. p.now) parent.entry)) [] None f) }
    ensures top { (f : Trees Labelled) → HoldsImage K.has_maps K.seen keeper.old f → front_of (option_map (λ p. p.now) parent.entry) ≡ [] → IfOk result (λ a. gap_in a ≡ record { parent = []; left = last_label None f; right = None }) }
    ensures open { IfOk result (λ a. IsOpen (gap_in a)) }
    ensures damaged { K.has_maps keeper.old → IfErr result (BlamesHeld (K.seen keeper.old).now) }
    ensures ground { SameGround K.over K.has_maps K.tells K.seen K.written K.changes K.moment K.left_since keeper.old keeper.new }
    ensures accounts { Accounts K.is_sound K.is_spent K.fault_count K.want_count keeper.old keeper.new (fault_of result) }
    ensures cost { steps.new ≤ steps.old + 1 }
{
    byte_order();
    ancestry();
    let above = copied(alloc, parent)?;
    // No byte of a key that goes on from the parent's is above this one.
    let key = seek_key(alloc, parent, &[255])?;
    let left = last_child(alloc, keeper, parent, key.as_slice(), steps)?;
    Ok(Site {
        parent: above,
        left,
        right: None,
    })
}

/// The place beside or below the target.
pub fn site_at<K: Keeper, L: Ledger>(
    alloc: Global,
    keeper: &mut K,
    place: Place,
    target: &Label,
    steps: &mut Steps<L>,
) -> Result<Site, Fault>
    requires { K.is_sound keeper.old }
    ensures gap { (f : Trees Labelled) → HoldsImage K.has_maps K.seen keeper.old f → has_node target.now f ≡ true → IfOk result (λ a. gap_in a ≡ gap place target.now [] None f) }
    ensures open { IfOk result (λ a. IsOpen (gap_in a)) }
    ensures damaged { K.has_maps keeper.old → IfErr result (BlamesHeld (K.seen keeper.old).now) }
    ensures ground { SameGround K.over K.has_maps K.tells K.seen K.written K.changes K.moment K.left_since keeper.old keeper.new }
    ensures accounts { Accounts K.is_sound K.is_spent K.fault_count K.want_count keeper.old keeper.new (fault_of result) }
    ensures cost { steps.new ≤ steps.old + 1 }
{
    match place {
        Place::Before => before(alloc, keeper, target, steps),
        Place::After => after(alloc, keeper, target, steps),
        Place::First => first(alloc, keeper, target, steps),
        Place::Last => last(alloc, keeper, Some(target), steps),
    }
}
