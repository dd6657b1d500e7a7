//! The children of a node that stand next to a gap.

ghost use Rattle.std.specs.Prelude.{◌≡◌, ◌+◌, ◌<◌, ◌⊎◌, [], false, true, IfOk, IfErr, IfSome, MatchBool, Option, length, option_map};
ghost use Rattle.mm_image.specs.Ground.{Accounts, SameGround};
ghost use Rattle.mm_image.specs.Looking.{entry_at};
ghost use Rattle.mm_keeper.specs.Entries.{first_from, last_to};
ghost use Rattle.mm_keeper.specs.Keeping.{fault_of};
ghost use Rattle.mm_label.specs.Fronts.{IsChild};
ghost use Rattle.mm_label.specs.Label.{IsLabel, last_odd, whole};
ghost use Rattle.mm_label.specs.Refusals.{front_of};
ghost use Rattle.mm_edit.specs.Inside.Placing.{BlamesKey, FindsChild, IsUnder, LeadsTo, kept_after, kept_before};

use crate::seeking::{first_label, last_label};
use mm_host::Fault;
use mm_keeper::Keeper;
use mm_label::Label;
use mm_steps::Steps;
use std::alloc::{AllocError, Global};
use std::sync::ledger::Ledger;

/// The label without its last segment, or None at level 1.
pub fn parent_of(alloc: Global, label: &Label) -> Result<Option<Label>, AllocError>
    ensures child { IfOk result (λ p. IsChild (front_of p) label.now) }
    ensures ends { IfOk result (λ p. (front_of p ≡ []) ⊎ (last_odd false (front_of p) ≡ true)) }
    ensures whole { IfOk result (λ p. whole (front_of p) ≡ front_of p) }
    ensures shorter { IfOk result (λ p. length (front_of p) < length label.now) }
    ensures label { IsLabel label.now }
{
    let _spelled = label.as_bytes();
    label.parent(alloc)
}

/// Whether the label is the parent itself.
fn is_parent(parent: Option<&Label>, label: &Label) -> bool
    ensures { MatchBool result (front_of (option_map (λ p. p.now) parent.entry) ≡ label.now) (front_of (option_map (λ p. p.now) parent.entry) ≡ label.now → ⊥) }
{
    let _spelled = label.as_bytes();
    match parent {
        Some(parent) => parent == label,
        None => false,
    }
}

/// Whether the label lies below the parent; without a parent each does.
fn is_under(parent: Option<&Label>, label: &Label) -> bool
    ensures under { MatchBool result (IsUnder (front_of (option_map (λ p. p.now) parent.entry)) label.now) (IsUnder (front_of (option_map (λ p. p.now) parent.entry)) label.now → ⊥) }
    ensures whole { whole (front_of (option_map (λ p. p.now) parent.entry)) ≡ front_of (option_map (λ p. p.now) parent.entry) }
{
    let _spelled = label.as_bytes();
    match parent {
        Some(parent) => {
            let _bytes = parent.as_bytes();
            parent.is_prefix(label) && parent != label
        }
        None => true,
    }
}

/// The child of the parent that is the label or above it; None where the label isn't below the parent.
fn child_above(
    alloc: Global,
    parent: Option<&Label>,
    label: &Label,
) -> Result<Option<Label>, AllocError>
    ensures { IfOk result (LeadsTo (front_of (option_map (λ p. p.now) parent.entry)) (Option.Some label.now)) }
{
    if !is_under(parent, label) {
        return Ok(None);
    }
    let mut child = label.copy(alloc)?;
    while let Some(up) = parent_of(alloc, &child)? {
        if is_parent(parent, &up) {
            return Ok(Some(child));
        }
        child = up;
    }
    Ok(Some(child))
}

/// The child of the parent at or above the last node that has a piece at or below this key.
pub fn last_child<K: Keeper, L: Ledger>(
    alloc: Global,
    keeper: &mut K,
    parent: Option<&Label>,
    key: &[u8],
    steps: &mut Steps<L>,
) -> Result<Option<Label>, Fault>
    requires { K.is_sound keeper.old }
    ensures finds { K.has_maps keeper.old → IfOk result (FindsChild (front_of (option_map (λ p. p.now) parent.entry)) (entry_at (K.seen keeper.old).now (last_to (K.seen keeper.old).now key.now))) }
    ensures damaged { K.has_maps keeper.old → IfErr result (BlamesKey (entry_at (K.seen keeper.old).now (last_to (K.seen keeper.old).now key.now))) }
    ensures child { IfOk result (λ c. IfSome c (IsChild (front_of (option_map (λ p. p.now) parent.entry)))) }
    ensures ground { SameGround K.over K.has_maps K.tells K.seen K.written K.changes K.moment K.left_since keeper.old keeper.new }
    ensures accounts { Accounts K.is_sound K.is_spent K.fault_count K.want_count keeper.old keeper.new (fault_of result) }
    ensures step { steps.new ≡ steps.old + 1 }
{
    match last_label(alloc, keeper, key, steps)? {
        Some(label) => Ok(child_above(alloc, parent, &label)?),
        None => Ok(None),
    }
}

/// The child of the parent at or above the first node that has a piece at or above this key.
pub fn first_child<K: Keeper, L: Ledger>(
    alloc: Global,
    keeper: &mut K,
    parent: Option<&Label>,
    key: &[u8],
    steps: &mut Steps<L>,
) -> Result<Option<Label>, Fault>
    requires { K.is_sound keeper.old }
    ensures finds { K.has_maps keeper.old → IfOk result (FindsChild (front_of (option_map (λ p. p.now) parent.entry)) (entry_at (K.seen keeper.old).now (first_from (K.seen keeper.old).now key.now))) }
    ensures damaged { K.has_maps keeper.old → IfErr result (BlamesKey (entry_at (K.seen keeper.old).now (first_from (K.seen keeper.old).now key.now))) }
    ensures child { IfOk result (λ c. IfSome c (IsChild (front_of (option_map (λ p. p.now) parent.entry)))) }
    ensures ground { SameGround K.over K.has_maps K.tells K.seen K.written K.changes K.moment K.left_since keeper.old keeper.new }
    ensures accounts { Accounts K.is_sound K.is_spent K.fault_count K.want_count keeper.old keeper.new (fault_of result) }
    ensures step { steps.new ≡ steps.old + 1 }
{
    match first_label(alloc, keeper, key, steps)? {
        Some(label) => Ok(child_above(alloc, parent, &label)?),
        None => Ok(None),
    }
}

/// The neighbour on the left, where it comes before the label. Over an image it does.
pub fn keep_before(left: Option<Label>, label: &Label) -> Option<Label>
    ensures { result ≡ kept_before label.now left }
{
    match left {
        Some(left) => { if left < *label { Some(left) } else { None } }
        None => None,
    }
}

/// The neighbour on the right, where it comes after the label. Over an image it does.
pub fn keep_after(right: Option<Label>, label: &Label) -> Option<Label>
    ensures { result ≡ kept_after label.now right }
{
    match right {
        Some(right) => { if *label < right { Some(right) } else { None } }
        None => None,
    }
}
