//! Masks: the words below each node on a path from the root to a match.

ghost use Rattle.std.specs.Prelude.{◌≡◌, ◌↔◌, None, Option, IfOk, OnOk, cond};
ghost use Rattle.std.specs.Ordering.{int_cmp, is_eq};
ghost use Rattle.std.specs.Cmp.Lexicographic.{slice_cmp};
ghost use Rattle.std.specs.List.Sorted.{IsStrictlySortedBy};
ghost use Rattle.std.specs.BTreeMap.{keys};
ghost use Rattle.mm_label.specs.Fronts.{Ascends, Label, Within};
ghost use Rattle.mm_match.specs.declared.mark.Mark.{Mark};
ghost use Rattle.mm_match.specs.Marks.{IsOnPath, at_or_below, labels, mask_at};
ghost use Rattle.mm_match.specs.Inside.Passing.{gathered, let_in, marks_of, mask_in, more};

use crate::mark::Mark;
use crate::parents::parent_of;
use mm_label::Label;
use mm_list::Items;
use std::alloc::{AllocError, Global};
use std::collections::BTreeMap;

/// Masks by the labels of their nodes.
type Masks = BTreeMap<Label, u32>;

/// Adds words to the mask of a node.
fn add(masks: &mut Masks, label: Label, words: u32) -> Result<(), AllocError>
    ensures { OnOk result ((x : Label) → mask_in masks.new x ≡ cond (is_eq (slice_cmp int_cmp label x)) (more (mask_in masks.old label) words) (mask_in masks.old x)) }
{
    let mask = masks.remove(&label).unwrap_or(0);
    masks.insert(label, mask | words)?;
    Ok(())
}

/// The label, where it lies at or below the root.
pub fn at_or_below(root: &Label, at: Option<Label>) -> Option<Label>
    ensures { result ≡ at_or_below root.now at }
{
    match at {
        Some(label) => {
            if root.is_prefix(&label) {
                Some(label)
            } else {
                None
            }
        }
        None => None,
    }
}

/// Adds the words of a match to the mask of each node from it up to the root.
fn let_in(alloc: Global, masks: &mut Masks, root: &Label, mark: &Mark) -> Result<(), AllocError>
    ensures { OnOk result ((x : Label) → mask_in masks.new x ≡ let_in root.now x mark.now (mask_in masks.old x)) }
{
    let _ = root.as_bytes();
    let _ = mark.label.as_bytes();
    let mut at = at_or_below(root, Some(mark.label.copy(alloc)?));
    while let Some(label) = at {
        let parent = parent_of(alloc, &label)?;
        at = at_or_below(root, parent);
        add(masks, label, mark.mask)?;
    }
    Ok(())
}

/// The masks of all matches.
fn gathered(alloc: Global, root: &Label, matches: &[Mark]) -> Result<Masks, AllocError>
    ensures { IfOk result (λ masks. (x : Label) → mask_in masks x ≡ gathered root.now x None matches.now) }
{
    let mut masks = BTreeMap::new(alloc);
    for mark in matches {
        let_in(alloc, &mut masks, root, mark)?;
    }
    Ok(masks)
}

/// The masks as marks, in the order of their labels.
fn listed(alloc: Global, masks: Masks) -> Result<Items<Mark>, AllocError>
    ensures value { IfOk result (λ marks. marks ≡ marks_of masks.entries) }
    ensures ordered { IsStrictlySortedBy (slice_cmp int_cmp) (keys masks) }
{
    let mut marks = Items::new(alloc);
    for (label, mask) in masks {
        marks.push(Mark { label, mask })?;
    }
    Ok(marks)
}

/// Every node on a path from the root to a match, in the order of the document, with the words of its
/// subtree among the matches. The matches are those at or below the root.
pub fn masks(alloc: Global, root: &Label, matches: &[Mark]) -> Result<Items<Mark>, AllocError>
    ensures ordered { IfOk result (λ r. Ascends (labels r)) }
    ensures on_path { IfOk result (λ r. (x : Label) → Within x (labels r) ↔ IsOnPath root.now matches.now x) }
    ensures words { IfOk result (λ r. (m : Mark) → Within m r → m.mask ≡ mask_at m.label matches.now) }
{
    let masks = gathered(alloc, root, matches)?;
    listed(alloc, masks)
}
