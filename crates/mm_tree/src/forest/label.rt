//! The label of a new root.

ghost use Rattle.std.specs.Prelude.{◌≡◌, IfOk, IfErr, option_map};
ghost use Rattle.mm_label.specs.Label.{IsSegment};
ghost use Rattle.mm_label.specs.Between.{between, LiesBetween};
ghost use Rattle.mm_label.specs.Refusals.{RefusesSegment};
ghost use Rattle.mm_tree.specs.Numbering.{Labels};
ghost use Rattle.mm_tree.specs.Edits.{label_in, left_segment, right_segment};
ghost use Rattle.mm_tree.specs.Gaps.{gap_of, IsOpen};
ghost use Rattle.mm_tree.specs.Inside.Ways.{EndsIn};

use super::opening::Opening;
use crate::refusal::TreeError;
use mm_label::{Label, LabelError, between, child};
use std::alloc::{AllocError, Global};

/// The last segment of the neighbour, if there is one.
fn last_segment(alloc: Global, label: Option<&Label>) -> Result<Option<Vec<i64>>, AllocError>
    ensures { IfOk result (λ found. EndsIn (option_map (λ l. l.now) label.entry) (option_map (λ v. v.items) found)) }
{
    match label {
        None => Ok(None),
        Some(label) => Ok(Some(label.segment(alloc)?)),
    }
}

fn as_slice(segment: &Option<Vec<i64>>) -> Option<&[i64]>
    ensures { option_map (λ s. s.now) result ≡ option_map (λ v. v.items) segment.now }
{
    match segment {
        None => None,
        Some(segment) => Some(segment.as_slice()),
    }
}

/// A segment between those of the neighbours.
fn new_segment(alloc: Global, opening: Opening<'_>) -> Result<Vec<i64>, LabelError>
    requires { IsOpen (gap_of opening) }
    ensures value { IfOk result (λ v. v.items ≡ between (left_segment (gap_of opening.entry)) (right_segment (gap_of opening.entry))) }
    ensures segment { IfOk result (λ v. IsSegment v.items) }
    ensures lies { IfOk result (λ v. LiesBetween (left_segment (gap_of opening.entry)) v.items (right_segment (gap_of opening.entry))) }
    ensures refused { IfErr result (λ e. RefusesSegment e (between (left_segment (gap_of opening.entry)) (right_segment (gap_of opening.entry)))) }
{
    let left = last_segment(alloc, opening.left)?;
    let right = last_segment(alloc, opening.right)?;
    between(alloc, as_slice(&left), as_slice(&right))
}

/// The parent's label, and a segment between those of the neighbours.
pub fn new_label(alloc: Global, opening: Opening<'_>) -> Result<Label, TreeError>
    requires { IsOpen (gap_of opening) }
    ensures label { Labels result (label_in (gap_of opening.entry)) }
    ensures lies { IfOk result (λ label. LiesBetween (left_segment (gap_of opening.entry)) (between (left_segment (gap_of opening.entry)) (right_segment (gap_of opening.entry))) (right_segment (gap_of opening.entry))) }
{
    let parent = opening.parent;
    let segment = new_segment(alloc, opening)?;
    Ok(child(alloc, parent, segment.as_slice())?)
}
