//! The children of the root on the way to its matches, and which of them are full.

ghost use Rattle.std.specs.Prelude.{◌≡◌, ◌↔◌, IfOk, AllPairs, IsTrue};
ghost use Rattle.mm_label.specs.Label.{IsBefore, whole};
ghost use Rattle.mm_label.specs.Fronts.{Front};
ghost use Rattle.mm_fragment.specs.Inside.Children.{IsFullChild};
ghost use Rattle.mm_fragment.specs.Matching.{Reaches};

use mm_label::Label;
use mm_list::at as item_at;
use mm_lists::{child_to, count_before};
use std::alloc::{AllocError, Global};

/// The root of a fragment, and answers in document order, which tell which of its children are full: those
/// that have an answer at or below them.
#[derive(Clone, Copy)]
pub struct Root<'a> {
    pub label: &'a Label,
    pub answers: &'a [Label],
}

/// Whether one of the labels, which stand in document order, lies at or below x.
fn reaches(x: &Label, answers: &[Label]) -> bool
    ensures { AllPairs IsBefore answers.now → (IsTrue result ↔ Reaches x.now answers.now) }
{
    // Where any does, the first at or after x does.
    match item_at(answers, count_before(answers, x)) {
        Some(first) => x.is_prefix(first),
        None => false,
    }
}

/// The full child of the root at or above t, or None where there is none. t lies at or below the root.
pub fn full_child(alloc: Global, root: &Root, t: &Label) -> Result<Option<Label>, AllocError>
    ensures { AllPairs IsBefore root.now.answers.now → whole root.now.label.now ≡ root.now.label.now → whole t.now ≡ t.now → Front root.now.label.now t.now → IfOk result (IsFullChild root.now.label.now root.now.answers.now t.now) }
{
    if t == root.label {
        return Ok(None);
    }
    let kid = child_to(alloc, root.label, t)?;
    if reaches(&kid, root.answers) {
        Ok(Some(kid))
    } else {
        Ok(None)
    }
}
