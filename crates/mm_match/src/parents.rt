//! Labels by their parents.

ghost use Rattle.std.specs.Prelude.{◌≡◌, IfOk};
ghost use Rattle.mm_label.specs.Fronts.{parent, unless_empty};

use mm_label::Label;
use std::alloc::{AllocError, Global};

/// The label without its last segment, or None at level 1.
pub fn parent_of(alloc: Global, label: &Label) -> Result<Option<Label>, AllocError>
    ensures { IfOk result (λ found. found ≡ unless_empty (parent label.now)) }
{
    let _ = label.as_bytes();
    label.parent(alloc)
}
