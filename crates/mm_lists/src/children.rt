//! The child of a node on the way to a node below it.

ghost use Rattle.std.specs.Prelude.{◌≡◌, IfOk};
ghost use Rattle.mm_label.specs.Label.{whole};
ghost use Rattle.mm_label.specs.Fronts.{Front, IsChild};

use mm_label::Label;
use std::alloc::{AllocError, Global};

/// The child of x that is t or above it. t lies below x.
pub fn child_to(alloc: Global, x: &Label, t: &Label) -> Result<Label, AllocError>
    ensures child { whole x.now ≡ x.now → whole t.now ≡ t.now → Front x.now t.now → (t.now ≡ x.now → ⊥) → IfOk result (λ k. IsChild x.now k) }
    ensures above { whole x.now ≡ x.now → whole t.now ≡ t.now → Front x.now t.now → (t.now ≡ x.now → ⊥) → IfOk result (λ k. Front k t.now) }
{
    let mut kid = t.copy(alloc)?;
    while let Some(up) = kid.parent(alloc)? {
        if up == *x {
            return Ok(kid);
        }
        kid = up;
    }
    Ok(kid)
}
