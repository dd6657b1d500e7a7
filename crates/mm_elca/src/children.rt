//! The children of a node on the way to nodes below it.

ghost use Rattle.std.specs.Prelude.{◌≡◌, IfOk, length};
ghost use Rattle.mm_label.specs.Label.{whole};
ghost use Rattle.mm_elca.specs.Inside.Children.{AreBelow, AreChildrenTo};

use mm_label::Label;
use mm_list::Items;
use mm_lists::child_to;
use std::alloc::{AllocError, Global};

/// In the place of each of the nodes below x the child of x that is this node or above it.
pub fn children_to(alloc: Global, x: &Label, under: &[Label]) -> Result<Items<Label>, AllocError>
    ensures value { whole x.now ≡ x.now → AreBelow x.now under.now → IfOk result (λ ks. AreChildrenTo x.now under.now ks) }
    ensures count { IfOk result (λ ks. length ks ≡ length under.now) }
{
    let mut kids = Items::new(alloc);
    for t in under {
        kids.push(child_to(alloc, x, t)?)?;
    }
    Ok(kids)
}
