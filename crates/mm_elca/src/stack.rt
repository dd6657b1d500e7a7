//! The stack of the candidates that were passed.

ghost use Rattle.std.specs.Prelude.{◌≡◌, ◌+◌, IfOk, length};
ghost use Rattle.mm_elca.specs.Inside.Stack.{Falling, Off, Parted, Takes};

use mm_label::Label;
use mm_list::Items;
use std::alloc::{AllocError, Global};

/// Takes the last of the stack off where it lies below x.
fn take_one(x: &Label, stack: &mut Items<Label>) -> Result<Option<Label>, AllocError>
    ensures { IfOk result (λ o. Takes x.now stack.old stack.new o) }
{
    let Some(t) = stack.pop() else {
        return Ok(None);
    };
    if x.is_prefix(&t) {
        return Ok(Some(t));
    }
    stack.push(t)?;
    Ok(None)
}

/// Takes off what lies below x, in document order.
pub fn take_below(
    alloc: Global,
    x: &Label,
    stack: &mut Items<Label>,
) -> Result<Items<Label>, AllocError>
    ensures parted { Falling stack.old → IfOk result (λ under. Parted x.now stack.old stack.new under) }
    ensures off { IfOk result (λ under. Off x.now stack.new) }
    ensures count { IfOk result (λ under. length stack.new + length under ≡ length stack.old) }
{
    let mut under = Items::new(alloc);
    while let Some(t) = take_one(x, stack)? {
        under.push(t)?;
    }
    Ok(under)
}
