//! The answers so far, and the candidate that is held back until no deeper one can come.

ghost use Rattle.std.specs.Prelude.{◌≡◌, ◌<◌, IfOk};
ghost use Rattle.mm_slca.specs.Inside.Walk.{finished, taken_done, taken_held};
ghost use Rattle.mm_label.specs.Fronts.{or_empty};

use mm_label::Label;
use mm_list::Items;
use std::alloc::AllocError;

/// The answers so far, and the candidate that is held.
#[derive(Drop)]
pub struct Walk {
    pub done: Items<Label>,
    pub held: Option<Label>,
}

/// Lets a candidate in: what is held then.
pub fn take_up(
    done: &mut Items<Label>,
    held: Option<Label>,
    candidate: Option<Label>,
) -> Result<Option<Label>, AllocError>
    ensures { IfOk result (λ h. (done.new ≡ taken_done done.old (or_empty held) (or_empty candidate)) × (or_empty h ≡ taken_held (or_empty held) (or_empty candidate))) }
{
    let Some(c) = candidate else {
        return Ok(held);
    };
    let Some(h) = held else {
        return Ok(Some(c));
    };
    if c.is_prefix(&h) {
        return Ok(Some(h));
    }
    if h.is_prefix(&c) {
        return Ok(Some(c));
    }
    done.push(h)?;
    Ok(Some(c))
}

/// Ends the walk: what is held is the last answer.
#[tactic(auto, using(crate::proofs::Walking::finished_some))]
pub fn finish(walk: Walk) -> Result<Items<Label>, AllocError>
    ensures { IfOk result (λ r. r ≡ finished walk.done (or_empty walk.held)) }
{
    let Walk { done, held } = walk;
    let mut done = done;
    if let Some(last) = held {
        // A label has bytes, so it isn't the empty list.
        let _ = last.as_bytes();
        done.push(last)?;
    }
    Ok(done)
}
