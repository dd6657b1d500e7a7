//! The nodes that a fragment keeps.

ghost use Rattle.std.specs.Prelude.{IfOk};
ghost use Rattle.mm_fragment.specs.Inside.Keeping.{IsKept};

use mm_label::Label;
use mm_list::Items;
use mm_match::{Mark, masks, prune};
use std::alloc::{AllocError, Global};

/// What is kept of the nodes on the paths from the root to the matches, in document order.
pub fn kept_nodes(alloc: Global, root: &Label, matches: &[Mark]) -> Result<Items<Mark>, AllocError>
    ensures { IfOk result (IsKept root.now matches.now) }
{
    let marked = masks(alloc, root, matches)?;
    prune(alloc, marked.as_slice())
}
