// A label with some words of a query.
ghost use Rattle.std.specs.Prelude.{◌≡◌, IfOk};

use mm_label::Label;
use std::alloc::{AllocError, Global};

/// A node, and words of a query that it or a node below it holds.
#[derive(Debug, Drop)]
pub struct Mark {
    pub label: Label,
    /// Bit i is the query's i-th word, counted from 0.
    pub mask: u32,
}

impl Mark {
    /// The same mark once more.
    pub fn copy(&self, alloc: Global) -> Result<Mark, AllocError>
        ensures { IfOk result (λ m. m ≡ self.now) }
    {
        Ok(Mark {
            label: self.label.copy(alloc)?,
            mask: self.mask,
        })
    }
}
