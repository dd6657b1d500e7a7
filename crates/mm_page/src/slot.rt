// A page in memory, and what was kept of it.
ghost use Rattle.std.specs.Prelude.{◌≡◌, [], true, false, if◌then◌else◌, OnOk};
ghost use Rattle.mm_page.specs.declared.slot.Kept.TheVariants.{Free};
ghost use Rattle.mm_page.specs.Slots.{kept_page, IsApart};

use crate::page::Page;
use std::alloc::{AllocError, Global};
use std::mem;

// What the last commit kept of a page: what stands there now, nothing, or another leaf.
#[derive(Drop)]
pub(crate) enum Kept {
    Here,
    Free,
    Other(Page),
}

// A page, and whether it is in use.
#[derive(Drop)]
pub(crate) struct Slot {
    pub(crate) page: Page,
    pub(crate) used: bool,
    pub(crate) kept: Kept,
}

impl Slot {
    pub(crate) fn new(page: Page) -> Slot
        ensures { result ≡ record { page = page; used = true; kept = Free } }
    {
        Slot {
            page,
            used: true,
            kept: Kept::Free,
        }
    }

    // Makes sure that a change of the page leaves what was kept of it.
    pub(crate) fn set_apart(&mut self, alloc: Global) -> Result<(), AllocError>
        ensures page { self.new.page ≡ self.old.page }
        ensures used { self.new.used ≡ self.old.used }
        ensures kept { kept_page self.new ≡ kept_page self.old }
        ensures apart { OnOk result (IsApart self.new.kept) }
    {
        if let Kept::Here = self.kept {
            self.kept = Kept::Other(self.page.copy(alloc)?);
        }
        Ok(())
    }

    // Puts a page in the place of one that isn't in use.
    pub(crate) fn renew(&mut self, page: Page)
        ensures page { self.new.page ≡ page }
        ensures used { self.new.used ≡ true }
        ensures kept { kept_page self.new ≡ kept_page self.old }
    {
        let before = mem::replace(&mut self.page, page);
        if let Kept::Here = self.kept {
            self.kept = Kept::Other(before);
        }
        self.used = true;
    }

    pub(crate) fn set_used(&mut self, used: bool)
        ensures page { self.new.page ≡ self.old.page }
        ensures used { self.new.used ≡ used }
        ensures kept { self.new.kept ≡ self.old.kept }
    {
        self.used = used;
    }

    // Keeps the page as it is now.
    pub(crate) fn keep(&mut self)
        ensures page { self.new.page ≡ self.old.page }
        ensures used { self.new.used ≡ self.old.used }
        ensures kept { kept_page self.new ≡ (if self.old.used then self.old.page else []) }
    {
        self.kept = if self.used { Kept::Here } else { Kept::Free };
    }
}
