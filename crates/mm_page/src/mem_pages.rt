// Pages in memory.
ghost use Rattle.std.specs.Prelude.{◌≡◌, ◌≤◌, ◌<◌, ◌+◌, ◌^◌, ◌==◌, ◌++◌, ◌∷◌, ℕ, [], true, false, if◌then◌else◌, length, get_or, IfOk, IfSome, OnOk, OnErr, Option};
ghost use Rattle.std.specs.List.{list_any};
ghost use Rattle.mm_page.specs.declared.slot.Kept.TheVariants.{Free};
ghost use Rattle.mm_page.specs.Facts.Heading.{IsHeader-prop};
ghost use Rattle.mm_page.specs.Header.{pages_in};
ghost use Rattle.mm_page.specs.Slots.{AreAlike, IsApart, no_slot, slot_at, kept_page, IsHeader};

use crate::header::Header;
use crate::page::Page;
use crate::pages::Pages;
use crate::slot::Slot;
use mm_host::Fault;
use mm_keeper::LendError;
use std::alloc::{AllocError, Global};

// How many pages there may be beside page 0.
const MOST: usize = (1 << 43) - 1;

// The index of a page that isn't in use.
fn free_slot(slots: &[Slot]) -> Option<usize>
    ensures { IfSome result (λ i. (i < length slots.now) × ((get_or slots.now i no_slot).used ≡ false)) }
{
    'walk: for index in 0..slots.len() {
        if !slots[index].used {
            return Some(index);
        }
    }
    None
}

// Makes sure that a change of a page leaves what was kept of it.
fn set_apart(alloc: Global, slots: &mut Vec<Slot>, index: usize) -> Result<(), AllocError>
    requires { index < length slots.old.items }
    ensures alike { AreAlike slots.old.items slots.new.items }
    ensures apart { OnOk result (IsApart (get_or slots.new.items index no_slot).kept) }
{
    match slots[index].set_apart(alloc) {
        Ok(()) => Ok(()),
        Err(error) => Err(error),
    }
}

// Puts a page in the place of one that isn't in use.
fn renew(slots: &mut Vec<Slot>, index: usize, page: Page)
    requires { index < length slots.old.items }
    ensures long { length slots.new.items ≡ length slots.old.items }
    ensures others { (i : ℕ) → (i == index) ≡ false → get_or slots.new.items i no_slot ≡ get_or slots.old.items i no_slot }
    ensures page { (get_or slots.new.items index no_slot).page ≡ page }
    ensures used { (get_or slots.new.items index no_slot).used ≡ true }
    ensures kept { kept_page (get_or slots.new.items index no_slot) ≡ kept_page (get_or slots.old.items index no_slot) }
{
    slots[index].renew(page);
}

fn release(slots: &mut Vec<Slot>, index: usize)
    requires { index < length slots.old.items }
    ensures long { length slots.new.items ≡ length slots.old.items }
    ensures others { (i : ℕ) → (i == index) ≡ false → get_or slots.new.items i no_slot ≡ get_or slots.old.items i no_slot }
    ensures page { (get_or slots.new.items index no_slot).page ≡ (get_or slots.old.items index no_slot).page }
    ensures used { (get_or slots.new.items index no_slot).used ≡ false }
    ensures kept { kept_page (get_or slots.new.items index no_slot) ≡ kept_page (get_or slots.old.items index no_slot) }
{
    slots[index].set_used(false);
}

// Puts a page behind all others, and answers its number.
fn add(slots: &mut Vec<Slot>, page: Page) -> Result<u64, AllocError>
    requires { length slots.old.items < 2 ^ 43 }
    ensures number { IfOk result (λ n. n ≡ length slots.old.items + 1) }
    ensures items { OnOk result (slots.new.items ≡ slots.old.items ++ record { page = page; used = true; kept = Free } ∷ []) }
    ensures few { length slots.new.items < 2 ^ 43 }
    ensures failed { OnErr result (slots.new.items ≡ slots.old.items) }
{
    if slots.len() >= MOST {
        return Err(AllocError);
    }
    match slots.push(Slot::new(page)) {
        Ok(()) => Ok(slots.len() as u64),
        Err(_) => Err(AllocError),
    }
}

// Keeps all pages in use as they are now.
fn keep_all(slots: &mut Vec<Slot>)
    ensures long { length slots.new.items ≡ length slots.old.items }
    ensures page { (i : ℕ) → (get_or slots.new.items i no_slot).page ≡ (get_or slots.old.items i no_slot).page }
    ensures used { (i : ℕ) → (get_or slots.new.items i no_slot).used ≡ (get_or slots.old.items i no_slot).used }
    ensures kept { (i : ℕ) → kept_page (get_or slots.new.items i no_slot) ≡ (if (get_or slots.old.items i no_slot).used then (get_or slots.old.items i no_slot).page else []) }
{
    'walk: for index in 0..slots.len() {
        slots[index].keep();
    }
}

// Makes free every page whose number isn't among these.
fn mark_used(slots: &mut Vec<Slot>, used: &[u64])
    ensures long { length slots.new.items ≡ length slots.old.items }
    ensures page { (i : ℕ) → (get_or slots.new.items i no_slot).page ≡ (get_or slots.old.items i no_slot).page }
    ensures used { (i : ℕ) → i < length slots.old.items → (get_or slots.new.items i no_slot).used ≡ list_any (λ m. m == i + 1) used.now }
    ensures kept { (i : ℕ) → kept_page (get_or slots.new.items i no_slot) ≡ kept_page (get_or slots.old.items i no_slot) }
{
    'walk: for index in 0..slots.len() {
        let among = is_listed(used, index as u64 + 1);
        slots[index].set_used(among);
    }
}

fn is_listed(numbers: &[u64], number: u64) -> bool
    ensures { result ≡ list_any (λ m. m == number) numbers.now }
{
    numbers.contains(&number)
}

/// Pages in memory, and of those that changed since the last commit what they were then. It fails only where there is
/// no memory.
#[derive(Drop)]
pub struct MemPages {
    alloc: Global,
    header: Option<Header>,
    kept_header: Option<Header>,
    slots: Vec<Slot>,
    ghost few: { length slots.items < 2 ^ 43 },
    ghost right: { IsHeader header } by { IsHeader-prop header },
    ghost counted: { pages_in header ≤ length slots.items + 1 },
}

impl MemPages {
    /// No pages, and no header. It takes no memory.
    pub fn new(alloc: Global) -> MemPages
        ensures header { result.header ≡ Option.None }
        ensures kept_header { result.kept_header ≡ Option.None }
        ensures slots { result.slots.items ≡ [] }
    {
        MemPages {
            alloc,
            header: None,
            kept_header: None,
            slots: Vec::new(alloc),
        }
    }
}

impl Pages for MemPages {
    ghost use Rattle.std.specs.Prelude.{◌≡◌, length, ◌+◌};
    ghost use Rattle.std.specs.Coded.{Unit-prop};
    ghost use Rattle.mm_page.specs.Slots.{book_of, kept_of};
    ghost use Rattle.mm_page.specs.Facts.Shelves.{left-same, few-count};

    ghost Device = { Unit {0} };

    ghost over = { λ _. tt };

    ghost tells = { Unit {0} };

    ghost has_pages = { λ _. Unit {0} };

    ghost is_sound = { λ _. Unit {0} };

    ghost book = { λ p. book_of p.header p.slots.items };

    ghost count = { λ p. length p.slots.items + 1 };

    ghost kept = { λ p. kept_of p.kept_header p.slots.items };

    ghost batch = { λ _. 0 };

    ghost written = { λ _. record { pages = 0; journal = 0 } };

    ghost is_spent = { λ _. false };

    ghost fault_count = { λ _. 0 };

    ghost want_count = { λ _. 0 };

    ghost moment = { λ _. 0 };

    ghost left_since = { λ p t s. s ≡ kept_of p.kept_header p.slots.items };

    ghost sound_prop = { λ p. Unit-prop };

    ghost few_pages = { λ p sound. few-count p.slots.items p.few };

    ghost only_kept = { λ p s pages sound unspent left. left-same (kept_of p.kept_header p.slots.items) s left };

    ghost counts_now = { λ p t s pages le left. left };

    fn header(&mut self) -> Result<Option<Header>, Fault> {
        Ok(self.header)
    }

    fn count(&self) -> u64 {
        self.slots.len() as u64 + 1
    }

    fn set_header(&mut self, header: Header) -> Result<(), Fault> {
        self.header = Some(header);
        Ok(())
    }

    fn settle(&mut self, used: &[u64]) -> Result<(), Fault> {
        mark_used(&mut self.slots, used);
        Ok(())
    }

    fn page(&mut self, number: u64) -> Result<&Page, LendError> {
        Ok(&self.slots[number as usize - 1].page)
    }

    fn edit(&mut self, number: u64) -> Result<&mut Page, LendError> {
        let index = number as usize - 1;
        match set_apart(self.alloc, &mut self.slots, index) {
            Ok(()) => {}
            Err(_) => return Err(LendError::Memory),
        }
        Ok(&mut self.slots[index].page)
    }

    fn fresh(&mut self) -> Result<u64, Fault> {
        let page = match Page::empty(self.alloc) {
            Ok(page) => page,
            Err(_) => return Err(Fault::Memory),
        };
        if let Some(index) = free_slot(self.slots.as_slice()) {
            renew(&mut self.slots, index, page);
            return Ok(index as u64 + 1);
        }
        match add(&mut self.slots, page) {
            Ok(number) => Ok(number),
            Err(_) => Err(Fault::Memory),
        }
    }

    fn free(&mut self, number: u64) -> Result<(), Fault> {
        release(&mut self.slots, number as usize - 1);
        Ok(())
    }

    fn commit(&mut self) -> Result<(), Fault> {
        self.kept_header = self.header;
        keep_all(&mut self.slots);
        Ok(())
    }

    fn tick(&mut self, _pages: u32) -> Result<(), Fault> {
        Ok(())
    }

    fn is_spent(&self) -> bool {
        false
    }

    fn faults(&self) -> u64 {
        0
    }

    fn wants(&self) -> u64 {
        0
    }
}
