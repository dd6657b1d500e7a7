// The trait of whatever keeps numbered pages.
ghost use Rattle.std.specs.Prelude.{◌≡◌, ◌≤◌, ◌<◌, ◌+◌, ◌*◌, ◌^◌, ◌==◌, ◌⊎◌, ℕ, List, Bool, [], true, false, ⊤, Option, Some, None, option_map, IfOk, IsErrOf, OnOk, OnErr};
ghost use Rattle.std.specs.List.{list_any};
ghost use Rattle.std.specs.Borrow.{LendsSoOk, follows_so, sem};
ghost use mathlib.Core.Option.{none};
ghost use Rattle.mm_host.specs.Causes.{Rose};
ghost use Rattle.mm_host.specs.Moments.{LeavesOnly};
ghost use Rattle.mm_host.specs.declared.damage.Damage.{Damage};
ghost use Rattle.mm_keeper.specs.Keeping.{Written, Keeps, fault_of};
ghost use Rattle.mm_keeper.specs.Lending.{lend_fault_of};
ghost use Rattle.mm_page.specs.Header.{header_of, header_bytes, pages_in};
ghost use Rattle.mm_page.specs.Leaf.{IsLeaf, entries_of, next_of};
ghost use Rattle.mm_page.specs.Paging.{Shelf, Book, Rests, IsLeft, ChangesOnly, in_use, page_damage, head_damage, but_damage};

use crate::header::Header;
use crate::page::Page;
use mm_host::Fault;
use mm_keeper::LendError;

/// Numbered pages, of which one at a time is lent. Page 0 is the header, each other a leaf. What was changed since the
/// last commit is a batch, and a crash leaves the pages as of the last commit.
pub trait Pages {
    ghost use Rattle.mm_page.specs.contracts.page.Page.{the_row};

    /// What names the disk below.
    ghost Device: { Type 0 };

    ghost over: { Self → Device };

    /// Whether the disk tells its bytes, or there is none.
    ghost tells: { Type 0 };

    /// Whether the pages are known.
    ghost has_pages: { Self → Type 0 };

    /// What every call needs and keeps.
    ghost is_sound: { Self → Type 0 };

    /// The pages now.
    ghost book: { Self → Book };

    /// The number of pages, page 0 included.
    ghost count: { Self → ℕ };

    /// The pages as of the last commit.
    ghost kept: { Self → Shelf };

    /// The number of pages that a commit now would write, at most.
    ghost batch: { Self → ℕ };

    /// How many bytes were written to each area.
    ghost written: { Self → Written };

    /// Whether an earlier call failed, so that each further one answers `Spent`.
    ghost is_spent: { Self → Bool };

    /// How often the disk has failed.
    ghost fault_count: { Self → ℕ };

    /// How often the disk has found no memory.
    ghost want_count: { Self → ℕ };

    /// The moment, as a number that doesn't fall.
    ghost moment: { Self → ℕ };

    /// The pages that a crash at some moment from that one on might have left.
    ghost left_since: { Self → ℕ → Shelf → Type 0 };

    /// The header, `None` where none was ever set.
    fn header(&mut self) -> Result<Option<Header>, Fault>
        requires { is_sound self.old }
        ensures header { has_pages self.old → IfOk result (λ h. h ≡ option_map header_of (book self.old).shelf.head) }
        ensures counted { IfOk result (λ h. pages_in h ≤ count self.old) }
        ensures right { has_pages self.old → OnOk result (head_damage (book self.old).shelf.head ≡ None) }
        ensures damage { has_pages self.old → (d : Damage) → fault_of result ≡ Some (Fault.Damaged d) → head_damage (book self.old).shelf.head ≡ Some (Fault.Damaged d) }
        ensures same { (has_pages self.old → book self.new ≡ book self.old) × (count self.new ≡ count self.old) }
        ensures rests { Rests tells has_pages kept written batch moment left_since 0 self.old self.new }
        ensures keeps { Keeps over has_pages is_sound is_spent fault_count want_count false self.old self.new (but_damage (fault_of result)) };

    /// The number of pages, page 0 included.
    fn count(&self) -> u64
        requires { is_sound self.now }
        ensures { result ≡ count self.now };

    /// Sets the header.
    fn set_header(&mut self, header: Header) -> Result<(), Fault>
        requires sound { is_sound self.old }
        requires pages { header.pages ≡ count self.old }
        requires first { (1 ≤ header.first) × (header.first < count self.old) }
        ensures header { has_pages self.old → OnOk result ((book self.new).shelf.head ≡ Some (header_bytes header)) }
        ensures failed { has_pages self.old → OnErr result ((book self.new).shelf.head ≡ (book self.old).shelf.head) }
        ensures same { has_pages self.old → ((book self.new).shelf.page ≡ (book self.old).shelf.page) × ((book self.new).used ≡ (book self.old).used) }
        ensures count { count self.new ≡ count self.old }
        ensures rests { Rests tells has_pages kept written batch moment left_since 1 self.old self.new }
        ensures keeps { Keeps over has_pages is_sound is_spent fault_count want_count false self.old self.new (fault_of result) };

    /// Makes every page free whose number isn't among these.
    fn settle(&mut self, used: &[u64]) -> Result<(), Fault>
        requires { is_sound self.old }
        ensures used { has_pages self.old → OnOk result ((n : ℕ) → 1 ≤ n → n < count self.old → (book self.new).used n ≡ list_any (λ m. m == n) used.now) }
        ensures same { has_pages self.old → (book self.new).shelf ≡ (book self.old).shelf }
        ensures count { count self.new ≡ count self.old }
        ensures rests { Rests tells has_pages kept written batch moment left_since 0 self.old self.new }
        ensures keeps { Keeps over has_pages is_sound is_spent fault_count want_count false self.old self.new (fault_of result) };

    /// Lends the leaf in a page.
    fn page(&mut self, number: u64) -> Result<&Page, LendError>
        requires sound { is_sound self.old }
        requires number { (1 ≤ number) × (number < count self.old) }
        ensures* rests { sem 𝓛 (follows_so Self.row Self.row self.entry.ghost_name none (λ _ _. ⊤)
            (λ n. (has_pages self.old → book n ≡ book self.old) × (count n ≡ count self.old)
            × Rests tells has_pages kept written batch moment left_since 0 self.old n
            × Keeps over has_pages is_sound is_spent fault_count want_count false self.old n (but_damage (lend_fault_of result)))) }
        ensures lent { has_pages self.old → IfOk result (λ p. p.now ≡ (book self.old).shelf.page number) }
        ensures damage { has_pages self.old → (d : Damage) → lend_fault_of result ≡ Some (Fault.Damaged d) → page_damage number ((book self.old).shelf.page number) ≡ Some (Fault.Damaged d) };

    /// Lends the leaf in a page for writing.
    fn edit(&mut self, number: u64) -> Result<&mut Page, LendError>
        requires sound { is_sound self.old }
        requires number { (1 ≤ number) × (number < count self.old) }
        ensures* rests { sem 𝓛 (LendsSoOk Self.row the_row self.entry result
            (λ n w. (has_pages self.old → ChangesOnly number (book self.old) (book n) × ((book n).shelf.page number ≡ w) × ((book n).used number ≡ (book self.old).used number))
            × (count n ≡ count self.old)
            × Rests tells has_pages kept written batch moment left_since 1 self.old n
            × Keeps over has_pages is_sound is_spent fault_count want_count false self.old n (but_damage (lend_fault_of result)))
            (λ n. (has_pages self.old → book n ≡ book self.old) × (count n ≡ count self.old)
            × Rests tells has_pages kept written batch moment left_since 1 self.old n
            × Keeps over has_pages is_sound is_spent fault_count want_count false self.old n (but_damage (lend_fault_of result)))) }
        ensures lent { has_pages self.old → IfOk result (λ p. p.now ≡ (book self.old).shelf.page number) }
        ensures damage { has_pages self.old → (d : Damage) → lend_fault_of result ≡ Some (Fault.Damaged d) → page_damage number ((book self.old).shelf.page number) ≡ Some (Fault.Damaged d) };

    /// The number of a page that was free, or is new, and holds an empty leaf now. It is in use from here on.
    fn fresh(&mut self) -> Result<u64, Fault>
        requires { is_sound self.old }
        ensures range { IfOk result (λ n. (1 ≤ n) × (n < count self.new)) }
        ensures count { count self.old ≤ count self.new }
        ensures changes { has_pages self.old → IfOk result (λ n. ChangesOnly n (book self.old) (book self.new)) }
        ensures free { has_pages self.old → IfOk result (λ n. (book self.old).used n ≡ false) }
        ensures used { has_pages self.old → IfOk result (λ n. (book self.new).used n ≡ true) }
        ensures leaf { has_pages self.old → IfOk result (λ n. IsLeaf ((book self.new).shelf.page n)) }
        ensures empty { has_pages self.old → IfOk result (λ n. (entries_of ((book self.new).shelf.page n) ≡ []) × (next_of ((book self.new).shelf.page n) ≡ 0)) }
        ensures failed { OnErr result ((has_pages self.old → book self.new ≡ book self.old) × (count self.new ≡ count self.old)) }
        ensures rests { Rests tells has_pages kept written batch moment left_since 1 self.old self.new }
        ensures keeps { Keeps over has_pages is_sound is_spent fault_count want_count false self.old self.new (fault_of result) };

    /// Gives a page back.
    fn free(&mut self, number: u64) -> Result<(), Fault>
        requires sound { is_sound self.old }
        requires number { (1 ≤ number) × (number < count self.old) }
        ensures changes { has_pages self.old → OnOk result (ChangesOnly number (book self.old) (book self.new)) }
        ensures free { has_pages self.old → OnOk result ((book self.new).used number ≡ false) }
        ensures failed { has_pages self.old → OnErr result (book self.new ≡ book self.old) }
        ensures count { count self.new ≡ count self.old }
        ensures rests { Rests tells has_pages kept written batch moment left_since 0 self.old self.new }
        ensures keeps { Keeps over has_pages is_sound is_spent fault_count want_count false self.old self.new (fault_of result) };

    /// Keeps the pages in use as they are now. A crash leaves these or what was kept before at each moment in it, and after `Ok` these.
    fn commit(&mut self) -> Result<(), Fault>
        requires sound { is_sound self.old }
        // The first commit writes page 0, or nothing.
        requires first { has_pages self.old → (kept self.old).head ≡ None → (book self.old).shelf.head ≡ None → batch self.old ≡ 0 }
        ensures kept { has_pages self.old → OnOk result (IsLeft (in_use (book self.old)) (kept self.new)) }
        ensures same { (has_pages self.old → book self.new ≡ book self.old) × (count self.new ≡ count self.old) }
        ensures empty { tells → OnOk result (batch self.new ≡ 0) }
        ensures batch { tells → batch self.new ≤ batch self.old }
        ensures journal { tells → (written self.new).journal ≤ (written self.old).journal + (4104 * batch self.old + 46) }
        ensures memory { tells → IsErrOf result Fault.Memory → Rose (want_count self.old) (want_count self.new) ⊎ (written self.new ≡ written self.old) }
        ensures any_moment { has_pages self.old → is_spent self.old ≡ false → LeavesOnly moment left_since self.old self.new (λ s. IsLeft (kept self.old) s ⊎ IsLeft (in_use (book self.old)) s) }
        ensures keeps { Keeps over has_pages is_sound is_spent fault_count want_count true self.old self.new (fault_of result) };

    /// Does the checkpoint work of at most so many pages. It takes no memory.
    fn tick(&mut self, pages: u32) -> Result<(), Fault>
        requires { is_sound self.old }
        ensures same { (has_pages self.old → book self.new ≡ book self.old) × (count self.new ≡ count self.old) }
        ensures kept { has_pages self.old → IsLeft (kept self.old) (kept self.new) }
        ensures batch { tells → batch self.new ≤ batch self.old }
        ensures pages { tells → (written self.new).pages ≤ (written self.old).pages + 4096 * pages }
        ensures journal { tells → (written self.new).journal ≤ (written self.old).journal + 1 }
        ensures any_moment { has_pages self.old → is_spent self.old ≡ false → LeavesOnly moment left_since self.old self.new (IsLeft (kept self.old)) }
        ensures causes { OnErr result (Rose (fault_count self.old) (fault_count self.new) ⊎ Rose (want_count self.old) (want_count self.new) ⊎ (is_spent self.old ≡ true)) }
        ensures memory { IsErrOf result Fault.Memory → Rose (want_count self.old) (want_count self.new) }
        ensures keeps { Keeps over has_pages is_sound is_spent fault_count want_count true self.old self.new (fault_of result) };

    /// Whether an earlier call failed, after which each further one answers `Spent`.
    fn is_spent(&self) -> bool
        ensures { result ≡ is_spent self.now };

    /// How often the disk below has failed; without a disk 0.
    fn faults(&self) -> u64
        ensures { result ≡ fault_count self.now };

    /// How often the disk below has found no memory; without a disk 0.
    fn wants(&self) -> u64
        ensures { result ≡ want_count self.now };

    /// What every call needs has one proof at most.
    ghost sound_prop: { (p : Self) → IsProp (is_sound p) };

    /// There are at most 2^43 pages.
    ghost few_pages: { (p : Self) → is_sound p → (1 ≤ count p) × (count p ≤ 2 ^ 43) };

    /// While they aren't spent, a crash leaves what was kept.
    ghost only_kept: { (p : Self) (s : Shelf) → has_pages p → is_sound p → is_spent p ≡ false → left_since p (moment p) s → IsLeft (kept p) s };

    /// This moment is one of those since an earlier one.
    ghost counts_now: { (p : Self) (t : ℕ) (s : Shelf) → has_pages p → t ≤ moment p → left_since p (moment p) s → left_since p t s };
}
