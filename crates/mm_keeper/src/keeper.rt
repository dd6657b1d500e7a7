// The trait of whatever keeps ordered entries.
ghost use Rattle.std.specs.Prelude.{◌≡◌, ◌≤◌, ◌<◌, ◌+◌, ◌*◌, ◌^◌, ◌⊎◌, ◌↔◌, ℕ, Bool, true, false, ⊤, Some, length, option_map, slice_get, IfOk, IsErrOf, OnOk, OnErr};
ghost use Rattle.std.specs.declared.option.Option.{Option};
ghost use Rattle.std.specs.Borrow.{follows_so, sem};
ghost use mathlib.Core.Option.{none};
ghost use Rattle.mm_host.specs.Causes.{Rose};
ghost use Rattle.mm_host.specs.Moments.{LeavesOnly, LeavesAsBefore};
ghost use Rattle.mm_keeper.specs.Entries.{Entries, IsSorted, HasRoom, has, put, without, index_of, within, one_before, first_from, last_to, weight_of};
ghost use Rattle.mm_keeper.specs.Keeping.{Seen, Written, Keeps, WritesNothing, fault_of};
ghost use Rattle.mm_keeper.specs.Lending.{lend_fault_of};

use crate::entry::EntryRef;
use crate::lend_error::LendError;
use mm_host::Fault;
use mm_steps::Steps;
use std::sync::ledger::Ledger;

/// A sorted map from keys to values that can be committed. A crash leaves the map as of the last commit.
pub trait Keeper {
    /// Where an entry stands.
    type Spot: Copy;

    /// What names the disk below.
    ghost Device: { Type 0 };

    ghost over: { Self → Device };

    /// Whether the disk tells its bytes.
    ghost tells: { Type 0 };

    /// Whether the keeper has its two maps.
    ghost has_maps: { Self → Type 0 };

    /// What every call needs and keeps.
    ghost is_sound: { Self → Type 0 };

    /// It has one proof at most, so that what holds a keeper may keep it in a field.
    ghost sound_prop: { (k : Self) → IsProp (is_sound k) };

    /// The maps, and what the spots stand for.
    ghost seen: { Self → Seen Self.Spot };

    /// Whether an earlier call failed, so that each further one answers `Spent`.
    ghost is_spent: { Self → Bool };

    /// How often the disk has failed.
    ghost fault_count: { Self → ℕ };

    /// How often the disk has found no memory.
    ghost want_count: { Self → ℕ };

    /// The moment, as a number that doesn't fall.
    ghost moment: { Self → ℕ };

    /// The maps that a crash at some moment from that one on might have left; `None` where the bytes left stand for no map.
    ghost left_since: { Self → ℕ → Option Entries → Type 0 };

    /// How many bytes were written to each area.
    ghost written: { Self → Written };

    /// How many puts and removes there were since the last commit, at most.
    ghost changes: { Self → ℕ };

    /// The lengths of all keys and values together.
    fn weight(&self) -> u64
        requires { is_sound self.now }
        ensures { has_maps self.now → result ≡ weight_of (seen self.now).now };

    /// The entry of the key.
    fn get<L: Ledger>(
        &mut self,
        key: &[u8],
        steps: &mut Steps<L>,
    ) -> Result<Option<Self::Spot>, Fault>
        requires { is_sound self.old }
        ensures found { has_maps self.old → IfOk result (λ s. option_map (seen self.old).place s ≡ index_of (seen self.old).now key.now) }
        ensures same { has_maps self.old → seen self.new ≡ seen self.old }
        ensures quiet { tells → WritesNothing written changes 0 self.old self.new }
        ensures any_moment { has_maps self.old → LeavesAsBefore moment left_since self.old self.new }
        ensures keeps { Keeps over has_maps is_sound is_spent fault_count want_count false self.old self.new (fault_of result) }
        ensures step { steps.new ≡ steps.old + 1 };

    /// The first entry at or above the key.
    fn up<L: Ledger>(
        &mut self,
        key: &[u8],
        steps: &mut Steps<L>,
    ) -> Result<Option<Self::Spot>, Fault>
        requires { is_sound self.old }
        ensures found { has_maps self.old → IfOk result (λ s. option_map (seen self.old).place s ≡ first_from (seen self.old).now key.now) }
        ensures same { has_maps self.old → seen self.new ≡ seen self.old }
        ensures quiet { tells → WritesNothing written changes 0 self.old self.new }
        ensures any_moment { has_maps self.old → LeavesAsBefore moment left_since self.old self.new }
        ensures keeps { Keeps over has_maps is_sound is_spent fault_count want_count false self.old self.new (fault_of result) }
        ensures step { steps.new ≡ steps.old + 1 };

    /// The last entry at or below the key.
    fn down<L: Ledger>(
        &mut self,
        key: &[u8],
        steps: &mut Steps<L>,
    ) -> Result<Option<Self::Spot>, Fault>
        requires { is_sound self.old }
        ensures found { has_maps self.old → IfOk result (λ s. option_map (seen self.old).place s ≡ last_to (seen self.old).now key.now) }
        ensures same { has_maps self.old → seen self.new ≡ seen self.old }
        ensures quiet { tells → WritesNothing written changes 0 self.old self.new }
        ensures any_moment { has_maps self.old → LeavesAsBefore moment left_since self.old self.new }
        ensures keeps { Keeps over has_maps is_sound is_spent fault_count want_count false self.old self.new (fault_of result) }
        ensures step { steps.new ≡ steps.old + 1 };

    /// The entry after this one.
    fn after<L: Ledger>(
        &mut self,
        spot: Self::Spot,
        steps: &mut Steps<L>,
    ) -> Result<Option<Self::Spot>, Fault>
        requires sound { is_sound self.old }
        requires stands { has_maps self.old → (seen self.old).place spot < length (seen self.old).now }
        ensures found { has_maps self.old → IfOk result (λ s. option_map (seen self.old).place s ≡ within (seen self.old).now ((seen self.old).place spot + 1)) }
        ensures same { has_maps self.old → seen self.new ≡ seen self.old }
        ensures quiet { tells → WritesNothing written changes 0 self.old self.new }
        ensures any_moment { has_maps self.old → LeavesAsBefore moment left_since self.old self.new }
        ensures keeps { Keeps over has_maps is_sound is_spent fault_count want_count false self.old self.new (fault_of result) }
        ensures step { steps.new ≡ steps.old + 1 };

    /// The entry before this one.
    fn before<L: Ledger>(
        &mut self,
        spot: Self::Spot,
        steps: &mut Steps<L>,
    ) -> Result<Option<Self::Spot>, Fault>
        requires sound { is_sound self.old }
        requires stands { has_maps self.old → (seen self.old).place spot < length (seen self.old).now }
        ensures found { has_maps self.old → IfOk result (λ s. option_map (seen self.old).place s ≡ one_before ((seen self.old).place spot)) }
        ensures same { has_maps self.old → seen self.new ≡ seen self.old }
        ensures quiet { tells → WritesNothing written changes 0 self.old self.new }
        ensures any_moment { has_maps self.old → LeavesAsBefore moment left_since self.old self.new }
        ensures keeps { Keeps over has_maps is_sound is_spent fault_count want_count false self.old self.new (fault_of result) }
        ensures step { steps.new ≡ steps.old + 1 };

    /// Lends the key and the value of an entry. It takes no step.
    fn entry(&mut self, spot: Self::Spot) -> Result<EntryRef<'_>, LendError>
        requires sound { is_sound self.old }
        requires stands { has_maps self.old → (seen self.old).place spot < length (seen self.old).now }
        ensures* rests { sem 𝓛 (follows_so Self.row Self.row self.entry.ghost_name none (λ _ _. ⊤)
            (λ n. (has_maps self.old → seen n ≡ seen self.old)
            × (tells → WritesNothing written changes 0 self.old n)
            × (has_maps self.old → LeavesAsBefore moment left_since self.old n)
            × Keeps over has_maps is_sound is_spent fault_count want_count false self.old n (lend_fault_of result))) }
        ensures lent { has_maps self.old → IfOk result (λ e. slice_get (seen self.old).now ((seen self.old).place spot) ≡ Some (e.key.now, e.value.now)) };

    /// Puts an entry. A spot from before stands for nothing any more.
    fn put<L: Ledger>(
        &mut self,
        key: &[u8],
        value: &[u8],
        steps: &mut Steps<L>,
    ) -> Result<(), Fault>
        requires sound { is_sound self.old }
        requires key { (1 ≤ length key.now) × (length key.now ≤ 800) }
        requires value { length value.now ≤ 1024 }
        requires room { has_maps self.old → HasRoom (seen self.old).now key.now value.now }
        ensures put { has_maps self.old → OnOk result ((seen self.new).now ≡ put (seen self.old).now key.now value.now) }
        ensures kept { has_maps self.old → (seen self.new).kept ≡ (seen self.old).kept }
        ensures quiet { tells → WritesNothing written changes 1 self.old self.new }
        ensures any_moment { has_maps self.old → is_spent self.old ≡ false → LeavesOnly moment left_since self.old self.new (λ m. m ≡ Some (seen self.old).kept) }
        ensures keeps { Keeps over has_maps is_sound is_spent fault_count want_count true self.old self.new (fault_of result) }
        ensures step { steps.new ≡ steps.old + 1 };

    /// Takes out the entry of the key, and answers whether there was one. A spot from before stands for nothing any more.
    fn remove<L: Ledger>(&mut self, key: &[u8], steps: &mut Steps<L>) -> Result<bool, Fault>
        requires { is_sound self.old }
        ensures removed { has_maps self.old → OnOk result ((seen self.new).now ≡ without (seen self.old).now key.now) }
        ensures told { has_maps self.old → IfOk result (λ held. held ≡ has (seen self.old).now key.now) }
        ensures kept { has_maps self.old → (seen self.new).kept ≡ (seen self.old).kept }
        ensures quiet { tells → WritesNothing written changes 1 self.old self.new }
        ensures any_moment { has_maps self.old → is_spent self.old ≡ false → LeavesOnly moment left_since self.old self.new (λ m. m ≡ Some (seen self.old).kept) }
        ensures keeps { Keeps over has_maps is_sound is_spent fault_count want_count true self.old self.new (fault_of result) }
        ensures step { steps.new ≡ steps.old + 1 };

    /// Makes what is kept what is now. A crash leaves the one or the other at each moment in it, and after `Ok` the latter.
    fn commit(&mut self) -> Result<(), Fault>
        requires { is_sound self.old }
        ensures kept { has_maps self.old → OnOk result ((seen self.new).kept ≡ (seen self.old).now) }
        ensures now { has_maps self.old → (seen self.new).now ≡ (seen self.old).now }
        ensures places { has_maps self.old → (seen self.new).place ≡ (seen self.old).place }
        ensures any_moment { has_maps self.old → is_spent self.old ≡ false → LeavesOnly moment left_since self.old self.new (λ m. (m ≡ Some (seen self.old).kept) ⊎ (m ≡ Some (seen self.old).now)) }
        ensures journal { tells → (written self.new).journal < (written self.old).journal + 4200 * (8 * changes self.old + 2) }
        ensures changes { tells → changes self.new ≤ changes self.old }
        ensures none_left { tells → OnOk result (changes self.new ≡ 0) }
        ensures memory { tells → IsErrOf result Fault.Memory → Rose (want_count self.old) (want_count self.new) ⊎ (written self.new ≡ written self.old) }
        ensures keeps { Keeps over has_maps is_sound is_spent fault_count want_count true self.old self.new (fault_of result) };

    /// Does the checkpoint work of at most so many pages. It takes no memory.
    fn tick(&mut self, pages: u32) -> Result<(), Fault>
        requires { is_sound self.old }
        ensures same { has_maps self.old → seen self.new ≡ seen self.old }
        ensures any_moment { has_maps self.old → is_spent self.old ≡ false → LeavesOnly moment left_since self.old self.new (λ m. m ≡ Some (seen self.old).kept) }
        ensures pages { tells → (written self.new).pages ≤ (written self.old).pages + 4096 * pages }
        ensures journal { tells → (written self.new).journal ≤ (written self.old).journal + 1 }
        ensures changes { tells → changes self.new ≤ changes self.old }
        ensures causes { OnErr result (Rose (fault_count self.old) (fault_count self.new) ⊎ Rose (want_count self.old) (want_count self.new) ⊎ (is_spent self.old ≡ true)) }
        ensures memory { IsErrOf result Fault.Memory → Rose (want_count self.old) (want_count self.new) }
        ensures keeps { Keeps over has_maps is_sound is_spent fault_count want_count true self.old self.new (fault_of result) };

    /// How often the disk below has failed; without a disk, how often the keeper has.
    fn faults(&self) -> u64
        ensures { result ≡ fault_count self.now };

    /// How often the disk below has found no memory; without a disk 0.
    fn wants(&self) -> u64
        ensures { result ≡ want_count self.now };

    /// A keeper's map is sorted.
    ghost sorted: { (k : Self) → is_sound k → has_maps k → IsSorted (seen k).now };

    /// While it isn't spent, a crash leaves what was kept.
    ghost only_kept: { (k : Self) (m : Option Entries) → has_maps k → is_sound k → is_spent k ≡ false → left_since k (moment k) m → m ≡ Some (seen k).kept };

    /// This moment is one of those since an earlier one.
    ghost counts_now: { (k : Self) (t : ℕ) (m : Option Entries) → has_maps k → t ≤ moment k → left_since k (moment k) m → left_since k t m };
}
