// A keeper in memory.
ghost use Rattle.std.specs.Prelude.{◌≡◌, ◌≤◌, [], false, true, option_map, if◌then◌else◌, IfOk, OnOk};
ghost use Rattle.mm_host.specs.Causes.{next_count};
ghost use Rattle.mm_keeper.specs.Entries.{IsSorted, HasRoom, has, put, without};
ghost use Rattle.mm_keeper.specs.Blocks.{joined};
ghost use Rattle.mm_keeper.specs.Failing.{FailsAsListed};
ghost use Rattle.mm_keeper.specs.Inside.Olds.{before_all};

use crate::entry::{EntryRef, Item, Key, Value};
use crate::keeper::Keeper;
use crate::lend_error::LendError;
use crate::sorted_map::SortedMap;
use crate::spot::Spot;
use mm_host::Fault;
use mm_steps::Steps;
use smallvec::SmallVec;
use std::alloc::AllocError;
use std::marker::Model;
use std::sync::ledger::Ledger;

// A key, and the value that it had before a change.
#[derive(Drop)]
struct Old {
    key: Key,
    value: Option<Value>,
}

impl Model for Old {
    ghost use Rattle.std.specs.Prelude.{List, ℕ, option_map};
    ghost use Rattle.std.specs.declared.option.Option.{Option};

    ghost Value = { List ℕ × Option (List ℕ) };

    ghost view = { λ old. (old.key.items, option_map (λ v. v.items) old.value) };
}

impl Old {
    fn new(key: Key, before: Option<Item>) -> Old
        ensures { result ≡ (key.items, option_map (λ e. e.1) before) }
    {
        match before {
            Some(item) => {
                let (_, value) = item.into_parts();
                Old {
                    key,
                    value: Some(value),
                }
            }
            None => Old { key, value: None },
        }
    }
}

// Puts an entry, and notes what was there. All memory is taken before.
fn put_noted(
    map: &mut SortedMap,
    olds: &mut Vec<Old>,
    key: &[u8],
    value: &[u8],
) -> Result<(), AllocError>
    requires sorted { IsSorted (joined map.old) }
    requires room { HasRoom (joined map.old) key.now value.now }
    ensures ok { OnOk result (joined map.new ≡ put (joined map.old) key.now value.now) }
    ensures sorted { IsSorted (joined map.new) }
    ensures kept { before_all (joined map.new) olds.new.items ≡ before_all (joined map.old) olds.old.items }
{
    let copy = SmallVec::from_slice(*olds.allocator(), key)?;
    olds.reserve(1)?;
    match map.put(key, value) {
        Ok(before) => {
            olds.push_reserved(Old::new(copy, before));
            Ok(())
        }
        Err(error) => Err(error),
    }
}

// Takes out the entry of a key, and notes what was there.
fn remove_noted(map: &mut SortedMap, olds: &mut Vec<Old>, key: &[u8]) -> Result<bool, AllocError>
    requires { IsSorted (joined map.old) }
    ensures removed { OnOk result (joined map.new ≡ without (joined map.old) key.now) }
    ensures told { IfOk result (λ held. held ≡ has (joined map.old) key.now) }
    ensures sorted { IsSorted (joined map.new) }
    ensures kept { before_all (joined map.new) olds.new.items ≡ before_all (joined map.old) olds.old.items }
{
    let copy = SmallVec::from_slice(*olds.allocator(), key)?;
    olds.reserve(1)?;
    match map.remove(key) {
        Some(before) => {
            olds.push_reserved(Old::new(copy, Some(before)));
            Ok(true)
        }
        None => Ok(false),
    }
}

/// A keeper in memory, which fails at the calls of a list, counted from 1. It holds the entries, and the old ones
/// of the keys that changed since the last commit.
#[derive(Drop)]
pub struct VecKeeper {
    map: SortedMap,
    olds: Vec<Old>,
    failing: Vec<u64>,
    calls: u64,
    faults: u64,
    spent: bool,
}

impl VecKeeper {
    /// A keeper without entries, which fails at these calls. It takes no memory.
    pub fn new(failing: Vec<u64>) -> VecKeeper
        ensures sorted { IsSorted (joined result.map) }
        ensures listed { FailsAsListed result.failing.items result.faults }
        ensures now { joined result.map ≡ [] }
        ensures kept { result.olds.items ≡ [] }
        ensures failing { result.failing.items ≡ failing.items }
        ensures calls { result.calls ≡ 0 }
        ensures faults { result.faults ≡ 0 }
        ensures spent { result.spent ≡ false }
    {
        let alloc = *failing.allocator();
        VecKeeper {
            map: SortedMap::new(alloc),
            olds: Vec::new(alloc),
            failing,
            calls: 0,
            faults: 0,
            spent: false,
        }
    }

    // Counts a call, which fails where it is listed.
    fn fails(&mut self) -> bool
        ensures map { self.new.map ≡ self.old.map }
        ensures olds { self.new.olds ≡ self.old.olds }
        ensures spent { self.new.spent ≡ (if result then true else self.old.spent) }
        ensures faults { self.new.faults ≡ (if result then next_count self.old.faults else self.old.faults) }
        ensures later { self.old.faults ≤ self.new.faults }
        ensures failing { self.new.failing.items ≡ self.old.failing.items }
        ensures listed { FailsAsListed self.old.failing.items self.old.faults → FailsAsListed self.new.failing.items self.new.faults }
    {
        self.calls = self.calls.saturating_add(1);
        let listed = self.failing.contains(&self.calls);
        if listed {
            self.faults = self.faults.saturating_add(1);
        }
        self.spent = self.spent || listed;
        listed
    }
}

impl Keeper for VecKeeper {
    type Spot = Spot;

    ghost use Rattle.std.specs.Prelude.{◌≡◌, Some};
    ghost use Rattle.mm_keeper.specs.Entries.{IsSorted};
    ghost use Rattle.mm_keeper.specs.Blocks.{joined};
    ghost use Rattle.mm_keeper.specs.Places.{place_of};
    ghost use Rattle.mm_keeper.specs.Keeping.{Seen, Written};
    ghost use Rattle.mm_keeper.specs.Failing.{FailsAsListed};
    ghost use Rattle.mm_keeper.specs.Facts.Sorting.{FailsAsListed-prop, IsSorted-prop};
    ghost use Rattle.std.specs.Prelude.{List, ℕ};
    ghost use Rattle.std.specs.Coded.{×_prop};
    ghost use Rattle.mm_keeper.specs.Inside.Olds.{before_all};

    ghost Device = { List ℕ };

    ghost over = { λ k. k.failing.items };

    ghost tells = { Unit {0} };

    ghost has_maps = { λ _. Unit {0} };

    ghost is_sound = { λ k. IsSorted (joined k.map) × FailsAsListed k.failing.items k.faults };

    ghost seen = { λ k. record { now = joined k.map; kept = before_all (joined k.map) k.olds.items; place = λ s. place_of k.map s } };

    ghost is_spent = { λ k. k.spent };

    ghost fault_count = { λ k. k.faults };

    ghost want_count = { λ _. 0 };

    ghost moment = { λ _. 0 };

    ghost left_since = { λ k t m. m ≡ Some (before_all (joined k.map) k.olds.items) };

    ghost written = { λ _. record { pages = 0; journal = 0 } };

    ghost changes = { λ _. 0 };

    ghost sound_prop = { λ k. ×_prop (IsSorted-prop (joined k.map)) (FailsAsListed-prop k.failing.items k.faults) };

    ghost sorted = { λ k sound maps. sound.0 };

    ghost only_kept = { λ k m maps sound unspent left. left };

    ghost counts_now = { λ k t m maps le left. left };

    fn weight(&self) -> u64 {
        self.map.weight()
    }

    fn get<L: Ledger>(&mut self, key: &[u8], steps: &mut Steps<L>) -> Result<Option<Spot>, Fault> {
        steps.tick();
        if self.spent {
            return Err(Fault::Spent);
        }
        if self.fails() {
            return Err(Fault::DiskFault);
        }
        Ok(self.map.get(key))
    }

    fn up<L: Ledger>(&mut self, key: &[u8], steps: &mut Steps<L>) -> Result<Option<Spot>, Fault> {
        steps.tick();
        if self.spent {
            return Err(Fault::Spent);
        }
        if self.fails() {
            return Err(Fault::DiskFault);
        }
        Ok(self.map.up(key))
    }

    fn down<L: Ledger>(&mut self, key: &[u8], steps: &mut Steps<L>) -> Result<Option<Spot>, Fault> {
        steps.tick();
        if self.spent {
            return Err(Fault::Spent);
        }
        if self.fails() {
            return Err(Fault::DiskFault);
        }
        Ok(self.map.down(key))
    }

    fn after<L: Ledger>(
        &mut self,
        spot: Spot,
        steps: &mut Steps<L>,
    ) -> Result<Option<Spot>, Fault> {
        steps.tick();
        if self.spent {
            return Err(Fault::Spent);
        }
        if self.fails() {
            return Err(Fault::DiskFault);
        }
        Ok(self.map.after(spot))
    }

    fn before<L: Ledger>(
        &mut self,
        spot: Spot,
        steps: &mut Steps<L>,
    ) -> Result<Option<Spot>, Fault> {
        steps.tick();
        if self.spent {
            return Err(Fault::Spent);
        }
        if self.fails() {
            return Err(Fault::DiskFault);
        }
        Ok(self.map.before(spot))
    }

    fn entry(&mut self, spot: Spot) -> Result<EntryRef<'_>, LendError> {
        if self.spent {
            return Err(LendError::Spent);
        }
        if self.fails() {
            return Err(LendError::DiskFault);
        }
        Ok(self.map.entry(spot))
    }

    fn put<L: Ledger>(
        &mut self,
        key: &[u8],
        value: &[u8],
        steps: &mut Steps<L>,
    ) -> Result<(), Fault> {
        steps.tick();
        if self.spent {
            return Err(Fault::Spent);
        }
        if self.fails() {
            return Err(Fault::DiskFault);
        }
        match put_noted(&mut self.map, &mut self.olds, key, value) {
            Ok(()) => Ok(()),
            Err(_) => {
                self.spent = true;
                Err(Fault::Memory)
            }
        }
    }

    fn remove<L: Ledger>(&mut self, key: &[u8], steps: &mut Steps<L>) -> Result<bool, Fault> {
        steps.tick();
        if self.spent {
            return Err(Fault::Spent);
        }
        if self.fails() {
            return Err(Fault::DiskFault);
        }
        match remove_noted(&mut self.map, &mut self.olds, key) {
            Ok(held) => Ok(held),
            Err(_) => {
                self.spent = true;
                Err(Fault::Memory)
            }
        }
    }

    fn commit(&mut self) -> Result<(), Fault> {
        if self.spent {
            return Err(Fault::Spent);
        }
        if self.fails() {
            return Err(Fault::DiskFault);
        }
        self.olds.clear();
        Ok(())
    }

    fn tick(&mut self, _pages: u32) -> Result<(), Fault> {
        if self.spent {
            return Err(Fault::Spent);
        }
        if self.fails() {
            return Err(Fault::DiskFault);
        }
        Ok(())
    }

    fn faults(&self) -> u64 {
        self.faults
    }

    fn wants(&self) -> u64 {
        0
    }
}
