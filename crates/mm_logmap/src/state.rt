// The calls of a keeper that change its state.
ghost use Rattle.std.specs.Prelude.{◌≡◌, ◌≤◌, ◌+◌, ◌++◌, [], ℕ, Some, None, ◌⊎◌, IfOk, IfErr, IsErrOf, OnOk, OnErr, false, true, length, if◌then◌else◌};
ghost use Rattle.mm_host.specs.Causes.{Rose, HasFaultCause};
ghost use Rattle.mm_host.specs.Disk.{Image, MayLeave};
ghost use Rattle.mm_host.specs.Moments.{LeavesOnly};
ghost use Rattle.mm_host.specs.declared.damage.Fault.TheVariants as fault;
ghost use Rattle.mm_keeper.specs.Entries.{IsSorted, has, put, without};
ghost use Rattle.mm_keeper.specs.Blocks.{joined};
ghost use Rattle.mm_journal.specs.Settled.{IsAt, MayAnswer};
ghost use Rattle.mm_logmap.specs.Batches.{encoded};
ghost use Rattle.mm_logmap.specs.Inside.Spelled.{HasFitKeys};
ghost use Rattle.mm_logmap.specs.Inside.Sound.{Adds, KeepsOrAdds};

use crate::batch::{put, remove, write_put, write_remove};
use crate::opening::LogState;
use mm_host::{Disk, Fault};
use mm_journal::{Journal, Sealed};
use std::alloc::AllocError;

const BATCH: u8 = 1;

// Adds a record, to a journal that may be unbegun.
fn add<D: Disk>(journal: &mut Journal, disk: &mut D, sealed: &Sealed) -> Result<(), Fault>
    requires unfailed { journal.old.has_failed ≡ false }
    requires place { D.tells → IsAt journal.old (D.state disk.old).journal }
    ensures at { D.tells → OnOk result (IsAt journal.new (D.state disk.new).journal) }
    ensures unfailed { OnOk result (journal.new.has_failed ≡ false) }
    ensures acknowledged { D.tells → OnOk result ((i : Image) → MayLeave (D.state disk.new) i → Adds (D.state disk.old) sealed.now i) }
    ensures any_moment { D.tells → LeavesOnly D.moment D.left_since disk.old disk.new (KeepsOrAdds (D.state disk.old) sealed.now) }
    ensures pages { D.tells → (D.state disk.new).pages ≡ (D.state disk.old).pages }
    ensures counted { D.tells → (D.state disk.new).journal.written ≤ (D.state disk.old).journal.written + (44 + length sealed.now.bytes) }
    ensures cause { HasFaultCause (D.fault_count disk.old) (D.fault_count disk.new) (D.want_count disk.old) (D.want_count disk.new) result }
{
    if journal.is_begun() {
        return journal.append(disk, sealed);
    }
    journal.begin(disk)?;
    journal.append(disk, sealed)
}

impl LogState {
    // Puts an entry, and stages the change. Without memory the state is spent.
    pub(crate) fn put(&mut self, key: &[u8], value: &[u8]) -> Result<(), AllocError>
        requires key { (1 ≤ length key.now) × (length key.now ≤ 800) }
        requires value { length value.now ≤ 1024 }
        ensures put { OnOk result (joined self.new.map ≡ put (joined self.old.map) key.now value.now) }
        ensures staged { OnOk result (self.new.staged.items ≡ self.old.staged.items ++ encoded key.now (Some value.now)) }
        ensures unstaged { OnErr result (self.new.staged.items ≡ []) }
        ensures spent { OnErr result (self.new.spent ≡ true) }
        ensures unspent { OnOk result (self.new.spent ≡ self.old.spent) }
        ensures journal { self.new.journal ≡ self.old.journal }
        ensures sorted { IsSorted (joined self.old.map) → IsSorted (joined self.new.map) }
        ensures fit { HasFitKeys (joined self.old.map) → HasFitKeys (joined self.new.map) }
    {
        match write_put(&mut self.staged, key, value) {
            Ok(()) => {}
            Err(error) => return Err(self.give_up(error)),
        }
        match put(&mut self.map, key, value) {
            Ok(()) => Ok(()),
            Err(error) => Err(self.give_up(error)),
        }
    }

    // Takes out an entry, and stages the change where the key was held. Without memory the state is spent.
    pub(crate) fn remove(&mut self, key: &[u8]) -> Result<bool, AllocError>
        requires { HasFitKeys (joined self.old.map) }
        ensures removed { OnOk result (joined self.new.map ≡ without (joined self.old.map) key.now) }
        ensures told { IfOk result (λ held. held ≡ has (joined self.old.map) key.now) }
        ensures staged { IfOk result (λ held. self.new.staged.items ≡ (if held then self.old.staged.items ++ encoded key.now None else self.old.staged.items)) }
        ensures unstaged { OnErr result (self.new.staged.items ≡ []) }
        ensures spent { OnErr result (self.new.spent ≡ true) }
        ensures unspent { OnOk result (self.new.spent ≡ self.old.spent) }
        ensures journal { self.new.journal ≡ self.old.journal }
        ensures sorted { IsSorted (joined self.new.map) }
        ensures fit { HasFitKeys (joined self.new.map) }
    {
        if !remove(&mut self.map, key) {
            return Ok(false);
        }
        match write_remove(&mut self.staged, key) {
            Ok(()) => Ok(true),
            Err(error) => Err(self.give_up(error)),
        }
    }

    // Leaves the state spent for want of memory.
    fn give_up(&mut self, error: AllocError) -> AllocError
        ensures spent { self.new.spent ≡ true }
        ensures staged { self.new.staged.items ≡ [] }
        ensures map { self.new.map ≡ self.old.map }
        ensures journal { self.new.journal ≡ self.old.journal }
    {
        self.staged.clear();
        self.spent = true;
        error
    }

    // Writes the staged changes as one record. Where that fails the state is spent.
    pub(crate) fn commit<D: Disk>(&mut self, disk: &mut D) -> Result<(), Fault>
        requires unfailed { self.old.journal.has_failed ≡ false }
        requires place { D.tells → IsAt self.old.journal (D.state disk.old).journal }
        ensures at { D.tells → OnOk result (IsAt self.new.journal (D.state disk.new).journal) }
        ensures unfailed { OnOk result (self.new.journal.has_failed ≡ false) }
        ensures acknowledged { D.tells → OnOk result ((i : Image) → MayLeave (D.state disk.new) i → Adds (D.state disk.old) (record { sort = 1; bytes = self.old.staged.items }) i) }
        ensures any_moment { D.tells → LeavesOnly D.moment D.left_since disk.old disk.new (KeepsOrAdds (D.state disk.old) (record { sort = 1; bytes = self.old.staged.items })) }
        ensures pages { D.tells → (D.state disk.new).pages ≡ (D.state disk.old).pages }
        ensures counted { D.tells → (D.state disk.new).journal.written ≤ (D.state disk.old).journal.written + (44 + length self.old.staged.items) }
        ensures map { self.new.map ≡ self.old.map }
        ensures cleared { OnOk result (self.new.staged.items ≡ []) }
        ensures staged { OnErr result (self.new.staged.items ≡ self.old.staged.items) }
        ensures unspent { OnOk result (self.new.spent ≡ false) }
        ensures spent { OnErr result (self.new.spent ≡ true) }
        ensures memory { D.tells → IsErrOf result fault.Memory → Rose (D.want_count disk.old) (D.want_count disk.new) ⊎ (D.state disk.new ≡ D.state disk.old) }
        ensures faults { D.fault_count disk.old ≤ D.fault_count disk.new }
        ensures wants { D.want_count disk.old ≤ D.want_count disk.new }
        ensures cause { IfErr result (MayAnswer (Rose (D.fault_count disk.old) (D.fault_count disk.new)) (λ _. ⊥)) }
    {
        self.spent = true;
        let sealed = match Sealed::new(self.alloc, BATCH, self.staged.as_slice()) {
            Ok(sealed) => sealed,
            Err(_) => return Err(Fault::Memory),
        };
        add(&mut self.journal, disk, &sealed)?;
        self.staged.clear();
        self.spent = false;
        Ok(())
    }
}
