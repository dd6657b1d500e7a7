// The journal, and the calls that open it and write it.
ghost use Rattle.std.specs.Prelude.{◌≡◌, ◌≤◌, ◌<◌, ◌+◌, ◌^◌, ◌↔◌, [], ◌∷◌, ℕ, All, length, nat_lt, true, false, IfOk, IfErr, OnOk, OnErr, IsTrue};
ghost use Rattle.mm_host.specs.Causes.{Rose, HasFaultCause};
ghost use Rattle.mm_host.specs.Disk.{Image, MayLeave, image_now};
ghost use Rattle.mm_host.specs.Moments.{LeavesOnly};
ghost use Rattle.mm_journal.specs.Records.{records, with_record};
ghost use Rattle.mm_journal.specs.Records.Read.{Whole, Wrong};
ghost use Rattle.mm_journal.specs.Settled.{JournalState, IsAt, IsNear, AppendLeaves, ResetLeaves, NoneLeft, MayAnswer, placed};

use crate::opening::read_area;
use crate::payload::Payload;
use crate::reading::read_records;
use crate::sealed::Sealed;
use crate::writing::{write_record, write_synced};
use mm_host::{Disk, Fault};
use std::alloc::Global;
use std::marker::Model;

const CLOSED: u8 = 0;

/// The place of the next gate in area Journal, whether it was written, and whether a call of the journal failed.
#[derive(Debug, Drop)]
pub struct Journal {
    gate: u64,
    is_begun: bool,
    has_failed: bool,
}

impl Model for Journal {
    ghost Value = { JournalState };

    ghost view = { λ j. record { gate = j.gate; is_begun = j.is_begun; has_failed = j.has_failed } };

    ghost invariant = { λ j. j.gate ≤ 2 ^ 62 };
}

impl Journal {
    /// Opens the journal of a disk: the first damage of area Journal, or its records in order.
    /// Writes nothing. An area of 2^62 bytes and more is `Memory`.
    pub fn from_disk<D: Disk>(alloc: Global, disk: &mut D) -> Result<(Journal, Vec<Payload>), Fault>
        ensures records { D.tells → IfOk result (λ o. records (D.state disk.old).journal.now ≡ Whole o.1.items) }
        ensures near { IfOk result (λ o. All IsNear o.1.items) }
        ensures at { D.tells → IfOk result (λ o. IsAt o.0 (D.state disk.new).journal) }
        ensures begun { D.tells → IfOk result (λ o. o.0.is_begun ≡ nat_lt 1 (length (D.state disk.old).journal.now)) }
        ensures unfailed { IfOk result (λ o. o.0.has_failed ≡ false) }
        ensures same { D.tells → image_now (D.state disk.new) ≡ image_now (D.state disk.old) }
        ensures pages { D.tells → (D.state disk.new).pages ≡ (D.state disk.old).pages }
        ensures written { D.tells → (D.state disk.new).journal.written ≡ (D.state disk.old).journal.written }
        ensures any_moment { D.tells → LeavesOnly D.moment D.left_since disk.old disk.new (MayLeave (D.state disk.old)) }
        ensures faults { D.fault_count disk.old ≤ D.fault_count disk.new }
        ensures wants { D.want_count disk.old ≤ D.want_count disk.new }
        ensures cause { IfErr result (MayAnswer (Rose (D.fault_count disk.old) (D.fault_count disk.new)) (λ damage. D.tells → records (D.state disk.old).journal.now ≡ Wrong damage)) }
    {
        let bytes = read_area(alloc, disk)?;
        if bytes.len() <= 1 {
            let blank = Journal {
                gate: 0,
                is_begun: false,
                has_failed: false,
            };
            return Ok((blank, Vec::new(alloc)));
        }
        let (gate, found) = read_records(alloc, &bytes)?;
        let journal = Journal {
            gate,
            is_begun: true,
            has_failed: false,
        };
        Ok((journal, found))
    }

    /// Whether the first gate was written.
    pub fn is_begun(&self) -> bool
        ensures { result ≡ self.now.is_begun }
    {
        self.is_begun
    }

    /// The place of the next gate.
    pub fn gate(&self) -> u64
        ensures gate { result ≡ self.now.gate }
        ensures near { result ≤ 2 ^ 62 }
    {
        self.gate
    }

    /// Whether the journal holds a record.
    pub fn has_record(&self) -> bool
        ensures { result ≡ nat_lt 0 self.now.gate }
    {
        self.gate > 0
    }

    /// Writes the first gate, which is closed. Two calls of the disk.
    pub fn begin<D: Disk>(&mut self, disk: &mut D) -> Result<(), Fault>
        requires unbegun { self.old.is_begun ≡ false }
        requires unfailed { self.old.has_failed ≡ false }
        requires place { D.tells → IsAt self.old (D.state disk.old).journal }
        ensures at { D.tells → OnOk result (IsAt self.new (D.state disk.new).journal) }
        ensures none { D.tells → OnOk result ((i : Image) → MayLeave (D.state disk.new) i → records i.journal ≡ Whole []) }
        ensures any_moment { D.tells → LeavesOnly D.moment D.left_since disk.old disk.new (NoneLeft (D.state disk.old)) }
        ensures pages { D.tells → (D.state disk.new).pages ≡ (D.state disk.old).pages }
        ensures reads { D.tells → (D.state disk.new).reads ≡ (D.state disk.old).reads }
        ensures counted { D.tells → (D.state disk.new).journal.written ≤ (D.state disk.old).journal.written + 1 }
        ensures ok { OnOk result (self.new ≡ record { gate = 0; is_begun = true; has_failed = false }) }
        ensures err { OnErr result (self.new ≡ record self.old { has_failed = true }) }
        ensures cause { HasFaultCause (D.fault_count disk.old) (D.fault_count disk.new) (D.want_count disk.old) (D.want_count disk.new) result }
    {
        self.has_failed = true;
        write_synced(disk, 0, &[CLOSED])?;
        self.gate = 0;
        self.is_begun = true;
        self.has_failed = false;
        Ok(())
    }

    /// Adds a record. Four calls of the disk; after `Ok` a crash leaves the record. It takes no memory.
    pub fn append<D: Disk>(&mut self, disk: &mut D, sealed: &Sealed) -> Result<(), Fault>
        requires begun { self.old.is_begun ≡ true }
        requires unfailed { self.old.has_failed ≡ false }
        requires place { D.tells → IsAt self.old (D.state disk.old).journal }
        ensures at { D.tells → OnOk result (IsAt self.new (D.state disk.new).journal) }
        ensures acknowledged { D.tells → OnOk result ((i : Image) → MayLeave (D.state disk.new) i → records i.journal ≡ with_record (records (D.state disk.old).journal.now) (placed self.old.gate sealed.now)) }
        ensures any_moment { D.tells → LeavesOnly D.moment D.left_since disk.old disk.new (AppendLeaves (D.state disk.old) (placed self.old.gate sealed.now)) }
        ensures pages { D.tells → (D.state disk.new).pages ≡ (D.state disk.old).pages }
        ensures reads { D.tells → (D.state disk.new).reads ≡ (D.state disk.old).reads }
        ensures counted { D.tells → (D.state disk.new).journal.written ≤ (D.state disk.old).journal.written + (43 + length sealed.now.bytes) }
        ensures ok { OnOk result (self.new ≡ record { gate = self.old.gate + (42 + length sealed.now.bytes); is_begun = true; has_failed = false }) }
        ensures err { OnErr result (self.new ≡ record self.old { has_failed = true }) }
        ensures cause { HasFaultCause (D.fault_count disk.old) (D.fault_count disk.new) (D.want_count disk.old) (D.want_count disk.new) result }
    {
        self.has_failed = true;
        let bytes = sealed.bytes();
        write_record(disk, self.gate, bytes)?;
        self.gate += bytes.len() as u64;
        self.has_failed = false;
        Ok(())
    }

    /// Closes the first gate, which is open, so that there are no records. Two calls of the disk, and no memory.
    pub fn reset<D: Disk>(&mut self, disk: &mut D) -> Result<(), Fault>
        requires begun { self.old.is_begun ≡ true }
        requires unfailed { self.old.has_failed ≡ false }
        requires holds_a_record { 0 < self.old.gate }
        requires place { D.tells → IsAt self.old (D.state disk.old).journal }
        ensures at { D.tells → OnOk result (IsAt self.new (D.state disk.new).journal) }
        ensures none { D.tells → OnOk result ((i : Image) → MayLeave (D.state disk.new) i → records i.journal ≡ Whole []) }
        ensures any_moment { D.tells → LeavesOnly D.moment D.left_since disk.old disk.new (ResetLeaves (D.state disk.old)) }
        ensures pages { D.tells → (D.state disk.new).pages ≡ (D.state disk.old).pages }
        ensures reads { D.tells → (D.state disk.new).reads ≡ (D.state disk.old).reads }
        ensures counted { D.tells → (D.state disk.new).journal.written ≤ (D.state disk.old).journal.written + 1 }
        ensures ok { OnOk result (self.new ≡ record { gate = 0; is_begun = true; has_failed = false }) }
        ensures err { OnErr result (self.new ≡ record self.old { has_failed = true }) }
        ensures cause { HasFaultCause (D.fault_count disk.old) (D.fault_count disk.new) (D.want_count disk.old) (D.want_count disk.new) result }
    {
        self.has_failed = true;
        write_synced(disk, 0, &[CLOSED])?;
        self.gate = 0;
        self.has_failed = false;
        Ok(())
    }
}
