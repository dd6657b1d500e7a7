// The device calls of a journal.
ghost use Rattle.std.specs.Prelude.{◌≡◌, ◌≤◌, ◌<◌, ◌+◌, ◌^◌, ◌++◌, [], ◌∷◌, ℕ, List, length, OnOk};
ghost use Rattle.mm_host.specs.Causes.{HasFaultCause};
ghost use Rattle.mm_host.specs.Disk.{TornLeaves, after_write, after_sync};
ghost use Rattle.mm_host.specs.Moments.{LeavesOnly};
ghost use Rattle.mm_host.specs.declared.area.Area.TheVariants as area;
ghost use Rattle.mm_journal.specs.Settled.{Content, IsSealed, placed};
ghost use Rattle.mm_journal.specs.Inside.Bodies.{IsSettled, AddsOrNot};
ghost use Rattle.mm_journal.specs.declared.payload.Payload.{Payload};

use mm_host::{Area, Disk, Fault, fault_since};

const OPEN: u8 = 0xA5;

/// Writes bytes to area Journal, and makes sure of them.
pub(crate) fn write_synced<D: Disk>(disk: &mut D, at: u64, bytes: &[u8]) -> Result<(), Fault>
    ensures ok { D.tells → OnOk result ((D.state disk.new).journal ≡ after_sync (after_write (D.state disk.old).journal at bytes.now)) }
    ensures near { OnOk result (at + length bytes.now ≤ 2 ^ 62) }
    ensures pages { D.tells → (D.state disk.new).pages ≡ (D.state disk.old).pages }
    ensures reads { D.tells → (D.state disk.new).reads ≡ (D.state disk.old).reads }
    ensures counted { D.tells → (D.state disk.new).journal.written ≤ (D.state disk.old).journal.written + length bytes.now }
    ensures any_moment { D.tells → LeavesOnly D.moment D.left_since disk.old disk.new (TornLeaves (D.state disk.old) area.Journal at (length bytes.now)) }
    ensures cause { HasFaultCause (D.fault_count disk.old) (D.fault_count disk.new) (D.want_count disk.old) (D.want_count disk.new) result }
{
    let faults = disk.faults();
    match disk.write_at(Area::Journal, at, bytes) {
        Ok(()) => {}
        Err(_) => return Err(fault_since(disk, faults)),
    }
    match disk.sync(Area::Journal) {
        Ok(()) => Ok(()),
        Err(_) => Err(fault_since(disk, faults)),
    }
}

/// Writes a record behind the gate at a place, and then opens the gate.
pub(crate) fn write_record<D: Disk>(disk: &mut D, gate: u64, sealed: &[u8]) -> Result<(), Fault>
    requires { gate ≤ 2 ^ 62 }
    ensures settled { D.tells → (ps : List Payload) (c : Content) → IsSettled gate (D.state disk.old).journal ps → IsSealed sealed.now c
        → OnOk result (IsSettled (gate + length sealed.now) (D.state disk.new).journal (ps ++ placed gate c ∷ [])) }
    ensures near { OnOk result (gate + length sealed.now < 2 ^ 62) }
    ensures pages { D.tells → (D.state disk.new).pages ≡ (D.state disk.old).pages }
    ensures reads { D.tells → (D.state disk.new).reads ≡ (D.state disk.old).reads }
    ensures counted { D.tells → (D.state disk.new).journal.written ≤ (D.state disk.old).journal.written + (1 + length sealed.now) }
    ensures any_moment { D.tells → (ps : List Payload) (c : Content) → IsSettled gate (D.state disk.old).journal ps → IsSealed sealed.now c
        → LeavesOnly D.moment D.left_since disk.old disk.new (AddsOrNot (D.state disk.old) ps (placed gate c)) }
    ensures cause { HasFaultCause (D.fault_count disk.old) (D.fault_count disk.new) (D.want_count disk.old) (D.want_count disk.new) result }
{
    write_synced(disk, gate + 1, sealed)?;
    write_synced(disk, gate, &[OPEN])
}
