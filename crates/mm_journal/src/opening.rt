// Reading a disk's journal.
ghost use Rattle.std.specs.Prelude.{◌≡◌, ◌≤◌, ◌<◌, ◌^◌, length, OnOk, IfOk, IfErr};
ghost use Rattle.mm_host.specs.Causes.{Rose};
ghost use Rattle.mm_host.specs.Disk.{MayLeave, IsSynced, image_now};
ghost use Rattle.mm_host.specs.Moments.{LeavesOnly};
ghost use Rattle.mm_journal.specs.Settled.{MayAnswer};

use mm_host::{Area, Disk, Fault, fault_since};
use std::alloc::Global;

/// Syncs area Journal, and reads all of it.
pub(crate) fn read_area<D: Disk>(alloc: Global, disk: &mut D) -> Result<Vec<u8>, Fault>
    ensures bytes { D.tells → IfOk result (λ v. v.items ≡ (D.state disk.old).journal.now) }
    ensures near { IfOk result (λ v. length v.items < 2 ^ 62) }
    ensures synced { D.tells → OnOk result (IsSynced (D.state disk.new).journal) }
    ensures same { D.tells → image_now (D.state disk.new) ≡ image_now (D.state disk.old) }
    ensures pages { D.tells → (D.state disk.new).pages ≡ (D.state disk.old).pages }
    ensures written { D.tells → (D.state disk.new).journal.written ≡ (D.state disk.old).journal.written }
    ensures any_moment { D.tells → LeavesOnly D.moment D.left_since disk.old disk.new (MayLeave (D.state disk.old)) }
    ensures faults { D.fault_count disk.old ≤ D.fault_count disk.new }
    ensures wants { D.want_count disk.old ≤ D.want_count disk.new }
    ensures cause { IfErr result (MayAnswer (Rose (D.fault_count disk.old) (D.fault_count disk.new)) (λ damage. ⊥)) }
{
    let faults = disk.faults();
    match disk.sync(Area::Journal) {
        Ok(()) => {}
        Err(_) => return Err(fault_since(disk, faults)),
    }
    let size = match disk.len(Area::Journal) {
        Ok(size) => size,
        Err(_) => return Err(fault_since(disk, faults)),
    };
    if size >= 1 << 62 {
        return Err(Fault::Memory);
    }
    let mut bytes = vec![in alloc; 0u8; size as usize]?;
    match disk.read(Area::Journal, 0, &mut bytes) {
        Ok(()) => Ok(bytes),
        Err(_) => Err(fault_since(disk, faults)),
    }
}
