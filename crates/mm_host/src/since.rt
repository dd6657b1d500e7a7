// Why a call over a disk failed.
ghost use Rattle.std.specs.Prelude.{◌≡◌, ◌⊎◌};
ghost use Rattle.mm_host.specs.Causes.{Rose};
ghost use Rattle.mm_host.specs.declared.damage.Fault.TheVariants as fault;

use crate::damage::Fault;
use crate::disk::Disk;

/// The fault of a call in which the disk failed, by the disk's count of faults before it: `DiskFault`
/// where the count rose, and else `Memory`.
pub fn fault_since<D: Disk>(disk: &D, before: u64) -> Fault
    ensures disk_fault { result ≡ fault.DiskFault → Rose before (D.fault_count disk.now) }
    ensures memory { result ≡ fault.Memory → Rose before (D.fault_count disk.now) → ⊥ }
    ensures cases { (result ≡ fault.DiskFault) ⊎ (result ≡ fault.Memory) }
{
    let after = disk.faults();
    if before < after || after == u64::MAX {
        Fault::DiskFault
    } else {
        Fault::Memory
    }
}
