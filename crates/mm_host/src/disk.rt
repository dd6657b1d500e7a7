// The disk: two areas of bytes, and a clock.
ghost use Rattle.std.specs.Prelude.{◌≡◌, ◌≤◌, ◌<◌, ◌+◌, ◌^◌, ◌⊎◌, ℕ, length, take, drop, IfOk, OnOk, OnErr};
ghost use Rattle.mm_host.specs.Causes.{Rose, HasDiskCause};
ghost use Rattle.mm_host.specs.Moments.{Elapses};
ghost use Rattle.mm_host.specs.Disk.{DiskState, Image, MayLeave, IsCutShort, area_of, with_area, after_read, after_write, after_sync, image_now};

use crate::area::Area;
use crate::failed::Failed;

/// A disk with two areas of bytes. A call fails only where a count rose in it.
pub trait Disk {
    /// Whether the disk tells its bytes. Where it doesn't, no clause speaks of them.
    ghost tells: { Type 0 };

    /// Of each area what a read gives, what is stable, what is loose and how many bytes were written;
    /// and how many reads answered `Ok`.
    ghost state: { Self → DiskState };

    /// The moment, as a number that doesn't fall.
    ghost moment: { Self → ℕ };

    /// What a crash at some moment from that one on might have left, during a call or between two.
    ghost left_since: { Self → ℕ → Image → Type 0 };

    /// How often the disk has failed.
    ghost fault_count: { Self → ℕ };

    /// How often it has found no memory.
    ghost want_count: { Self → ℕ };

    /// How many bytes the area has.
    fn len(&mut self, area: Area) -> Result<u64, Failed>
        ensures len { tells → IfOk result (λ n. n ≡ length (area_of (state self.old) area).now) }
        ensures state { tells → state self.new ≡ state self.old }
        ensures time { tells → Elapses (moment self.old) (moment self.new) (left_since self.old) (left_since self.new) (MayLeave (state self.new)) }
        ensures cause { HasDiskCause (fault_count self.old) (fault_count self.new) (want_count self.old) (want_count self.new) result };

    /// Fills `into` with the bytes of the area from `at` on.
    fn read(&mut self, area: Area, at: u64, into: &mut [u8]) -> Result<(), Failed>
        requires within { tells → at + length into.old ≤ length (area_of (state self.old) area).now }
        ensures bytes { tells → OnOk result (into.new ≡ take (length into.old) (drop at (area_of (state self.old) area).now)) }
        ensures counted { tells → OnOk result (state self.new ≡ after_read (state self.old)) }
        ensures state { tells → OnErr result (state self.new ≡ state self.old) }
        ensures time { tells → Elapses (moment self.old) (moment self.new) (left_since self.old) (left_since self.new) (MayLeave (state self.new)) }
        ensures cause { HasDiskCause (fault_count self.old) (fault_count self.new) (want_count self.old) (want_count self.new) result };

    /// Puts bytes at a place of the area, and zero bytes before them where the place is past the end.
    /// A write that would end past 2^62 finds no memory.
    fn write_at(&mut self, area: Area, at: u64, bytes: &[u8]) -> Result<(), Failed>
        ensures written { tells → OnOk result (state self.new ≡ with_area (state self.old) area (after_write (area_of (state self.old) area) at bytes.now)) }
        // A failed write is cut short, or found no memory and changed nothing.
        ensures in_part { tells → OnErr result (IsCutShort area at (length bytes.now) (state self.old) (state self.new) ⊎ ((state self.new ≡ state self.old) × Rose (want_count self.old) (want_count self.new))) }
        ensures near { OnOk result (at + length bytes.now ≤ 2 ^ 62) }
        ensures too_far { tells → 2 ^ 62 < at + length bytes.now → (state self.new ≡ state self.old) × Rose (want_count self.old) (want_count self.new) }
        ensures too_far_faults { tells → 2 ^ 62 < at + length bytes.now → fault_count self.new ≡ fault_count self.old }
        ensures time { tells → Elapses (moment self.old) (moment self.new) (left_since self.old) (left_since self.new) (MayLeave (state self.new)) }
        ensures cause { HasDiskCause (fault_count self.old) (fault_count self.new) (want_count self.old) (want_count self.new) result };

    /// Makes sure of all that was written to the area.
    fn sync(&mut self, area: Area) -> Result<(), Failed>
        ensures durable { tells → OnOk result (state self.new ≡ with_area (state self.old) area (after_sync (area_of (state self.old) area))) }
        ensures state { tells → OnErr result (state self.new ≡ state self.old) }
        ensures time { tells → Elapses (moment self.old) (moment self.new) (left_since self.old) (left_since self.new) (MayLeave (state self.new)) }
        ensures cause { HasDiskCause (fault_count self.old) (fault_count self.new) (want_count self.old) (want_count self.new) result };

    /// How often the disk has found no memory.
    fn wants(&self) -> u64
        ensures { result ≡ want_count self.now };

    /// How often the disk has failed.
    fn faults(&self) -> u64
        ensures { result ≡ fault_count self.now };

    /// This moment is one of those since an earlier one.
    ghost counts_now: { (disk : Self) (t : ℕ) (i : Image) → tells → t ≤ moment disk → MayLeave (state disk) i → left_since disk t i };

    /// Since this moment there is no other.
    ghost only_now: { (disk : Self) (i : Image) → tells → left_since disk (moment disk) i → MayLeave (state disk) i };

    /// A crash may leave what a read gives.
    ghost now_counts: { (disk : Self) → tells → MayLeave (state disk) (image_now (state disk)) };
}
