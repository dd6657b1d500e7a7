// Opening: the state of a keeper, from the bytes of a disk.
ghost use Rattle.std.specs.Prelude.{◌≡◌, ◌≤◌, ◌+◌, ◌^◌, [], All, length, OnOk, IfOk, IfErr, false};
ghost use Rattle.mm_host.specs.Causes.{Rose};
ghost use Rattle.mm_host.specs.Disk.{MayLeave, image_now};
ghost use Rattle.mm_host.specs.Moments.{LeavesOnly};
ghost use Rattle.mm_keeper.specs.Entries.{IsSorted};
ghost use Rattle.mm_keeper.specs.Blocks.{joined};
ghost use Rattle.mm_journal.specs.Records.{sorts};
ghost use Rattle.mm_journal.specs.Records.Read.{Whole, Wrong};
ghost use Rattle.mm_journal.specs.Settled.{IsNear, MayAnswer};
ghost use Rattle.mm_logmap.specs.Log.{batches, map_of_records, log};
ghost use Rattle.mm_logmap.specs.Inside.Spelled.{HasFitKeys};
ghost use Rattle.mm_logmap.specs.Inside.Sound.{IsSoundAt};

use crate::batch::replay;
use mm_host::{Disk, Fault};
use mm_journal::{Journal, Payload, check_sorts};
use mm_keeper::SortedMap;
use std::alloc::Global;

const BATCH: u8 = 1;

// Makes the changes of all batches in a map, or answers the first damage of their bytes.
fn replay_all(found: &[Payload], map: &mut SortedMap) -> Result<(), Fault>
    requires { All IsNear found.now }
    ensures ok { OnOk result (batches found.now (joined map.old) ≡ Whole (joined map.new)) }
    ensures sorted { IsSorted (joined map.old) → IsSorted (joined map.new) }
    ensures fit { HasFitKeys (joined map.old) → HasFitKeys (joined map.new) }
    ensures err { IfErr result (MayAnswer ⊥ (λ damage. batches found.now (joined map.old) ≡ Wrong damage)) }
{
    'records: for record in found {
        match replay(record.at + 10, record.bytes.as_slice(), map) {
            Ok(()) => {}
            Err(fault) => return Err(fault),
        }
    }
    Ok(())
}

// The map of records, or the first damage: all sorts come before the first batch.
fn map_of(alloc: Global, found: &[Payload]) -> Result<SortedMap, Fault>
    requires { All IsNear found.now }
    ensures ok { IfOk result (λ map. map_of_records found.now ≡ Whole (joined map)) }
    ensures sorted { IfOk result (λ map. IsSorted (joined map)) }
    ensures fit { IfOk result (λ map. HasFitKeys (joined map)) }
    ensures err { IfErr result (MayAnswer ⊥ (λ damage. map_of_records found.now ≡ Wrong damage)) }
{
    match check_sorts(found, BATCH) {
        Ok(()) => {}
        Err(damage) => return Err(Fault::Damaged(damage)),
    }
    let mut map = SortedMap::new(alloc);
    match replay_all(found, &mut map) {
        Ok(()) => Ok(map),
        Err(fault) => Err(fault),
    }
}

/// A log keeper but for its disk: the map, and the bytes of the changes since the last commit.
#[derive(Drop)]
pub struct LogState {
    pub(crate) journal: Journal,
    pub(crate) map: SortedMap,
    pub(crate) staged: Vec<u8>,
    pub(crate) spent: bool,
    pub(crate) alloc: Global,
}

impl LogState {
    /// Reads a disk's log: the map for which its journal stands, or the first damage of the journal's bytes.
    /// It writes nothing.
    pub fn open<D: Disk>(alloc: Global, disk: &mut D) -> Result<LogState, Fault>
        ensures whole { D.tells → IfOk result (λ s. log (D.state disk.old).journal.now ≡ Whole (joined s.map)) }
        ensures sound { IfOk result (λ s. IsSoundAt D.tells s.spent s.journal (D.state disk.new).journal s.staged.items (joined s.map)) }
        ensures staged { IfOk result (λ s. s.staged.items ≡ []) }
        ensures unspent { IfOk result (λ s. s.spent ≡ false) }
        ensures same { D.tells → image_now (D.state disk.new) ≡ image_now (D.state disk.old) }
        ensures pages { D.tells → (D.state disk.new).pages ≡ (D.state disk.old).pages }
        ensures written { D.tells → (D.state disk.new).journal.written ≡ (D.state disk.old).journal.written }
        ensures any_moment { D.tells → LeavesOnly D.moment D.left_since disk.old disk.new (MayLeave (D.state disk.old)) }
        ensures faults { D.fault_count disk.old ≤ D.fault_count disk.new }
        ensures wants { D.want_count disk.old ≤ D.want_count disk.new }
        ensures cause { IfErr result (MayAnswer (Rose (D.fault_count disk.old) (D.fault_count disk.new)) (λ damage. D.tells → log (D.state disk.old).journal.now ≡ Wrong damage)) }
    {
        let (journal, found) = Journal::from_disk(alloc, disk)?;
        match map_of(alloc, found.as_slice()) {
            Ok(map) => Ok(LogState {
                journal,
                map,
                staged: Vec::new(alloc),
                spent: false,
                alloc,
            }),
            Err(fault) => Err(fault),
        }
    }
}
