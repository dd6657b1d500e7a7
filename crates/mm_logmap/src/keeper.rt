// The keeper.
ghost use Rattle.std.specs.Prelude.{◌≡◌, [], IfOk, IfErr, false};
ghost use Rattle.mm_host.specs.Disk.{MayLeave, image_now};
ghost use Rattle.mm_host.specs.Moments.{LeavesOnly};
ghost use Rattle.mm_keeper.specs.Blocks.{joined};
ghost use Rattle.mm_journal.specs.Records.Read.{Whole, Wrong};
ghost use Rattle.mm_journal.specs.Settled.{MayAnswer};
ghost use Rattle.mm_logmap.specs.Log.{log};
ghost use Rattle.mm_logmap.specs.Inside.Sound.{IsSoundAt};

use crate::opening::LogState;
use mm_host::{Disk, Fault};
use mm_keeper::{EntryRef, Keeper, LendError, Spot};
use mm_steps::Steps;
use std::alloc::Global;
use std::sync::ledger::Ledger;

/// A keeper over a disk that is lent to it. The map is in memory; a commit adds the changes since the last one
/// to the journal, as one record. It has no checkpoint work.
#[derive(Drop)]
pub struct LogKeeper<'d, D: Disk> {
    disk: &'d mut D,
    state: LogState,
}

impl<'d, D: Disk> LogKeeper<'d, D> {
    /// The keeper of a state and of the disk that it was opened from.
    pub fn over(disk: &'d mut D, state: LogState) -> LogKeeper<'d, D>
        ensures device { result.disk.ghost_name ≡ disk.entry.ghost_name }
        ensures disk { result.disk.now ≡ disk.old }
        ensures state { result.state ≡ state }
    {
        LogKeeper { disk, state }
    }

    /// Opens the log of a disk: the keeper of the map for which its journal stands, or the first damage of the
    /// journal's bytes. `LogState::open` and `over` do the same, and leave the disk known where that fails.
    pub fn from_disk(alloc: Global, disk: &'d mut D) -> Result<LogKeeper<'d, D>, Fault>
        ensures sound { IfOk result (λ k. IsSoundAt D.tells k.state.spent k.state.journal (D.state k.disk.now).journal k.state.staged.items (joined k.state.map)) }
        ensures whole { D.tells → IfOk result (λ k. log (D.state disk.old).journal.now ≡ Whole (joined k.state.map)) }
        ensures staged { IfOk result (λ k. k.state.staged.items ≡ []) }
        ensures unspent { IfOk result (λ k. k.state.spent ≡ false) }
        ensures device { IfOk result (λ k. k.disk.ghost_name ≡ disk.entry.ghost_name) }
        ensures same { D.tells → IfOk result (λ k. image_now (D.state k.disk.now) ≡ image_now (D.state disk.old)) }
        ensures any_moment { D.tells → IfOk result (λ k. LeavesOnly D.moment D.left_since disk.old k.disk.now (MayLeave (D.state disk.old))) }
        ensures cause { IfErr result (MayAnswer (Unit {0}) (λ damage. D.tells → log (D.state disk.old).journal.now ≡ Wrong damage)) }
    {
        match LogState::open(alloc, disk) {
            Ok(state) => Ok(LogKeeper::over(disk, state)),
            Err(fault) => Err(fault),
        }
    }

    /// Gives the disk back.
    pub fn into_disk(self) -> &'d mut D
        ensures device { result.ghost_name ≡ self.entry.disk.ghost_name }
        ensures disk { result.now ≡ self.entry.disk.now }
    {
        let LogKeeper {
            disk,
            state: _state,
        } = self;
        disk
    }
}

impl<'d, D: Disk> Keeper for LogKeeper<'d, D> {
    type Spot = Spot;

    ghost use Rattle.std.specs.Prelude.{ℕ, ◌≡◌, length};
    ghost use Rattle.std.specs.Borrow.{GName};
    ghost use Rattle.mm_keeper.specs.Blocks.{joined};
    ghost use Rattle.mm_keeper.specs.Places.{place_of};
    ghost use Rattle.mm_keeper.specs.Keeping.{Seen, Written};
    ghost use Rattle.mm_logmap.specs.Log.{kept_in, MapsSince};
    ghost use Rattle.mm_logmap.specs.Inside.Sound.{IsSoundAt, changes_in};
    ghost use Rattle.mm_logmap.specs.Facts.Sound.{IsSoundAt-prop, only-kept, counts-now};

    ghost Device = { GName };

    ghost over = { λ k. k.disk.ghost_name };

    ghost tells = { D.tells };

    ghost has_maps = { λ _. D.tells };

    ghost is_sound = { λ k. IsSoundAt D.tells k.state.spent k.state.journal (D.state k.disk.now).journal k.state.staged.items (joined k.state.map) };

    ghost seen = { λ k. record { now = joined k.state.map; kept = kept_in (D.state k.disk.now).journal.now; place = λ s. place_of k.state.map s } };

    ghost is_spent = { λ k. k.state.spent };

    ghost fault_count = { λ k. D.fault_count k.disk.now };

    ghost want_count = { λ k. D.want_count k.disk.now };

    ghost moment = { λ k. D.moment k.disk.now };

    ghost left_since = { λ k t m. MapsSince D.left_since k.disk.now t m };

    ghost written = { λ k. record { pages = (D.state k.disk.now).pages.written; journal = (D.state k.disk.now).journal.written } };

    ghost changes = { λ k. changes_in (length k.state.staged.items) };

    ghost sound_prop = { λ k. IsSoundAt-prop D.tells k.state.spent k.state.journal (D.state k.disk.now).journal k.state.staged.items (joined k.state.map) };

    ghost sorted = { λ k sound maps. sound.0.0 };

    ghost only_kept = { λ k m told sound unspent left. only-kept D.moment D.left_since k.disk.now (D.state k.disk.now) k.state.journal k.state.staged.items (joined k.state.map) m (λ i h. D.only_now k.disk.now i told h) (sound.1.1 told unspent) left };

    ghost counts_now = { λ k t m told le left. counts-now D.moment D.left_since k.disk.now (D.state k.disk.now) t m (λ i h. D.only_now k.disk.now i told h) (λ i may. D.counts_now k.disk.now t i told le may) left };

    fn weight(&self) -> u64 {
        self.state.map.weight()
    }

    fn get<L: Ledger>(&mut self, key: &[u8], steps: &mut Steps<L>) -> Result<Option<Spot>, Fault> {
        steps.tick();
        if self.state.spent {
            return Err(Fault::Spent);
        }
        Ok(self.state.map.get(key))
    }

    fn up<L: Ledger>(&mut self, key: &[u8], steps: &mut Steps<L>) -> Result<Option<Spot>, Fault> {
        steps.tick();
        if self.state.spent {
            return Err(Fault::Spent);
        }
        Ok(self.state.map.up(key))
    }

    fn down<L: Ledger>(&mut self, key: &[u8], steps: &mut Steps<L>) -> Result<Option<Spot>, Fault> {
        steps.tick();
        if self.state.spent {
            return Err(Fault::Spent);
        }
        Ok(self.state.map.down(key))
    }

    fn after<L: Ledger>(
        &mut self,
        spot: Spot,
        steps: &mut Steps<L>,
    ) -> Result<Option<Spot>, Fault> {
        steps.tick();
        if self.state.spent {
            return Err(Fault::Spent);
        }
        if !self.state.map.stands(spot) {
            return Ok(None);
        }
        Ok(self.state.map.after(spot))
    }

    fn before<L: Ledger>(
        &mut self,
        spot: Spot,
        steps: &mut Steps<L>,
    ) -> Result<Option<Spot>, Fault> {
        steps.tick();
        if self.state.spent {
            return Err(Fault::Spent);
        }
        if !self.state.map.stands(spot) {
            return Ok(None);
        }
        Ok(self.state.map.before(spot))
    }

    fn entry(&mut self, spot: Spot) -> Result<EntryRef<'_>, LendError> {
        if self.state.spent {
            return Err(LendError::Spent);
        }
        if !self.state.map.stands(spot) {
            return Err(LendError::Memory);
        }
        Ok(self.state.map.entry(spot))
    }

    fn put<L: Ledger>(
        &mut self,
        key: &[u8],
        value: &[u8],
        steps: &mut Steps<L>,
    ) -> Result<(), Fault> {
        steps.tick();
        if self.state.spent {
            return Err(Fault::Spent);
        }
        match self.state.put(key, value) {
            Ok(()) => Ok(()),
            Err(_) => Err(Fault::Memory),
        }
    }

    fn remove<L: Ledger>(&mut self, key: &[u8], steps: &mut Steps<L>) -> Result<bool, Fault> {
        steps.tick();
        if self.state.spent {
            return Err(Fault::Spent);
        }
        match self.state.remove(key) {
            Ok(held) => Ok(held),
            Err(_) => Err(Fault::Memory),
        }
    }

    fn commit(&mut self) -> Result<(), Fault> {
        if self.state.spent {
            return Err(Fault::Spent);
        }
        match self.state.commit(self.disk) {
            Ok(()) => Ok(()),
            Err(fault) => Err(fault),
        }
    }

    fn tick(&mut self, _pages: u32) -> Result<(), Fault> {
        if self.state.spent {
            return Err(Fault::Spent);
        }
        Ok(())
    }

    fn faults(&self) -> u64 {
        self.disk.faults()
    }

    fn wants(&self) -> u64 {
        self.disk.wants()
    }
}
