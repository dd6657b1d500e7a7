// A disk in memory.
ghost use Rattle.std.specs.Prelude.{◌≡◌, ◌≤◌, ◌<◌, ◌+◌, ◌^◌, ◌⊎◌, ◌↔◌, ℕ, [], true, false, None, length, take, drop, IfOk, OnOk, OnErr, IsTrue};
ghost use Rattle.mm_host.specs.Causes.{Rose, HasDiskCause, next_count};
ghost use Rattle.mm_host.specs.Moments.{Elapses};
ghost use Rattle.mm_host.specs.Disk.{DiskState, MayLeave, IsCutShort, area_of, with_area, image_now, after_read, after_write, after_sync};
ghost use Rattle.mm_host.specs.MemoryDisk.{Past, MemDiskState, state_of, after_call, until, LeftSince, IsFrom, IsDue, after_want, Goes, bytes_in, IsLeft};
ghost use Rattle.mm_host.specs.declared.call.Call.TheVariants.{Other, Read, Write, Sync};

use crate::area::Area;
use crate::call::Call;
use crate::disk::Disk;
use crate::failed::Failed;
use crate::history::History;
use crate::pick::Pick;
use std::alloc::AllocError;
use std::marker::Model;

// No write ends further out.
const FURTHEST: u64 = 1 << 62;

/// A disk in memory, which fails at the calls of a list, counted from 1, and from one call on at all. It
/// keeps its calls, so that it can tell what a crash after any of them leaves. A call that finds no
/// memory isn't counted among them.
#[derive(Drop)]
pub struct MemDisk {
    history: History,
    failing: Vec<u64>,
    failing_from: Option<u64>,
    faults: u64,
    wants: u64,
}

impl Model for MemDisk {
    ghost Value = { MemDiskState };

    ghost view = { λ d. record { past = d.history; failing = d.failing.items; failing_from = d.failing_from; faults = d.faults; wants = d.wants } };
}

// Copies bytes from a place on.
fn copy_out(bytes: &[u8], at: u64, into: &mut [u8])
    requires { at + length into.old ≤ length bytes.now }
    ensures { into.new ≡ take (length into.old) (drop at bytes.now) }
{
    let count = into.len();
    into.copy_from_slice(&bytes[at as usize..][..count]);
}

fn is_from(first: Option<u64>, number: u64) -> bool
    ensures { IsTrue result ↔ IsFrom first number }
{
    match first {
        Some(first) => first <= number,
        None => false,
    }
}

impl MemDisk {
    /// A disk of these bytes, all of them stable. It takes no memory.
    pub fn new(
        pages: Vec<u8>,
        journal: Vec<u8>,
        failing: Vec<u64>,
        failing_from: Option<u64>,
    ) -> MemDisk
        ensures made { result.past.made ≡ record { pages = pages.items; journal = journal.items } }
        ensures calls { result.past.calls ≡ [] }
        ensures failing { result.failing ≡ failing.items }
        ensures failing_from { result.failing_from ≡ failing_from }
        ensures faults { result.faults ≡ 0 }
        ensures wants { result.wants ≡ 0 }
    {
        MemDisk {
            history: History::new(*failing.allocator(), pages, journal),
            failing,
            failing_from,
            faults: 0,
            wants: 0,
        }
    }

    /// What a read of the area gives.
    pub fn bytes(&self, area: Area) -> &[u8]
        ensures { result.now ≡ (area_of (state_of self.now.past) area).now }
    {
        self.history.bytes(area)
    }

    /// How many calls there were, but for those that found no memory.
    pub fn calls(&self) -> u64
        ensures { result ≡ length self.now.past.calls }
    {
        self.history.len() as u64
    }

    /// A disk as a crash after so many calls leaves this one, by the pick. None of its calls fails.
    pub fn crash(&self, after_call: u64, pick: Pick) -> Result<MemDisk, AllocError>
        requires { after_call ≤ length self.now.past.calls }
        ensures left { IfOk result (λ disk. (area : Area) → IsLeft pick (until after_call self.now.past) area (bytes_in disk.past.made area)) }
        ensures may_be { IfOk result (λ disk. MayLeave (state_of (until after_call self.now.past)) disk.past.made) }
        ensures calls { IfOk result (λ disk. disk.past.calls ≡ []) }
        ensures failing { IfOk result (λ disk. disk.failing ≡ []) }
        ensures failing_from { IfOk result (λ disk. disk.failing_from ≡ None) }
        ensures faults { IfOk result (λ disk. disk.faults ≡ 0) }
        ensures wants { IfOk result (λ disk. disk.wants ≡ 0) }
    {
        let count = after_call as usize;
        let pages = self.history.left(count, pick, Area::Pages)?;
        let journal = self.history.left(count, pick, Area::Journal)?;
        let alloc = *self.failing.allocator();
        Ok(MemDisk::new(pages, journal, Vec::new(alloc), None))
    }

    // Whether the next call is due to fail.
    fn is_due(&self) -> bool
        ensures { IsTrue result ↔ IsDue self.now }
    {
        let number = (self.history.len() as u64).saturating_add(1);
        self.failing.contains(&number) || is_from(self.failing_from, number)
    }

    fn fault(&mut self) -> Failed
        ensures state { self.new ≡ record self.old { faults = next_count self.old.faults } }
        ensures later { self.old.faults ≤ self.new.faults }
    {
        self.faults = self.faults.saturating_add(1);
        Failed
    }

    fn want(&mut self) -> Failed
        ensures state { self.new ≡ after_want self.old }
        ensures later { self.old.wants ≤ self.new.wants }
    {
        self.wants = self.wants.saturating_add(1);
        Failed
    }

    // Does a call that puts no bytes.
    fn pass(&mut self, call: Call) -> Result<(), Failed>
        requires { (s : DiskState) → image_now (after_call s call) ≡ image_now s }
        ensures goes { Goes self.old self.new call Other result }
        ensures faults { self.old.faults ≤ self.new.faults }
        ensures wants { self.old.wants ≤ self.new.wants }
    {
        if self.is_due() {
            return match self.history.note(Call::Other) {
                Ok(()) => Err(self.fault()),
                Err(_) => Err(self.want()),
            };
        }
        match self.history.note(call) {
            Ok(()) => Ok(()),
            Err(_) => Err(self.want()),
        }
    }

    // Does a write.
    fn put(&mut self, area: Area, at: u64, bytes: &[u8]) -> Result<(), Failed>
        ensures goes { Goes self.old self.new (Write area at bytes.now false) (Write area at bytes.now true) result }
        ensures faults { self.old.faults ≤ self.new.faults }
        ensures wants { self.old.wants ≤ self.new.wants }
    {
        if self.is_due() {
            return match self.history.write(area, at, bytes, true) {
                Ok(()) => Err(self.fault()),
                Err(_) => Err(self.want()),
            };
        }
        match self.history.write(area, at, bytes, false) {
            Ok(()) => Ok(()),
            Err(_) => Err(self.want()),
        }
    }
}

impl Disk for MemDisk {
    ghost use Rattle.mm_host.specs.Facts.Replay.{left-counts, left-only, now-left};

    ghost tells = { Unit {0} };

    ghost state = { λ d. state_of d.past };

    ghost moment = { λ d. length d.past.calls };

    ghost left_since = { λ d t i. LeftSince d.past t i };

    ghost fault_count = { λ d. d.faults };

    ghost want_count = { λ d. d.wants };

    ghost counts_now = { λ d t i told le may. left-counts d.past t i le may };

    ghost only_now = { λ d i told left. left-only d.past i left };

    ghost now_counts = { λ d told. now-left d.past };

    fn len(&mut self, area: Area) -> Result<u64, Failed>
        ensures len { IfOk result (λ n. n ≡ length (area_of (state_of self.old.past) area).now) }
        ensures state { state_of self.new.past ≡ state_of self.old.past }
        ensures time { Elapses (length self.old.past.calls) (length self.new.past.calls) (LeftSince self.old.past) (LeftSince self.new.past) (MayLeave (state_of self.new.past)) }
        ensures cause { HasDiskCause self.old.faults self.new.faults self.old.wants self.new.wants result }
        ensures goes { Goes self.old self.new Other Other result }
    {
        match self.pass(Call::Other) {
            Ok(()) => Ok(self.bytes(area).len() as u64),
            Err(failed) => Err(failed),
        }
    }

    fn read(&mut self, area: Area, at: u64, into: &mut [u8]) -> Result<(), Failed>
        requires within { at + length into.old ≤ length (area_of (state_of self.old.past) area).now }
        ensures bytes { OnOk result (into.new ≡ take (length into.old) (drop at (area_of (state_of self.old.past) area).now)) }
        ensures counted { OnOk result (state_of self.new.past ≡ after_read (state_of self.old.past)) }
        ensures state { OnErr result (state_of self.new.past ≡ state_of self.old.past) }
        ensures time { Elapses (length self.old.past.calls) (length self.new.past.calls) (LeftSince self.old.past) (LeftSince self.new.past) (MayLeave (state_of self.new.past)) }
        ensures cause { HasDiskCause self.old.faults self.new.faults self.old.wants self.new.wants result }
        ensures goes { Goes self.old self.new Read Other result }
    {
        match self.pass(Call::Read) {
            Ok(()) => {
                copy_out(self.bytes(area), at, into);
                Ok(())
            }
            Err(failed) => Err(failed),
        }
    }

    fn write_at(&mut self, area: Area, at: u64, bytes: &[u8]) -> Result<(), Failed>
        ensures written { OnOk result (state_of self.new.past ≡ with_area (state_of self.old.past) area (after_write (area_of (state_of self.old.past) area) at bytes.now)) }
        ensures in_part { OnErr result (IsCutShort area at (length bytes.now) (state_of self.old.past) (state_of self.new.past) ⊎ ((state_of self.new.past ≡ state_of self.old.past) × Rose self.old.wants self.new.wants)) }
        ensures near { OnOk result (at + length bytes.now ≤ 2 ^ 62) }
        ensures too_far { 2 ^ 62 < at + length bytes.now → (state_of self.new.past ≡ state_of self.old.past) × Rose self.old.wants self.new.wants }
        ensures too_far_faults { 2 ^ 62 < at + length bytes.now → self.new.faults ≡ self.old.faults }
        ensures time { Elapses (length self.old.past.calls) (length self.new.past.calls) (LeftSince self.old.past) (LeftSince self.new.past) (MayLeave (state_of self.new.past)) }
        ensures cause { HasDiskCause self.old.faults self.new.faults self.old.wants self.new.wants result }
        ensures goes { at + length bytes.now ≤ 2 ^ 62 → Goes self.old self.new (Write area at bytes.now false) (Write area at bytes.now true) result }
        ensures too_far_goes { 2 ^ 62 < at + length bytes.now → self.new ≡ after_want self.old }
    {
        if at.saturating_add(bytes.len() as u64) > FURTHEST {
            return Err(self.want());
        }
        self.put(area, at, bytes)
    }

    fn sync(&mut self, area: Area) -> Result<(), Failed>
        ensures durable { OnOk result (state_of self.new.past ≡ with_area (state_of self.old.past) area (after_sync (area_of (state_of self.old.past) area))) }
        ensures state { OnErr result (state_of self.new.past ≡ state_of self.old.past) }
        ensures time { Elapses (length self.old.past.calls) (length self.new.past.calls) (LeftSince self.old.past) (LeftSince self.new.past) (MayLeave (state_of self.new.past)) }
        ensures cause { HasDiskCause self.old.faults self.new.faults self.old.wants self.new.wants result }
        ensures goes { Goes self.old self.new (Sync area) Other result }
    {
        self.pass(Call::Sync { area })
    }

    fn wants(&self) -> u64 {
        self.wants
    }

    fn faults(&self) -> u64 {
        self.faults
    }
}
