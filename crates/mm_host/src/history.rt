// What a disk in memory has been through: its bytes, and its calls.
ghost use Rattle.std.specs.Prelude.{◌≡◌, ◌≤◌, ℕ, [], length, take, IfOk, OnOk, OnErr};
ghost use Rattle.mm_host.specs.Disk.{DiskState, Image, area_of, image_now};
ghost use Rattle.mm_host.specs.MemoryDisk.{Past, state_of, after_call, until, noted, bytes_in, IsLeft};
ghost use Rattle.mm_host.specs.Inside.Holding.{past_of, put_in, FollowsFromCalls};
ghost use Rattle.mm_host.specs.declared.call.Call.TheVariants.{Write};

use crate::area::Area;
use crate::bytes::Bytes;
use crate::call::Call;
use crate::crash::{left, put_part};
use crate::held::Held;
use crate::pick::Pick;
use std::alloc::{AllocError, Global};
use std::marker::Model;

/// The bytes of both areas, as they were made and as they are now, and the calls between.
#[derive(Drop)]
pub(crate) struct History {
    pages: Held,
    journal: Held,
    calls: Vec<Call>,
}

impl Model for History {
    ghost Value = { Past };

    ghost view = { λ h. past_of h.pages h.journal h.calls.items };

    ghost invariant = { λ h. FollowsFromCalls h.pages h.journal h.calls.items };
}

// Puts bytes at a place of the area.
fn put(
    pages: &mut Held,
    journal: &mut Held,
    area: Area,
    at: u64,
    bytes: &[u8],
) -> Result<(), AllocError>
    ensures pages { pages.new.made ≡ pages.old.made }
    ensures journal { journal.new.made ≡ journal.old.made }
    ensures ok { OnOk result (record { pages = pages.new.current; journal = journal.new.current } ≡ put_in (record { pages = pages.old.current; journal = journal.old.current }) area at bytes.now) }
    ensures pages_err { OnErr result (pages.new.current ≡ pages.old.current) }
    ensures journal_err { OnErr result (journal.new.current ≡ journal.old.current) }
{
    match area {
        Area::Pages => pages.put(at, bytes),
        Area::Journal => journal.put(at, bytes),
    }
}

impl History {
    pub(crate) fn new(alloc: Global, pages: Vec<u8>, journal: Vec<u8>) -> History
        ensures { result ≡ record { made = record { pages = pages.items; journal = journal.items }; calls = [] } }
    {
        History {
            pages: Held::new(pages),
            journal: Held::new(journal),
            calls: Vec::new(alloc),
        }
    }

    /// How many calls there were.
    pub(crate) fn len(&self) -> usize
        ensures { result ≡ length self.now.calls }
    {
        self.calls.len()
    }

    /// What a read of the area gives.
    pub(crate) fn bytes(&self, area: Area) -> &[u8]
        ensures { result.now ≡ (area_of (state_of self.now) area).now }
    {
        match area {
            Area::Pages => self.pages.current(),
            Area::Journal => self.journal.current(),
        }
    }

    // The bytes of which the area was made.
    fn made(&self, area: Area) -> &[u8]
        ensures { result.now ≡ bytes_in self.now.made area }
    {
        match area {
            Area::Pages => self.pages.made(),
            Area::Journal => self.journal.made(),
        }
    }

    /// Notes a call that puts no bytes. Where there is no memory all stays as it was.
    pub(crate) fn note(&mut self, call: Call) -> Result<(), AllocError>
        requires { (s : DiskState) → image_now (after_call s call) ≡ image_now s }
        ensures ok { OnOk result (self.new ≡ noted self.old call) }
        ensures err { OnErr result (self.new ≡ self.old) }
    {
        self.calls.reserve(1)?;
        self.calls.push_reserved(call);
        Ok(())
    }

    /// Writes, and notes it. Where there is no memory all stays as it was.
    pub(crate) fn write(
        &mut self,
        area: Area,
        at: u64,
        bytes: &[u8],
        failed: bool,
    ) -> Result<(), AllocError>
        ensures ok { OnOk result (self.new ≡ noted self.old (Write area at bytes.now failed)) }
        ensures err { OnErr result (self.new ≡ self.old) }
    {
        let copy = Bytes::from_slice(*self.calls.allocator(), bytes)?;
        self.calls.reserve(1)?;
        put(
            &mut self.pages,
            &mut self.journal,
            area,
            at,
            put_part(bytes, failed),
        )?;
        self.calls.push_reserved(Call::Write {
            area,
            at,
            bytes: copy,
            failed,
        });
        Ok(())
    }

    /// What a crash after so many calls leaves of an area by this pick.
    pub(crate) fn left(&self, count: usize, pick: Pick, area: Area) -> Result<Vec<u8>, AllocError>
        requires { count ≤ length self.now.calls }
        ensures { IfOk result (λ bytes. IsLeft pick (until count self.now) area bytes.items) }
    {
        left(
            *self.calls.allocator(),
            self.made(area),
            &self.calls[..count],
            area,
            pick,
        )
    }
}
