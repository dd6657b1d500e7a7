// The disk over the two files.
ghost use Rattle.std.specs.Prelude.{◌≡◌, ◌≤◌, ◌<◌, ◌+◌, ◌^◌, length, IsErr, OnOk, OnErr};
ghost use Rattle.mm_host.specs.Causes.{HasDiskCause};
ghost use Rattle.mm_host.specs.Disk.{no_bytes};
ghost use Rattle.mm_files.specs.Counts.{Counts, after_fault, after_want};

use crate::folder::Folder;
use mm_host::{Area, Disk, Failed};
use std::io;
use std::marker::Model;

/// No write may end past this place.
const FURTHEST: u64 = 1 << 62;

/// A disk of two files in the current folder, `kw.pages` and `kw.journal`. The first call opens them, or makes
/// those that are missing. It tells nothing of their bytes: contracts see its counts alone.
#[derive(Drop)]
pub struct FileDisk<'r> {
    folder: Folder<'r>,
    faults: u64,
    wants: u64,
}

impl<'r> Model for FileDisk<'r> {
    ghost use Rattle.mm_files.specs.Counts.{Counts};

    ghost Value = { Counts };

    ghost view = { λ disk. record { faults = disk.faults; wants = disk.wants } };
}

impl<'r> FileDisk<'r> {
    /// The disk of the current folder, before its first call. It opens no file.
    pub fn new(runtime: &'r HostRuntime) -> FileDisk<'r>
        ensures { result ≡ record { faults = 0; wants = 0 } }
    {
        FileDisk {
            folder: Folder::new(runtime),
            faults: 0,
            wants: 0,
        }
    }

    // Passes an answer of the files on, and counts an error.
    fn told<T: Drop>(&mut self, answer: io::Result<T>) -> Result<T, Failed>
        ensures ok { OnOk result (self.new ≡ self.old) }
        ensures err { OnErr result (self.new ≡ after_fault self.old) }
        ensures cause { HasDiskCause self.old.faults self.new.faults self.old.wants self.new.wants result }
    {
        match answer {
            Ok(value) => Ok(value),
            Err(_) => {
                self.faults = self.faults.saturating_add(1);
                Err(Failed)
            }
        }
    }

    fn want(&mut self) -> Failed
        ensures state { self.new ≡ after_want self.old }
        ensures later { self.old.wants ≤ self.new.wants }
    {
        self.wants = self.wants.saturating_add(1);
        Failed
    }
}

impl<'r> Disk for FileDisk<'r> {
    ghost tells = { ⊥ };

    ghost state = { λ _. no_bytes };

    ghost moment = { λ _. 0 };

    ghost left_since = { λ _ _ _. ⊥ };

    ghost fault_count = { λ disk. disk.faults };

    ghost want_count = { λ disk. disk.wants };

    ghost counts_now = { λ _ _ _ told _ _. absurd told };

    ghost only_now = { λ _ _ told _. absurd told };

    ghost now_counts = { λ _ told. absurd told };

    fn len(&mut self, area: Area) -> Result<u64, Failed>
        ensures cause { HasDiskCause self.old.faults self.new.faults self.old.wants self.new.wants result }
        ensures ok { OnOk result (self.new ≡ self.old) }
        ensures err { OnErr result (self.new ≡ after_fault self.old) }
    {
        let answer = self.folder.len(area);
        self.told(answer)
    }

    fn read(&mut self, area: Area, at: u64, into: &mut [u8]) -> Result<(), Failed>
        ensures cause { HasDiskCause self.old.faults self.new.faults self.old.wants self.new.wants result }
        ensures ok { OnOk result (self.new ≡ self.old) }
        ensures err { OnErr result (self.new ≡ after_fault self.old) }
    {
        let answer = self.folder.read(area, at, into);
        self.told(answer)
    }

    fn write_at(&mut self, area: Area, at: u64, bytes: &[u8]) -> Result<(), Failed>
        ensures cause { HasDiskCause self.old.faults self.new.faults self.old.wants self.new.wants result }
        ensures near { OnOk result (at + length bytes.now ≤ 2 ^ 62) }
        ensures ok { OnOk result (self.new ≡ self.old) }
        ensures err { at + length bytes.now ≤ 2 ^ 62 → OnErr result (self.new ≡ after_fault self.old) }
        ensures too_far { 2 ^ 62 < at + length bytes.now → IsErr result }
        ensures too_far_wants { 2 ^ 62 < at + length bytes.now → self.new ≡ after_want self.old }
    {
        if at.saturating_add(bytes.len() as u64) > FURTHEST {
            return Err(self.want());
        }
        let answer = self.folder.write_at(area, at, bytes);
        self.told(answer)
    }

    fn sync(&mut self, area: Area) -> Result<(), Failed>
        ensures cause { HasDiskCause self.old.faults self.new.faults self.old.wants self.new.wants result }
        ensures ok { OnOk result (self.new ≡ self.old) }
        ensures err { OnErr result (self.new ≡ after_fault self.old) }
    {
        let answer = self.folder.sync(area);
        self.told(answer)
    }

    fn wants(&self) -> u64 {
        self.wants
    }

    fn faults(&self) -> u64 {
        self.faults
    }
}
