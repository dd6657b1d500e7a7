// A disk that isn't there.
ghost use Rattle.std.specs.Prelude.{◌≡◌, ◌≤◌, ℕ, IsErr};
ghost use Rattle.mm_host.specs.Causes.{HasDiskCause, next_count};
ghost use Rattle.mm_host.specs.Disk.{no_bytes};

use crate::area::Area;
use crate::disk::Disk;
use crate::failed::Failed;
use std::marker::Model;

/// A disk that isn't there: each call of it fails. Contracts see it as how often it failed.
#[derive(Debug, Drop)]
pub struct NoDisk {
    faults: u64,
}

impl Model for NoDisk {
    ghost Value = { ℕ };

    ghost view = { λ disk. disk.faults };
}

impl NoDisk {
    /// A disk that isn't there, and has not failed yet.
    pub fn new() -> NoDisk
        ensures { result ≡ 0 }
    {
        NoDisk { faults: 0 }
    }

    fn fail(&mut self) -> Failed
        ensures counted { self.new ≡ next_count self.old }
        ensures later { self.old ≤ self.new }
    {
        self.faults = self.faults.saturating_add(1);
        Failed
    }
}

impl Disk for NoDisk {
    ghost tells = { ⊥ };

    ghost state = { λ _. no_bytes };

    ghost moment = { λ _. 0 };

    ghost left_since = { λ _ _ _. ⊥ };

    ghost fault_count = { λ disk. disk };

    ghost want_count = { λ _. 0 };

    ghost counts_now = { λ _ _ _ told _ _. absurd told };

    ghost only_now = { λ _ _ told _. absurd told };

    ghost now_counts = { λ _ told. absurd told };

    fn len(&mut self, _area: Area) -> Result<u64, Failed>
        ensures cause { HasDiskCause self.old self.new 0 0 result }
        ensures fails { IsErr result }
        ensures counted { self.new ≡ next_count self.old }
    {
        Err(self.fail())
    }

    fn read(&mut self, _area: Area, _at: u64, _into: &mut [u8]) -> Result<(), Failed>
        ensures cause { HasDiskCause self.old self.new 0 0 result }
        ensures fails { IsErr result }
        ensures counted { self.new ≡ next_count self.old }
    {
        Err(self.fail())
    }

    fn write_at(&mut self, _area: Area, _at: u64, _bytes: &[u8]) -> Result<(), Failed>
        ensures cause { HasDiskCause self.old self.new 0 0 result }
        ensures fails { IsErr result }
        ensures counted { self.new ≡ next_count self.old }
    {
        Err(self.fail())
    }

    fn sync(&mut self, _area: Area) -> Result<(), Failed>
        ensures cause { HasDiskCause self.old self.new 0 0 result }
        ensures fails { IsErr result }
        ensures counted { self.new ≡ next_count self.old }
    {
        Err(self.fail())
    }

    fn wants(&self) -> u64 {
        0
    }

    fn faults(&self) -> u64 {
        self.faults
    }
}
