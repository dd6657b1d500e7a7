// A source in memory.
ghost use Rattle.std.specs.Prelude.{◌≡◌, ℕ, ◌+◌, ◌≤◌, Ok, List, Some, length, drop, min, IsErr, IfOk, OnErr, ◌↔◌, vec_len, IsTrue, Contains};
ghost use Rattle.std.specs.declared.option.Option.{Option};
ghost use Rattle.std.specs.Io.{ReadsAtMost};
ghost use Rattle.mm_host.specs.Causes.{HasCause, next_count};
ghost use Rattle.mm_host.specs.Moves.{Reads};
ghost use Rattle.mm_host.specs.Memory.{SourceState, IsListed};

use crate::failed::Failed;
use crate::source::Source;
use std::marker::Model;

/// Reads the bytes of a vector, and fails at the calls of a list, which are counted from 1.
#[derive(Drop)]
pub struct MemSource {
    bytes: Vec<u8>,
    at: usize,
    calls: u64,
    failing: Vec<u64>,
    faults: u64,
}

impl Model for MemSource {
    ghost Value = { SourceState };

    ghost view = { λ s. record { left = drop s.at s.bytes.items; calls = s.calls; failing = s.failing.items; faults = s.faults } };

    ghost invariant = { λ s. s.at ≤ vec_len s.bytes };
}

impl MemSource {
    /// A source of these bytes, which fails at these calls.
    pub fn new(bytes: Vec<u8>, failing: Vec<u64>) -> MemSource
        ensures left { result.left ≡ bytes.items }
        ensures calls { result.calls ≡ 0 }
        ensures failing { result.failing ≡ failing.items }
        ensures faults { result.faults ≡ 0 }
    {
        MemSource {
            bytes,
            at: 0,
            calls: 0,
            failing,
            faults: 0,
        }
    }
}

/// Copies what fits of the bytes from a place on, and answers how many.
pub(crate) fn copy_from(bytes: &[u8], at: usize, into: &mut [u8]) -> usize
    requires { at ≤ length bytes.now }
    ensures count { result ≡ min (length into.old) (length (drop at bytes.now)) }
    ensures bytes { Reads {E = Failed} (Some (drop at bytes.now)) (Some (drop (at + result) bytes.now)) (Ok result) into.new }
{
    let left = &bytes[at..];
    let count = left.len().min(into.len());
    into[..count].copy_from_slice(&left[..count]);
    count
}

impl Source for MemSource {
    ghost left = { λ s. Some s.left };

    ghost fault_count = { λ s. s.faults };

    fn read(&mut self, into: &mut [u8]) -> Result<usize, Failed>
        ensures bound { ReadsAtMost result into.new }
        ensures bytes { Reads (Some self.old.left) (Some self.new.left) result into.new }
        ensures cause { HasCause self.old.faults self.new.faults result }
        ensures listed { IsErr result ↔ IsListed self.old.failing self.old.calls }
        ensures count { IfOk result (λ n. n ≡ min (length into.old) (length self.old.left)) }
        ensures calls { self.new.calls ≡ next_count self.old.calls }
        ensures failing { self.new.failing ≡ self.old.failing }
    {
        self.calls = self.calls.saturating_add(1);
        if self.failing.contains(&self.calls) {
            self.faults = self.faults.saturating_add(1);
            return Err(Failed);
        }
        let count = copy_from(&self.bytes, self.at, into);
        self.at += count;
        Ok(count)
    }

    fn faults(&self) -> u64 {
        self.faults
    }
}
