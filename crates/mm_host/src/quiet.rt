// A source and a sink that never fail.
ghost use Rattle.std.specs.Prelude.{◌≡◌, ℕ, ◌≤◌, List, Some, None, Ok, length, drop, min, vec_len};
ghost use Rattle.std.specs.declared.option.Option.{Option};
ghost use Rattle.std.specs.Io.{ReadsAtMost, WritesAtMost};
ghost use Rattle.mm_host.specs.Causes.{HasCause};
ghost use Rattle.mm_host.specs.Moves.{Reads, Writes};

use crate::failed::Failed;
use crate::mem_source::copy_from;
use crate::sink::Sink;
use crate::source::Source;
use std::marker::Model;

/// Reads the bytes of a vector.
#[derive(Drop)]
pub struct QuietSource {
    bytes: Vec<u8>,
    at: usize,
}

impl Model for QuietSource {
    ghost Value = { List ℕ };

    ghost view = { λ s. drop s.at s.bytes.items };

    ghost invariant = { λ s. s.at ≤ vec_len s.bytes };
}

impl QuietSource {
    /// A source of these bytes.
    pub fn new(bytes: Vec<u8>) -> QuietSource
        ensures { result ≡ bytes.items }
    {
        QuietSource { bytes, at: 0 }
    }
}

impl Source for QuietSource {
    ghost left = { λ s. Some s };

    ghost fault_count = { λ _. 0 };

    fn read(&mut self, into: &mut [u8]) -> Result<usize, Failed>
        ensures bound { ReadsAtMost result into.new }
        ensures bytes { Reads (Some self.old) (Some self.new) result into.new }
        ensures cause { HasCause 0 0 result }
        ensures whole { result ≡ Ok (min (length into.old) (length self.old)) }
    {
        let count = copy_from(&self.bytes, self.at, into);
        self.at += count;
        Ok(count)
    }

    fn faults(&self) -> u64 {
        0
    }
}

/// Takes every piece whole, keeps nothing and tells nothing.
#[derive(Clone, Copy, Debug)]
pub struct QuietSink;

impl QuietSink {
    /// A sink that keeps nothing.
    pub fn new() -> QuietSink {
        QuietSink
    }
}

impl Sink for QuietSink {
    ghost written = { λ _. None };

    ghost fault_count = { λ _. 0 };

    fn write(&mut self, piece: &[u8]) -> Result<usize, Failed>
        ensures bound { WritesAtMost result piece.now }
        ensures bytes { Writes None None result piece.now }
        ensures cause { HasCause 0 0 result }
        ensures whole { result ≡ Ok (length piece.now) }
    {
        Ok(piece.len())
    }

    fn faults(&self) -> u64 {
        0
    }
}
