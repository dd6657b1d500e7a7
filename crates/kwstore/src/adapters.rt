// Readers and writers of std as sources and sinks. These tell no bytes, since a reader or a writer of std may
// begin to tell its own at any call. That they pass on what it tells is a clause of each call.
ghost use Rattle.std.specs.Prelude.{◌≡◌, None};
ghost use Rattle.std.specs.Io.{ReadsAtMost, WritesAtMost};
ghost use Rattle.std.specs.Io.KnownBytes.{ReadConsumes, WriteAppends};
ghost use Rattle.mm_host.specs.Causes.{HasCause};
ghost use Rattle.mm_host.specs.Moves.{Reads, Writes};

use mm_host::{Failed, Sink, Source};
use std::io::{ErrorKind, Read, Write};

/// A reader as a source. Each read goes straight to it, and is no fault where a signal broke it off:
/// then it is tried again.
#[derive(Drop)]
pub struct ReadSource<R: Read> {
    reader: R,
    faults: u64,
}

impl<R: Read> ReadSource<R> {
    pub fn new(reader: R) -> ReadSource<R>
        ensures reader { result.reader ≡ reader }
        ensures faults { result.faults ≡ 0 }
    {
        ReadSource { reader, faults: 0 }
    }
}

/// Reads, and again where a signal broke the read off.
fn read_unbroken<R: Read>(reader: &mut R, into: &mut [u8]) -> Result<usize, Failed>
    ensures bound { ReadsAtMost result into.new }
    ensures passes { ReadConsumes (R.remaining reader.old) (R.remaining reader.new) result into.new }
{
    for _ in 0..u64::MAX {
        match reader.read(into) {
            Ok(count) => return Ok(count),
            Err(error) if error.kind() == ErrorKind::Interrupted => {}
            Err(_) => return Err(Failed),
        }
    }
    Err(Failed)
}

impl<R: Read> Source for ReadSource<R> {
    ghost left = { λ _. None };

    ghost fault_count = { λ s. s.faults };

    fn read(&mut self, into: &mut [u8]) -> Result<usize, Failed>
        ensures bound { ReadsAtMost result into.new }
        ensures bytes { Reads None None result into.new }
        ensures cause { HasCause self.old.faults self.new.faults result }
        ensures passes { ReadConsumes (R.remaining self.old.reader) (R.remaining self.new.reader) result into.new }
    {
        match read_unbroken(&mut self.reader, into) {
            Ok(count) => Ok(count),
            Err(failed) => {
                self.faults = self.faults.saturating_add(1);
                Err(failed)
            }
        }
    }

    fn faults(&self) -> u64 {
        self.faults
    }
}

/// A writer as a sink. Each write goes straight to it, and is no fault where a signal broke it off:
/// then it is tried again.
#[derive(Drop)]
pub struct WriteSink<W: Write> {
    writer: W,
    faults: u64,
}

impl<W: Write> WriteSink<W> {
    pub fn new(writer: W) -> WriteSink<W>
        ensures writer { result.writer ≡ writer }
        ensures faults { result.faults ≡ 0 }
    {
        WriteSink { writer, faults: 0 }
    }
}

/// Writes, and again where a signal broke the write off.
fn write_unbroken<W: Write>(writer: &mut W, piece: &[u8]) -> Result<usize, Failed>
    ensures bound { WritesAtMost result piece.now }
    ensures bytes { Writes None None result piece.now }
    ensures passes { WriteAppends (W.contents writer.old) (W.contents writer.new) result piece.now }
{
    for _ in 0..u64::MAX {
        match writer.write(piece) {
            Ok(count) if count > 0 || piece.is_empty() => return Ok(count),
            Err(error) if error.kind() == ErrorKind::Interrupted => {}
            _ => return Err(Failed),
        }
    }
    Err(Failed)
}

impl<W: Write> Sink for WriteSink<W> {
    ghost written = { λ _. None };

    ghost fault_count = { λ s. s.faults };

    fn write(&mut self, piece: &[u8]) -> Result<usize, Failed>
        ensures bound { WritesAtMost result piece.now }
        ensures bytes { Writes None None result piece.now }
        ensures cause { HasCause self.old.faults self.new.faults result }
        ensures passes { WriteAppends (W.contents self.old.writer) (W.contents self.new.writer) result piece.now }
    {
        match write_unbroken(&mut self.writer, piece) {
            Ok(count) => Ok(count),
            Err(failed) => {
                self.faults = self.faults.saturating_add(1);
                Err(failed)
            }
        }
    }

    fn faults(&self) -> u64 {
        self.faults
    }
}
