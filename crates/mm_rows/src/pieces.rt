//! Streams that move few bytes at a time, and don't tell which.

ghost use Rattle.std.specs.Prelude.{None};

use mm_host::{Failed, Sink, Source};

/// A source that gives at most so many bytes at a time, and at least one.
#[derive(Drop)]
pub struct PieceSource<S: Source> {
    pub source: S,
    pub most: usize,
}

impl<S: Source> Source for PieceSource<S> {
    ghost left = { λ _. None };

    ghost fault_count = { λ s. S.fault_count s.source };

    fn read(&mut self, into: &mut [u8]) -> Result<usize, Failed> {
        let most = into.len().min(self.most.max(1));
        self.source.read(&mut into[..most])
    }

    fn faults(&self) -> u64 {
        self.source.faults()
    }
}

/// A sink that takes at most so many bytes at a time, and at least one.
#[derive(Drop)]
pub struct PieceSink<W: Sink> {
    pub sink: W,
    pub most: usize,
}

impl<W: Sink> Sink for PieceSink<W> {
    ghost written = { λ _. None };

    ghost fault_count = { λ s. W.fault_count s.sink };

    fn write(&mut self, piece: &[u8]) -> Result<usize, Failed> {
        let most = piece.len().min(self.most.max(1));
        self.sink.write(&piece[..most])
    }

    fn faults(&self) -> u64 {
        self.sink.faults()
    }
}
