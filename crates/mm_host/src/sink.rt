// Where bytes go.
ghost use Rattle.std.specs.Prelude.{◌≡◌, ℕ, List};
ghost use Rattle.std.specs.declared.option.Option.{Option};
ghost use Rattle.std.specs.Io.{WritesAtMost};
ghost use Rattle.mm_host.specs.Causes.{HasCause};
ghost use Rattle.mm_host.specs.Moves.{Writes, WritesAll};

use crate::failed::Failed;

/// A stream of bytes that is written.
pub trait Sink {
    /// The bytes written, where the sink tells them. No call changes whether it does.
    ghost written: { Self → Option (List ℕ) };

    /// How often the sink has failed.
    ghost fault_count: { Self → ℕ };

    /// Writes a front of the piece, and answers its length. To take nothing of a piece that isn't
    /// empty is a failure.
    fn write(&mut self, piece: &[u8]) -> Result<usize, Failed>
        ensures bound { WritesAtMost result piece.now }
        ensures bytes { Writes (written self.old) (written self.new) result piece.now }
        ensures cause { HasCause (fault_count self.old) (fault_count self.new) result };

    /// How often the sink has failed.
    fn faults(&self) -> u64
        ensures { result ≡ fault_count self.now };
}

/// Writes a piece whole. Where the sink fails, a front of it is written that isn't all.
pub fn write_all<W: Sink>(sink: &mut W, piece: &[u8]) -> Result<(), Failed>
    ensures bytes { WritesAll (W.written sink.old) (W.written sink.new) result piece.now }
    ensures cause { HasCause (W.fault_count sink.old) (W.fault_count sink.new) result }
{
    let mut done = 0;
    while done < piece.len() {
        done += sink.write(&piece[done..])?;
    }
    Ok(())
}
