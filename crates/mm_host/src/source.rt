// Where bytes come from.
ghost use Rattle.std.specs.Prelude.{◌≡◌, ℕ, List};
ghost use Rattle.std.specs.declared.option.Option.{Option};
ghost use Rattle.std.specs.Io.{ReadsAtMost};
ghost use Rattle.mm_host.specs.Causes.{HasCause};
ghost use Rattle.mm_host.specs.Moves.{Reads};

use crate::failed::Failed;

/// A stream of bytes that is read.
pub trait Source {
    /// The bytes left, where the source tells them. No call changes whether it does.
    ghost left: { Self → Option (List ℕ) };

    /// How often the source has failed.
    ghost fault_count: { Self → ℕ };

    /// Moves the next bytes into the front of `into`, and answers how many. For an `into` that isn't
    /// empty, 0 is the end.
    fn read(&mut self, into: &mut [u8]) -> Result<usize, Failed>
        ensures bound { ReadsAtMost result into.new }
        ensures bytes { Reads (left self.old) (left self.new) result into.new }
        ensures cause { HasCause (fault_count self.old) (fault_count self.new) result };

    /// How often the source has failed.
    fn faults(&self) -> u64
        ensures { result ≡ fault_count self.now };
}

impl<S: Source> Source for &mut S {
    ghost left = { λ s. S.left s.now };

    ghost fault_count = { λ s. S.fault_count s.now };

    fn read(&mut self, into: &mut [u8]) -> Result<usize, Failed> {
        (**self).read(into)
    }

    fn faults(&self) -> u64 {
        (**self).faults()
    }
}
