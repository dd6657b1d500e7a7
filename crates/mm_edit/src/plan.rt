//! What an edit changes, and why there is no plan.

ghost use Rattle.std.specs.Prelude.{◌≡◌};
ghost use Rattle.mm_image.specs.Keyed.{keyed};
ghost use Rattle.mm_edit.specs.Plans.{AreSized};

use mm_host::{Bytes, Fault};
use mm_image::Entry;
use mm_tree::{Done, Refusal, TreeError};
use std::marker::Model;

/// Why there is no plan.
#[derive(Drop)]
pub enum EditError {
    /// The edit is refused.
    Refused(Refusal),
    /// The map couldn't be read.
    Fault(Fault),
}

impl From<Fault> for EditError {
    ghost use Rattle.std.specs.Prelude.{◌≡◌};
    ghost use Rattle.mm_edit.specs.declared.plan.EditError.TheVariants as error;

    ghost from_gives = { λ f e. e ≡ error.Fault f };

    fn from(fault: Fault) -> EditError {
        EditError::Fault(fault)
    }
}

impl From<TreeError> for EditError {
    ghost use Rattle.std.specs.Prelude.{◌≡◌};
    ghost use Rattle.mm_edit.specs.Plans.{of_tree};

    ghost from_gives = { λ t e. e ≡ of_tree t };

    fn from(error: TreeError) -> EditError {
        match error {
            TreeError::Refused(refusal) => EditError::Refused(refusal),
            TreeError::Memory => EditError::Fault(Fault::Memory),
        }
    }
}

/// What an edit changes: the keys to be removed and the entries to be put, both in the order of the keys.
#[derive(Drop)]
pub struct Plan {
    done: Done,
    removes: Vec<Bytes>,
    puts: Vec<Entry>,
}

impl Model for Plan {
    ghost use Rattle.mm_image.specs.Keyed.{keyed};
    ghost use Rattle.mm_edit.specs.Plans.{AreSized, Planned};

    ghost Value = { Planned };

    ghost view = { λ p. record { done = p.done; removes = p.removes.items; puts = keyed p.puts.items } };

    ghost invariant = { λ p. AreSized (keyed p.puts.items) };
}

impl Plan {
    pub(crate) fn new(done: Done, removes: Vec<Bytes>, puts: Vec<Entry>) -> Plan
        requires { AreSized (keyed puts.items) }
        ensures { result ≡ record { done = done; removes = removes.items; puts = keyed puts.items } }
    {
        Plan {
            done,
            removes,
            puts,
        }
    }

    /// What the edit does.
    pub fn done(&self) -> &Done
        ensures { result.now ≡ self.now.done }
    {
        &self.done
    }

    /// The keys to be removed.
    pub fn removes(&self) -> &[Bytes]
        ensures { result.now ≡ self.now.removes }
    {
        self.removes.as_slice()
    }

    /// The entries to be put.
    pub fn puts(&self) -> &[Entry]
        ensures puts { keyed result.now ≡ self.now.puts }
        ensures sized { AreSized self.now.puts }
    {
        self.puts.as_slice()
    }
}
