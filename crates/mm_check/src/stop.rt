//! Why a check ends before its end.

ghost use Rattle.std.specs.Prelude.{◌≡◌, Some, IfOk};
ghost use Rattle.mm_check.specs.Blame.{not_there, other_value};
ghost use Rattle.mm_check.specs.Reading.{not_due};

use crate::verdict::Named;
use mm_host::{Bytes, Fault};
use mm_keeper::EntryRef;
use std::alloc::{AllocError, Global};

/// Why a check goes no further: something is named, or the keeper gave up.
#[derive(Debug, Drop)]
pub enum Stop {
    Named(Named),
    Fault(Fault),
}

impl From<Fault> for Stop {
    ghost use Rattle.std.specs.Prelude.{◌≡◌};
    ghost use Rattle.mm_check.specs.declared.stop.Stop.TheVariants.{Fault};

    ghost from_gives = { λ f e. e ≡ Fault f };

    fn from(fault: Fault) -> Stop {
        Stop::Fault(fault)
    }
}

impl From<AllocError> for Stop {
    ghost use Rattle.std.specs.Prelude.{◌≡◌};
    ghost use Rattle.mm_host.specs.declared.damage.Fault.TheVariants.{Memory};
    ghost use Rattle.mm_check.specs.declared.stop.Stop.TheVariants.{Fault};

    ghost from_gives = { λ _ e. e ≡ Fault Memory };

    fn from(_error: AllocError) -> Stop {
        Stop::Fault(Fault::Memory)
    }
}

/// Names an entry that isn't due.
pub fn not_due(alloc: Global, key: &[u8], value: &[u8]) -> Result<Named, AllocError>
    ensures { IfOk result (λ named. named ≡ not_due (key.now, value.now)) }
{
    let key = Bytes::from_slice(alloc, key)?;
    let stored = Some(Bytes::from_slice(alloc, value)?);
    Ok(Named {
        key,
        stored,
        due: None,
    })
}

/// Names an entry that is due and isn't there.
pub fn not_there(alloc: Global, key: &[u8], value: &[u8]) -> Result<Named, AllocError>
    ensures { IfOk result (λ named. named ≡ not_there (key.now, value.now)) }
{
    let key = Bytes::from_slice(alloc, key)?;
    let due = Some(Bytes::from_slice(alloc, value)?);
    Ok(Named {
        key,
        stored: None,
        due,
    })
}

/// Names an entry with another value than the one that is due.
pub fn other_value(alloc: Global, entry: EntryRef<'_>, value: &[u8]) -> Result<Named, AllocError>
    ensures { IfOk result (λ named. named ≡ other_value (entry.entry.key.now, entry.entry.value.now) value.now) }
{
    let key = Bytes::from_slice(alloc, entry.key)?;
    let stored = Some(Bytes::from_slice(alloc, entry.value)?);
    let due = Some(Bytes::from_slice(alloc, value)?);
    Ok(Named { key, stored, due })
}
