// Why a call that lends gave up.
ghost use Rattle.std.specs.Prelude.{◌≡◌};
ghost use Rattle.mm_keeper.specs.Lending.{fault_from};

use mm_host::{Area, Damage, Fault};

/// Why a call that lends gave up. It owns no memory, so that the lender can be followed through it; `into_fault`
/// makes a fault of it.
#[derive(Clone, Copy, Debug)]
pub enum LendError {
    /// The disk failed.
    DiskFault,
    /// A field of `needed` bytes begins at `at`, and only `held` are there.
    Cut {
        place: Area,
        at: u64,
        needed: u64,
        held: u64,
    },
    /// The page breaks the rule of this number.
    Page {
        page: u64,
        why: u8,
        stored: u64,
        due: u64,
    },
    /// An earlier call failed, after which the keeper is of no further use.
    Spent,
    /// There was no memory.
    Memory,
}

impl LendError {
    /// The same as a fault.
    pub fn into_fault(self) -> Fault
        ensures { result ≡ fault_from self }
    {
        match self {
            LendError::DiskFault => Fault::DiskFault,
            LendError::Cut {
                place,
                at,
                needed,
                held,
            } => Fault::Damaged(Damage::Cut {
                place,
                at,
                needed,
                held,
            }),
            LendError::Page {
                page,
                why,
                stored,
                due,
            } => Fault::Damaged(Damage::Page {
                page,
                why,
                stored,
                due,
            }),
            LendError::Spent => Fault::Spent,
            LendError::Memory => Fault::Memory,
        }
    }
}
