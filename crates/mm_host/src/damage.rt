// What is wrong with a disk's bytes, and what a store over a disk may answer.
use crate::area::Area;
use crate::bytes::Bytes;
use std::alloc::AllocError;

/// The first thing that is wrong with the bytes of a disk.
#[derive(Debug, Drop)]
pub enum Damage {
    /// A field of `needed` bytes begins at `at`, and only `held` are there.
    Cut {
        place: Area,
        at: u64,
        needed: u64,
        held: u64,
    },
    /// The record at `at` has another digest than it says.
    Digest {
        at: u64,
        stored: [u8; 32],
        found: [u8; 32],
    },
    /// The record at `at` is of another sort than is due.
    Sort {
        at: u64,
        stored: u8,
        due: u8,
    },
    /// The length at `at` is not in its range.
    Size {
        at: u64,
        stored: u64,
        least: u64,
        most: u64,
    },
    /// A page breaks the rule of this number.
    Page {
        page: u64,
        why: u8,
        stored: u64,
        due: u64,
    },
    /// The entry at this key does not belong there.
    Key {
        key: Bytes,
    },
}

/// Why a call of a store gave up.
#[derive(Debug, Drop)]
pub enum Fault {
    /// The disk failed.
    DiskFault,
    /// The disk's bytes are wrong.
    Damaged(Damage),
    /// An earlier call failed, after which the store is of no further use.
    Spent,
    /// There was no memory.
    Memory,
}

impl From<AllocError> for Fault {
    ghost use Rattle.std.specs.Prelude.{◌≡◌};
    ghost use Rattle.mm_host.specs.declared.damage.Fault.TheVariants.{Memory};

    ghost from_gives = { λ _ e. e ≡ Memory };

    fn from(_error: AllocError) -> Fault {
        Fault::Memory
    }
}
