// The calls that a disk in memory keeps.
use crate::area::Area;
use crate::bytes::Bytes;

/// What a call of a disk in memory did.
#[derive(Debug, Drop)]
pub(crate) enum Call {
    /// It changed nothing: the length of an area was read, or a call failed that was no write.
    Other,
    /// A read answered `Ok`.
    Read,
    /// These bytes were handed over. A write that failed has put the first half of them.
    Write {
        area: Area,
        at: u64,
        bytes: Bytes,
        failed: bool,
    },
    /// A sync answered `Ok`.
    Sync {
        area: Area,
    },
}
