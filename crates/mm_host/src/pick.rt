// Which image a crash of a disk in memory leaves.

/// What a crash leaves of the bytes that no sync has made sure of.
#[derive(Clone, Copy, Debug, PartialEq, Eq)]
pub enum Pick {
    /// None of them.
    Lost,
    /// All of them.
    Kept,
    /// All of them, with this byte at each place that isn't sure.
    Filled { byte: u8 },
    /// The first so many of them, counted over the writes of both areas in the order of the calls.
    Front { bytes: u64 },
}
