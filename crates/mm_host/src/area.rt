// The two parts of a disk.

/// A part of the disk.
#[derive(Clone, Copy, Debug, PartialEq, Eq)]
pub enum Area {
    Pages,
    Journal,
}
