// Where an entry stands in a map in memory.

/// Where an entry stands in a map in memory, until the next change of the map.
#[derive(Clone, Copy, Debug)]
pub struct Spot {
    pub(crate) block: usize,
    pub(crate) index: usize,
}
