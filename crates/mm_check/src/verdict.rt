//! What a check tells.

use mm_host::Bytes;

/// What a check of a map tells: that it is the image of a forest of so many nodes; or a key that doesn't fit, with
/// the value that stands there and the one that is due, where they are known.
#[derive(Debug, Drop)]
pub enum Verdict {
    Sound {
        nodes: u64,
    },
    Unsound {
        key: Bytes,
        stored: Option<Bytes>,
        due: Option<Bytes>,
    },
}

/// A key that doesn't fit, with the value that stands there and the one that is due, where they are known.
#[derive(Debug, Drop)]
pub struct Named {
    pub key: Bytes,
    pub stored: Option<Bytes>,
    pub due: Option<Bytes>,
}
