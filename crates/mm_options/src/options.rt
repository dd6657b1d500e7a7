//! What a run is set to.

ghost use Rattle.std.specs.Prelude.{◌≡◌};
ghost use Rattle.mm_options.specs.Options.{standard};

/// The options of a run.
#[derive(Clone, Copy, Debug)]
pub struct Options {
    /// How many pages of checkpoint work follow an accepted edit, 0 to 1,024.
    pub slice: u32,
    /// How many bytes the keys and values of the store may have together, 1,024 to 2^40.
    pub limit: u64,
    /// Edits are refused, and nothing is written to the disk.
    pub read_only: bool,
    /// The seed of the sample script, where that is to be run.
    pub sample: Option<u64>,
}

impl Options {
    /// The options of a run whose words name none.
    pub fn new() -> Options
        ensures { result ≡ standard }
    {
        Options {
            slice: 8,
            limit: 1 << 30,
            read_only: false,
            sample: None,
        }
    }
}
