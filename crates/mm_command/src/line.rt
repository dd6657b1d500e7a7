// What a command line asks for.
ghost use Rattle.std.specs.Prelude.{◌≡◌};

use mm_tree::{Place, Text};
use std::alloc::AllocError;
use thiserror::Error;

/// What a search looks for.
#[derive(Clone, Copy, Debug, PartialEq, Eq)]
pub enum Find {
    /// The smallest lowest common ancestors.
    Slca,
    /// The exclusive lowest common ancestors.
    Elca,
    /// The fragments of the smallest lowest common ancestors.
    Maxmatch,
    /// The fragments of the exclusive lowest common ancestors.
    MaxmatchElca,
}

/// A command line. A label is any word; whether it is a label's text is looked at when the command is
/// carried out.
#[derive(Drop)]
pub enum Line {
    /// A line without words. It is skipped.
    Blank,
    Load,
    Insert { place: Place, label: Text },
    Delete { label: Text },
    Replace { label: Text },
    Search { find: Find, text: Text },
    Show { label: Text },
    /// Whether the store's map is the image of a forest.
    Check,
    Quit,
}

/// Why a line can't be read.
#[derive(Debug, Drop, Error)]
pub enum LineError {
    #[error("the line is in no form of a command")]
    NotACommand,
    #[error("memory ran out")]
    Memory,
}

impl From<AllocError> for LineError {
    ghost use Rattle.mm_command.specs.declared.line.LineError.TheVariants.{Memory};

    ghost from_gives = { λ _ e. e ≡ Memory };

    fn from(_error: AllocError) -> LineError {
        LineError::Memory
    }
}
