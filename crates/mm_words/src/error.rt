//! Why a text is no query.

ghost use Rattle.std.specs.Prelude.{◌≡◌};

use std::alloc::AllocError;
use thiserror::Error;

/// Why a text is no query. The first in this order counts.
#[derive(Clone, Copy, Debug, PartialEq, Eq, Error)]
pub enum QueryError {
    #[error("no words")]
    NoWords,
    /// There are so many distinct words.
    #[error("{found} words are too many")]
    TooMany { found: u64 },
    /// The first word that is too long has so many bytes, once case is folded.
    #[error("a word of {bytes} bytes is too long")]
    TooLong { bytes: u64 },
    #[error("out of memory")]
    Memory,
}

impl From<AllocError> for QueryError {
    ghost use Rattle.mm_words.specs.declared.error.QueryError.TheVariants.{Memory};

    ghost from_gives = { λ _ e. e ≡ Memory };

    fn from(_error: AllocError) -> QueryError {
        QueryError::Memory
    }
}
