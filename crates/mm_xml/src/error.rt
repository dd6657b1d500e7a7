//! Why bytes were not read.

ghost use Rattle.std.specs.Prelude.{◌≡◌};

use std::alloc::{AllocError, AllocFailed};
use thiserror::Error;

/// Why bytes were not read.
#[derive(Debug, Drop, Error)]
pub enum XmlError {
    #[error("the bytes spell no tree")]
    NotXml,
    #[error("the tree has more than 200 levels")]
    TooDeep,
    #[error("memory ran out")]
    Memory,
}

impl From<AllocError> for XmlError {
    ghost use Rattle.mm_xml.specs.declared.error.XmlError.TheVariants.{Memory};

    ghost from_gives = { λ _ e. e ≡ Memory };

    fn from(_error: AllocError) -> XmlError {
        XmlError::Memory
    }
}

impl<T: Drop> From<AllocFailed<T>> for XmlError {
    ghost use Rattle.mm_xml.specs.declared.error.XmlError.TheVariants.{Memory};

    ghost from_gives = { λ _ e. e ≡ Memory };

    fn from(_error: AllocFailed<T>) -> XmlError {
        XmlError::Memory
    }
}
