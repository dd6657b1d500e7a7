//! Why a call gives no label and no segment.

ghost use Rattle.std.specs.Prelude.{◌≡◌};

use std::alloc::AllocError;
use thiserror::Error;

/// Why there is no label, or no segment.
#[derive(Clone, Copy, Debug, PartialEq, Eq, Error)]
pub enum LabelError {
    /// The text is not the canonical text of a label.
    #[error("not a label")]
    NotALabel,
    /// A component would leave the range.
    #[error("the component {value} is out of range")]
    OutOfRange { value: i64 },
    /// The bytes would pass the limit.
    #[error("a label of {length} bytes is too long")]
    Full { length: u64 },
    #[error("out of memory")]
    Memory,
}

impl From<AllocError> for LabelError {
    ghost use Rattle.mm_label.specs.declared.error.LabelError.TheVariants.{Memory};

    ghost from_gives = { λ _ e. e ≡ Memory };

    fn from(_error: AllocError) -> LabelError {
        LabelError::Memory
    }
}
