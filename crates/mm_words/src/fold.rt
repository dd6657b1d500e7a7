//! Case folding.

ghost use Rattle.std.specs.Prelude.{◌≡◌, IfOk};
ghost use Rattle.mm_words.specs.Words.{folded};

use caseless::default_case_fold_str;
use mm_list::Items;
use std::alloc::{AllocError, Global};

/// The bytes of the piece once case is folded.
pub fn fold(alloc: Global, piece: &str) -> Result<Items<u8>, AllocError>
    ensures { IfOk result (λ bytes. bytes ≡ folded piece.now) }
{
    let text = default_case_fold_str(alloc, piece)?;
    Ok(Items::from_vec(text.into_bytes()))
}
