//! Where a chunk stands.

ghost use Rattle.std.specs.Prelude.{◌≡◌, IfOk, IfSome, option_map};
ghost use Rattle.mm_label.specs.Label.{IsLabel};
ghost use Rattle.mm_image.specs.Keys.{chunk_key};
ghost use Rattle.mm_check.specs.Reading.{is_piece, place_of};
ghost use Rattle.mm_check.specs.Inside.Reader.{as_place};

use mm_image::{PIECE_LIMIT, Parsed, parse_key};
use mm_label::Label;
use mm_label::laws::reads_back;
use std::alloc::{AllocError, Global};

/// Where a chunk stands: its node's label, and its number.
#[derive(Drop)]
pub struct Spot {
    pub label: Label,
    pub number: u32,
}

/// The place of a chunk key; None of any other key.
pub fn place_of(alloc: Global, key: &[u8]) -> Result<Option<Spot>, AllocError>
    ensures place { IfOk result (λ spot. option_map as_place spot ≡ place_of key.now) }
    ensures label { IfOk result (λ spot. IfSome spot (λ s. IsLabel s.label)) }
    ensures key { IfOk result (λ spot. IfSome spot (λ s. chunk_key s.label s.number ≡ key.now)) }
{
    reads_back();
    let Some(parsed) = parse_key(alloc, key)? else {
        return Ok(None);
    };
    match parsed {
        Parsed::Chunk { label, number } => Ok(Some(Spot { label, number })),
        Parsed::Occurrence { .. } => Ok(None),
        Parsed::Count { .. } => Ok(None),
    }
}

/// Some bytes, no more than a piece has.
pub fn is_piece(value: &[u8]) -> bool
    ensures { result ≡ is_piece value.now }
{
    !value.is_empty() && value.len() <= PIECE_LIMIT
}
