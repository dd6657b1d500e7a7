//! What a key stands for.

ghost use Rattle.std.specs.Prelude.{◌≡◌, ◌≢◌, ◌<◌, ◌∷◌, ℕ, EachIndex, IfNone, IfOk, IfSome, length, slice_index};
ghost use Rattle.mm_image.specs.Keys.{StandsFor};

use byteorder::{BigEndian, ByteOrder};
use mm_label::Label;
use mm_words::Word;
use std::alloc::{AllocError, Global};

/// What a key stands for: a piece of a node's content, a node that holds a word, or a word's count.
#[derive(Debug, Drop)]
pub enum Parsed {
    Chunk { label: Label, number: u32 },
    Occurrence { word: Word, label: Label },
    Count { word: Word },
}

/// Reads what stands behind the byte 01.
fn parse_chunk(alloc: Global, rest: &[u8]) -> Result<Option<Parsed>, AllocError>
    ensures { IfOk result (StandsFor (1 ∷ rest.now)) }
{
    let Some(end) = rest.len().checked_sub(5) else {
        return Ok(None);
    };
    let (front, back) = rest.split_at(end);
    if back[0] != 0 {
        return Ok(None);
    }
    let number = BigEndian::read_u32(&back[1..]);
    match Label::from_bytes(alloc, front)? {
        Some(label) => Ok(Some(Parsed::Chunk { label, number })),
        None => Ok(None),
    }
}

/// The place of the first byte 00.
fn first_zero(bytes: &[u8]) -> Option<usize>
    ensures none { IfNone result (EachIndex bytes.now (λ k. slice_index bytes.now k ≢ 0)) }
    ensures within { IfSome result (λ at. at < length bytes.now) }
    ensures zero { IfSome result (λ at. slice_index bytes.now at ≡ 0) }
    ensures before { IfSome result (λ at. (k : ℕ) → k < at → slice_index bytes.now k ≢ 0) }
{
    bytes.iter().position(|byte| *byte == 0)
}

/// Reads what stands behind the byte 02: the first 00 ends the word.
fn parse_occurrence(alloc: Global, rest: &[u8]) -> Result<Option<Parsed>, AllocError>
    ensures { IfOk result (StandsFor (2 ∷ rest.now)) }
{
    let Some(end) = first_zero(rest) else {
        return Ok(None);
    };
    let (front, back) = rest.split_at(end);
    let Some(word) = Word::from_bytes(alloc, front)? else {
        return Ok(None);
    };
    match Label::from_bytes(alloc, &back[1..])? {
        Some(label) => Ok(Some(Parsed::Occurrence { word, label })),
        None => Ok(None),
    }
}

/// Reads what stands behind the byte 03.
fn parse_count(alloc: Global, rest: &[u8]) -> Result<Option<Parsed>, AllocError>
    ensures { IfOk result (StandsFor (3 ∷ rest.now)) }
{
    match Word::from_bytes(alloc, rest)? {
        Some(word) => Ok(Some(Parsed::Count { word })),
        None => Ok(None),
    }
}

/// What the key stands for, or None where it is no key of an entry.
pub fn parse_key(alloc: Global, key: &[u8]) -> Result<Option<Parsed>, AllocError>
    ensures { IfOk result (StandsFor key.now) }
{
    match key.split_first() {
        Some((1, rest)) => parse_chunk(alloc, rest),
        Some((2, rest)) => parse_occurrence(alloc, rest),
        Some((3, rest)) => parse_count(alloc, rest),
        _ => Ok(None),
    }
}
