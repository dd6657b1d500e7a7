//! The keys of a forest's entries.

ghost use Rattle.std.specs.Prelude.{◌≡◌, IfOk};
ghost use Rattle.mm_image.specs.Keys.{chunk_key, occurrence_key, count_key};

use byteorder::{BigEndian, ByteOrder};
use mm_host::Bytes;
use mm_label::Label;
use mm_words::Word;
use std::alloc::{AllocError, Global};

/// The byte that ends a word in a key.
const WORD_END: u8 = 0;

/// The key of a piece of a node's content: 01, the label's bytes, 00, the number in four bytes.
pub fn chunk_key(alloc: Global, label: &Label, number: u32) -> Result<Bytes, AllocError>
    ensures { IfOk result (λ key. key ≡ chunk_key label.now number) }
{
    let mut spelled = [0u8; 4];
    BigEndian::write_u32(&mut spelled, number);
    let label = label.as_bytes();
    let mut key = Vec::with_capacity(alloc, label.len() + 6)?;
    key.push(1)?;
    key.extend_from_slice(label)?;
    key.push(0)?;
    key.extend_from_slice(&spelled)?;
    Ok(Bytes::from_vec(key))
}

/// The key of a word and a node that holds it: 02, the word's bytes, 00, the label's bytes.
pub fn occurrence_key(alloc: Global, word: &Word, label: &Label) -> Result<Bytes, AllocError>
    ensures { IfOk result (λ key. key ≡ occurrence_key word.now label.now) }
{
    let word = word.as_bytes();
    let label = label.as_bytes();
    let mut key = Vec::with_capacity(alloc, word.len() + label.len() + 2)?;
    key.push(2)?;
    key.extend_from_slice(word)?;
    key.push(WORD_END)?;
    key.extend_from_slice(label)?;
    Ok(Bytes::from_vec(key))
}

/// The key of a word's count: 03, the word's bytes.
pub fn count_key(alloc: Global, word: &Word) -> Result<Bytes, AllocError>
    ensures { IfOk result (λ key. key ≡ count_key word.now) }
{
    let word = word.as_bytes();
    let mut key = Vec::with_capacity(alloc, word.len() + 1)?;
    key.push(3)?;
    key.extend_from_slice(word)?;
    Ok(Bytes::from_vec(key))
}
