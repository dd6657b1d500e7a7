//! Keys at which a look-up among the entries of a word begins.

ghost use Rattle.std.specs.Prelude.{◌≡◌, ◌++◌, IfOk, IsTrue};
ghost use Rattle.mm_keeper_lists.specs.Ranges.{range_key};
ghost use Rattle.mm_words.specs.Words.{is_word};

use mm_words::Word;
use std::alloc::{AllocError, Global};

/// A key of the word's range: 02, the word's bytes, 00, and these bytes with those behind them.
pub fn range_key(
    alloc: Global,
    word: &Word,
    front: &[u8],
    behind: &[u8],
) -> Result<Vec<u8>, AllocError>
    ensures key { IfOk result (λ key. key.items ≡ range_key word.now (front.now ++ behind.now)) }
    ensures word { IsTrue (is_word word.now) }
{
    let word = word.as_bytes();
    let mut key = Vec::new(alloc);
    key.push(2)?;
    key.extend_from_slice(word)?;
    key.push(0)?;
    key.extend_from_slice(front)?;
    key.extend_from_slice(behind)?;
    Ok(key)
}
