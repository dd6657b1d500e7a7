//! What is read out of a found key.

ghost use Rattle.std.specs.Prelude.{◌≡◌, Option, List, ℕ, IfOk, IfErr, MatchOption};
ghost use Rattle.mm_keeper_lists.specs.Ranges.{range_key};
ghost use Rattle.mm_keeper_lists.specs.Found.{Tells, Blames, TellsCount, BlamesCount};
ghost use Rattle.mm_keeper_lists.specs.Inside.Own.{IsOwn};

use mm_host::{Bytes, Damage, Fault};
use mm_image::count_of;
use mm_label::Label;
use mm_words::Word;
use std::alloc::Global;

/// What stands behind the word in a key of its range.
pub fn after_word<'k>(word: &Word, key: &'k [u8]) -> Option<&'k [u8]>
    ensures { MatchOption result ((r : List ℕ) → key.now ≡ range_key word.now r → ⊥) (λ rest. key.now ≡ range_key word.now rest.now) }
{
    let Some((first, behind)) = key.split_first() else {
        return None;
    };
    if *first != 2 {
        return None;
    }
    let Some(rest) = behind.strip_prefix(word.as_bytes()) else {
        return None;
    };
    let Some((zero, bytes)) = rest.split_first() else {
        return None;
    };
    if *zero != 0 {
        return None;
    }
    Some(bytes)
}

/// The label in a found key, if the key is of the word's range.
pub fn label_in(alloc: Global, word: &Word, key: &[u8]) -> Result<Option<Label>, Fault>
    ensures value { (v : List ℕ) → IfOk result (λ o. Tells word.now (Option.Some (key.now, v)) o) }
    ensures blame { (v : List ℕ) → IfErr result (λ e. Blames word.now (Option.Some (key.now, v)) e) }
    ensures own { IfErr result IsOwn }
{
    let Some(bytes) = after_word(word, key) else {
        return Ok(None);
    };
    match Label::from_bytes(alloc, bytes)? {
        Some(label) => Ok(Some(label)),
        None => Err(Fault::Damaged(Damage::Key {
            key: Bytes::from_slice(alloc, key)?,
        })),
    }
}

/// The number in a count's value.
pub fn count_in(alloc: Global, key: &[u8], value: &[u8]) -> Result<u64, Fault>
    ensures value { IfOk result (λ n. TellsCount (Option.Some (key.now, value.now)) n) }
    ensures blame { IfErr result (λ e. BlamesCount (Option.Some (key.now, value.now)) e) }
    ensures own { IfErr result IsOwn }
{
    match count_of(value) {
        Some(count) => Ok(count),
        None => Err(Fault::Damaged(Damage::Key {
            key: Bytes::from_slice(alloc, key)?,
        })),
    }
}
