//! The label and the count at a place of a keeper's map.

ghost use Rattle.std.specs.Prelude.{◌≡◌, ◌<◌, Option, IfOk, IfErr, length, slice_get};
ghost use Rattle.mm_keeper_lists.specs.Found.{Tells, Blames, TellsCount, BlamesCount};
ghost use Rattle.mm_image.specs.Ground.{SameGround};
ghost use Rattle.mm_lists.specs.Causes.{Caused};

use crate::reading::{count_in, label_in};
use mm_host::Fault;
use mm_keeper::Keeper;
use mm_label::Label;
use mm_words::Word;
use std::alloc::Global;

/// The label in the key at a spot, if the key is of the word's range.
pub fn label_at<K: Keeper>(
    alloc: Global,
    keeper: &mut K,
    word: &Word,
    spot: K::Spot,
) -> Result<Option<Label>, Fault>
    requires sound { K.is_sound keeper.old }
    requires stands { K.has_maps keeper.old → (K.seen keeper.old).place spot < length (K.seen keeper.old).now }
    ensures value { K.has_maps keeper.old → IfOk result (λ o. Tells word.now (slice_get (K.seen keeper.old).now ((K.seen keeper.old).place spot)) o) }
    ensures blame { K.has_maps keeper.old → IfErr result (λ e. Blames word.now (slice_get (K.seen keeper.old).now ((K.seen keeper.old).place spot)) e) }
    ensures sound { K.is_sound keeper.new }
    ensures ground { SameGround K.over K.has_maps K.tells K.seen K.written K.changes K.moment K.left_since keeper.old keeper.new }
    ensures cause { Caused (K.fault_count keeper.old) (K.fault_count keeper.new) (K.is_spent keeper.old) (K.is_spent keeper.new) result }
{
    match keeper.entry(spot) {
        Ok(entry) => label_in(alloc, word, entry.key),
        Err(error) => Err(error.into_fault()),
    }
}

/// The number in the value at a spot.
pub fn count_at<K: Keeper>(alloc: Global, keeper: &mut K, spot: K::Spot) -> Result<u64, Fault>
    requires sound { K.is_sound keeper.old }
    requires stands { K.has_maps keeper.old → (K.seen keeper.old).place spot < length (K.seen keeper.old).now }
    ensures value { K.has_maps keeper.old → IfOk result (λ n. TellsCount (slice_get (K.seen keeper.old).now ((K.seen keeper.old).place spot)) n) }
    ensures blame { K.has_maps keeper.old → IfErr result (λ e. BlamesCount (slice_get (K.seen keeper.old).now ((K.seen keeper.old).place spot)) e) }
    ensures sound { K.is_sound keeper.new }
    ensures ground { SameGround K.over K.has_maps K.tells K.seen K.written K.changes K.moment K.left_since keeper.old keeper.new }
    ensures cause { Caused (K.fault_count keeper.old) (K.fault_count keeper.new) (K.is_spent keeper.old) (K.is_spent keeper.new) result }
{
    match keeper.entry(spot) {
        Ok(entry) => count_in(alloc, entry.key, entry.value),
        Err(error) => Err(error.into_fault()),
    }
}
