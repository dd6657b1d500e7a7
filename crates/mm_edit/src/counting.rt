//! Counts of words, before an edit and after it.

ghost use Rattle.std.specs.Prelude.{◌≡◌, Option, Some, ◌+◌, ◌<◌, ◌≤◌, ◌++◌, IfOk, IfErr, OnOk, OnErr, length, map, slice_get};
ghost use Rattle.mm_host.specs.declared.damage.Fault.{Fault};
ghost use Rattle.mm_image.specs.Ground.{Accounts, SameGround};
ghost use Rattle.mm_image.specs.Keyed.{keyed};
ghost use Rattle.mm_image.specs.Keys.{count_key};
ghost use Rattle.mm_keeper.specs.Keeping.{fault_of};
ghost use Rattle.mm_edit.specs.Inside.Counting.{AreTold, BlamesCount, BlamesCounts, BlamesNumber, IsOwn, TellsNumber, count_entry, counts_held, counts_left, number_held};
ghost use Rattle.mm_edit.specs.Plans.{AreSized};

use crate::changing::WordChange;
use mm_host::{Bytes, Damage, Fault};
use mm_image::{Entries, Entry, count_key, count_of};
use mm_keeper::Keeper;
use mm_steps::Steps;
use mm_words::Word;
use std::alloc::{AllocError, Global};
use std::sync::ledger::Ledger;

/// The number in the value of a count's entry.
fn number_in(alloc: Global, key: &[u8], value: &[u8]) -> Result<u64, Fault>
    ensures value { IfOk result (λ n. TellsNumber (Option.Some (key.now, value.now)) n) }
    ensures damaged { IfErr result (BlamesNumber (Option.Some (key.now, value.now))) }
    ensures own { IfErr result IsOwn }
{
    match count_of(value) {
        Some(number) => Ok(number),
        None => Err(Fault::Damaged(Damage::Key {
            key: Bytes::from_slice(alloc, key)?,
        })),
    }
}

/// The number in the entry at a spot.
fn held_at<K: Keeper>(alloc: Global, keeper: &mut K, spot: K::Spot) -> Result<u64, Fault>
    requires sound { K.is_sound keeper.old }
    requires stands { K.has_maps keeper.old → (K.seen keeper.old).place spot < length (K.seen keeper.old).now }
    ensures number { K.has_maps keeper.old → IfOk result (λ n. TellsNumber (slice_get (K.seen keeper.old).now ((K.seen keeper.old).place spot)) n) }
    ensures damaged { K.has_maps keeper.old → IfErr result (BlamesNumber (slice_get (K.seen keeper.old).now ((K.seen keeper.old).place spot))) }
    ensures ground { SameGround K.over K.has_maps K.tells K.seen K.written K.changes K.moment K.left_since keeper.old keeper.new }
    ensures accounts { Accounts K.is_sound K.is_spent K.fault_count K.want_count keeper.old keeper.new (fault_of result) }
{
    match keeper.entry(spot) {
        Ok(entry) => number_in(alloc, entry.key, entry.value),
        Err(error) => Err(error.into_fault()),
    }
}

/// How many nodes hold the word by its count in the map, by one look-up.
#[tactic(auto, using(mm_keeper::specs::Facts::InRange::index_in_range))]
fn held_count<K: Keeper, L: Ledger>(
    alloc: Global,
    keeper: &mut K,
    word: &Word,
    steps: &mut Steps<L>,
) -> Result<u64, Fault>
    requires { K.is_sound keeper.old }
    ensures number { K.has_maps keeper.old → IfOk result (λ n. number_held (K.seen keeper.old).now word.now ≡ Some n) }
    ensures damaged { K.has_maps keeper.old → IfErr result (BlamesCount (K.seen keeper.old).now word.now) }
    ensures ground { SameGround K.over K.has_maps K.tells K.seen K.written K.changes K.moment K.left_since keeper.old keeper.new }
    ensures accounts { Accounts K.is_sound K.is_spent K.fault_count K.want_count keeper.old keeper.new (fault_of result) }
    ensures cost { steps.new ≤ steps.old + 1 }
{
    let key = count_key(alloc, word)?;
    match keeper.get(key.as_slice(), steps)? {
        Some(spot) => held_at(alloc, keeper, spot),
        None => Ok(0),
    }
}

/// Puts the entry of a count, where it isn't 0.
fn push_count(
    alloc: Global,
    entries: &mut Entries,
    word: &Word,
    number: u64,
) -> Result<(), AllocError>
    ensures put { OnOk result (keyed entries.new ≡ keyed entries.old ++ count_entry word.now number) }
    ensures sized { AreSized (keyed entries.old) → OnOk result (AreSized (keyed entries.new)) }
{
    let _spelled = word.as_bytes();
    if number > 0 {
        let key = count_key(alloc, word)?;
        let value = Bytes::from_slice(alloc, &number.to_be_bytes())?;
        entries.push(Entry { key, value })?;
    }
    Ok(())
}

/// Puts the counts of these words behind the one list, and behind the other those that the change leaves.
pub fn push_counts<K: Keeper, L: Ledger>(
    alloc: Global,
    keeper: &mut K,
    words: &[WordChange],
    before: &mut Entries,
    after: &mut Entries,
    steps: &mut Steps<L>,
) -> Result<(), Fault>
    requires { K.is_sound keeper.old }
    ensures before { K.has_maps keeper.old → OnOk result (keyed before.new ≡ keyed before.old ++ counts_held (K.seen keeper.old).now words.now) }
    ensures after { K.has_maps keeper.old → OnOk result (keyed after.new ≡ keyed after.old ++ counts_left (K.seen keeper.old).now words.now) }
    ensures told { K.has_maps keeper.old → OnOk result (AreTold (K.seen keeper.old).now words.now) }
    ensures sized { AreSized (keyed after.old) → OnOk result (AreSized (keyed after.new)) }
    ensures damaged { K.has_maps keeper.old → IfErr result (BlamesCounts (K.seen keeper.old).now words.now) }
    ensures ground { SameGround K.over K.has_maps K.tells K.seen K.written K.changes K.moment K.left_since keeper.old keeper.new }
    ensures accounts { Accounts K.is_sound K.is_spent K.fault_count K.want_count keeper.old keeper.new (fault_of result) }
    ensures cost { steps.new ≤ steps.old + length words.now }
{
    for change in words {
        let held = held_count(alloc, keeper, &change.word, steps)?;
        let left = held
            .saturating_sub(change.taken)
            .saturating_add(change.given);
        push_count(alloc, before, &change.word, held)?;
        push_count(alloc, after, &change.word, left)?;
    }
    Ok(())
}
