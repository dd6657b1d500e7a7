//! The entries of words: those that stand there beside those that are due.

ghost use Rattle.std.specs.Prelude.{◌≡◌, ◌≤◌, ◌<◌, ◌+◌, ◌∷◌, ◌++◌, [], IfErr, IfOk, IfSome, None, Some, flat_map, length, map, option_map, slice_get};
ghost use Rattle.std.specs.BTreeMap.{IsOrdered};
ghost use Rattle.std.specs.Ordering.{nat_cmp};
ghost use Rattle.std.specs.Cmp.Lexicographic.{slice_cmp};
ghost use Rattle.byteorder.specs.Endian.{big_bytes};
ghost use Rattle.mm_keeper.specs.Entries.{Entries, Entry};
ghost use Rattle.mm_image.specs.Ground.{Accounts, SameGround};
ghost use Rattle.mm_check.specs.Blame.{first_difference};
ghost use Rattle.mm_check.specs.Inside.Stopping.{GoesOn, WantsAlone, counted_list, fault_in, from, listed};

use crate::stop::{Stop, not_due, not_there, other_value};
use byteorder::{BigEndian, ByteOrder};
use mm_image::{count_key, occurrence_key};
use mm_keeper::{EntryRef, Keeper};
use mm_label::Label;
use mm_steps::Steps;
use mm_tree::KeywordLists;
use mm_words::Word;
use std::alloc::Global;
use std::cmp::Ordering;
use std::sync::ledger::Ledger;

/// Names what differs, if anything does: the entry that stands there, or the one that is due.
fn compare(alloc: Global, entry: EntryRef<'_>, key: &[u8], value: &[u8]) -> Result<(), Stop>
    ensures differs { (stored due : Entries) → GoesOn (first_difference ((entry.entry.key.now, entry.entry.value.now) ∷ stored) ((key.now, value.now) ∷ due)) (λ _. first_difference stored due) result }
    ensures wants { IfErr result WantsAlone }
{
    let named = match entry.key.cmp(key) {
        Ordering::Less => not_due(alloc, entry.key, entry.value)?,
        Ordering::Greater => not_there(alloc, key, value)?,
        Ordering::Equal => {
            if entry.value == value {
                return Ok(());
            }
            other_value(alloc, entry, value)?
        }
    };
    Err(Stop::Named(named))
}

/// Names what differs at the spot, if anything does.
fn compare_at<K: Keeper>(
    alloc: Global,
    keeper: &mut K,
    spot: K::Spot,
    key: &[u8],
    value: &[u8],
) -> Result<(), Stop>
    requires sound { K.is_sound keeper.old }
    requires stands { K.has_maps keeper.old → (K.seen keeper.old).place spot < length (K.seen keeper.old).now }
    ensures differs { K.has_maps keeper.old → (e : Entry) → slice_get (K.seen keeper.old).now ((K.seen keeper.old).place spot) ≡ Some e
        → (stored due : Entries) → GoesOn (first_difference (e ∷ stored) ((key.now, value.now) ∷ due)) (λ _. first_difference stored due) result }
    ensures ground { SameGround K.over K.has_maps K.tells K.seen K.written K.changes K.moment K.left_since keeper.old keeper.new }
    ensures accounts { Accounts K.is_sound K.is_spent K.fault_count K.want_count keeper.old keeper.new (fault_in result) }
{
    match keeper.entry(spot) {
        Ok(entry) => compare(alloc, entry, key, value),
        Err(error) => Err(Stop::Fault(error.into_fault())),
    }
}

/// Goes on over the entry that is due, which must stand at the place.
fn expect<K: Keeper, L: Ledger>(
    alloc: Global,
    keeper: &mut K,
    at: Option<K::Spot>,
    key: &[u8],
    value: &[u8],
    steps: &mut Steps<L>,
) -> Result<Option<K::Spot>, Stop>
    requires sound { K.is_sound keeper.old }
    requires stands { K.has_maps keeper.old → IfSome at (λ s. (K.seen keeper.old).place s < length (K.seen keeper.old).now) }
    ensures differs { K.has_maps keeper.old → (due : Entries) → GoesOn (first_difference (from (K.seen keeper.old).now (option_map (K.seen keeper.old).place at)) ((key.now, value.now) ∷ due)) (λ next. first_difference (from (K.seen keeper.old).now (option_map (K.seen keeper.old).place next)) due) result }
    ensures stands { K.has_maps keeper.old → IfOk result (λ next. IfSome next (λ s. (K.seen keeper.old).place s < length (K.seen keeper.old).now)) }
    ensures cost { K.has_maps keeper.old → steps.new ≤ steps.old + length (from (K.seen keeper.old).now (option_map (K.seen keeper.old).place at)) }
    ensures left { K.has_maps keeper.old → IfOk result (λ next. steps.new + length (from (K.seen keeper.old).now (option_map (K.seen keeper.old).place next)) ≤ steps.old + length (from (K.seen keeper.old).now (option_map (K.seen keeper.old).place at))) }
    ensures ground { SameGround K.over K.has_maps K.tells K.seen K.written K.changes K.moment K.left_since keeper.old keeper.new }
    ensures accounts { Accounts K.is_sound K.is_spent K.fault_count K.want_count keeper.old keeper.new (fault_in result) }
{
    let Some(spot) = at else {
        return Err(Stop::Named(not_there(alloc, key, value)?));
    };
    compare_at(alloc, keeper, spot, key, value)?;
    Ok(keeper.after(spot, steps)?)
}

/// Goes on over the occurrences of a word.
fn expect_word<K: Keeper, L: Ledger>(
    alloc: Global,
    keeper: &mut K,
    at: Option<K::Spot>,
    word: &Word,
    labels: &[Label],
    steps: &mut Steps<L>,
) -> Result<Option<K::Spot>, Stop>
    requires sound { K.is_sound keeper.old }
    requires stands { K.has_maps keeper.old → IfSome at (λ s. (K.seen keeper.old).place s < length (K.seen keeper.old).now) }
    ensures differs { K.has_maps keeper.old → (due : Entries) → GoesOn (first_difference (from (K.seen keeper.old).now (option_map (K.seen keeper.old).place at)) (listed (word.now, labels.now) ++ due)) (λ next. first_difference (from (K.seen keeper.old).now (option_map (K.seen keeper.old).place next)) due) result }
    ensures stands { K.has_maps keeper.old → IfOk result (λ next. IfSome next (λ s. (K.seen keeper.old).place s < length (K.seen keeper.old).now)) }
    ensures cost { K.has_maps keeper.old → steps.new ≤ steps.old + length (from (K.seen keeper.old).now (option_map (K.seen keeper.old).place at)) }
    ensures left { K.has_maps keeper.old → IfOk result (λ next. steps.new + length (from (K.seen keeper.old).now (option_map (K.seen keeper.old).place next)) ≤ steps.old + length (from (K.seen keeper.old).now (option_map (K.seen keeper.old).place at))) }
    ensures ground { SameGround K.over K.has_maps K.tells K.seen K.written K.changes K.moment K.left_since keeper.old keeper.new }
    ensures accounts { Accounts K.is_sound K.is_spent K.fault_count K.want_count keeper.old keeper.new (fault_in result) }
{
    let mut at = at;
    for label in labels {
        let key = occurrence_key(alloc, word, label)?;
        at = expect(alloc, keeper, at, key.as_slice(), &[], steps)?;
    }
    Ok(at)
}

/// Goes on over the occurrences of all words.
pub fn expect_occurrences<K: Keeper, L: Ledger>(
    alloc: Global,
    keeper: &mut K,
    at: Option<K::Spot>,
    lists: &KeywordLists,
    steps: &mut Steps<L>,
) -> Result<Option<K::Spot>, Stop>
    requires sound { K.is_sound keeper.old }
    requires stands { K.has_maps keeper.old → IfSome at (λ s. (K.seen keeper.old).place s < length (K.seen keeper.old).now) }
    ensures differs { K.has_maps keeper.old → (due : Entries) → GoesOn (first_difference (from (K.seen keeper.old).now (option_map (K.seen keeper.old).place at)) (flat_map listed lists.now.entries ++ due)) (λ next. first_difference (from (K.seen keeper.old).now (option_map (K.seen keeper.old).place next)) due) result }
    ensures ordered { IsOrdered (slice_cmp nat_cmp) lists.now }
    ensures stands { K.has_maps keeper.old → IfOk result (λ next. IfSome next (λ s. (K.seen keeper.old).place s < length (K.seen keeper.old).now)) }
    ensures cost { K.has_maps keeper.old → steps.new ≤ steps.old + length (from (K.seen keeper.old).now (option_map (K.seen keeper.old).place at)) }
    ensures left { K.has_maps keeper.old → IfOk result (λ next. steps.new + length (from (K.seen keeper.old).now (option_map (K.seen keeper.old).place next)) ≤ steps.old + length (from (K.seen keeper.old).now (option_map (K.seen keeper.old).place at))) }
    ensures ground { SameGround K.over K.has_maps K.tells K.seen K.written K.changes K.moment K.left_since keeper.old keeper.new }
    ensures accounts { Accounts K.is_sound K.is_spent K.fault_count K.want_count keeper.old keeper.new (fault_in result) }
{
    let mut at = at;
    for (word, labels) in lists {
        at = expect_word(alloc, keeper, at, word, labels.as_slice(), steps)?;
    }
    Ok(at)
}

/// The value of a word's count: the number in eight bytes.
fn count_value(count: u64) -> [u8; 8]
    ensures { result ≡ big_bytes 8 count }
{
    let mut value = [0u8; 8];
    BigEndian::write_u64(&mut value, count);
    value
}

/// Goes on over the counts of all words.
pub fn expect_counts<K: Keeper, L: Ledger>(
    alloc: Global,
    keeper: &mut K,
    at: Option<K::Spot>,
    lists: &KeywordLists,
    steps: &mut Steps<L>,
) -> Result<Option<K::Spot>, Stop>
    requires sound { K.is_sound keeper.old }
    requires stands { K.has_maps keeper.old → IfSome at (λ s. (K.seen keeper.old).place s < length (K.seen keeper.old).now) }
    ensures differs { K.has_maps keeper.old → (due : Entries) → GoesOn (first_difference (from (K.seen keeper.old).now (option_map (K.seen keeper.old).place at)) (map counted_list lists.now.entries ++ due)) (λ next. first_difference (from (K.seen keeper.old).now (option_map (K.seen keeper.old).place next)) due) result }
    ensures stands { K.has_maps keeper.old → IfOk result (λ next. IfSome next (λ s. (K.seen keeper.old).place s < length (K.seen keeper.old).now)) }
    ensures cost { K.has_maps keeper.old → steps.new ≤ steps.old + length (from (K.seen keeper.old).now (option_map (K.seen keeper.old).place at)) }
    ensures left { K.has_maps keeper.old → IfOk result (λ next. steps.new + length (from (K.seen keeper.old).now (option_map (K.seen keeper.old).place next)) ≤ steps.old + length (from (K.seen keeper.old).now (option_map (K.seen keeper.old).place at))) }
    ensures ground { SameGround K.over K.has_maps K.tells K.seen K.written K.changes K.moment K.left_since keeper.old keeper.new }
    ensures accounts { Accounts K.is_sound K.is_spent K.fault_count K.want_count keeper.old keeper.new (fault_in result) }
{
    let mut at = at;
    for (word, labels) in lists {
        let key = count_key(alloc, word)?;
        let count = count_value(labels.len() as u64);
        at = expect(alloc, keeper, at, key.as_slice(), &count, steps)?;
    }
    Ok(at)
}

/// Names the entry at the place, where none is due.
pub fn expect_none<K: Keeper>(
    alloc: Global,
    keeper: &mut K,
    at: Option<K::Spot>,
) -> Result<(), Stop>
    requires sound { K.is_sound keeper.old }
    requires stands { K.has_maps keeper.old → IfSome at (λ s. (K.seen keeper.old).place s < length (K.seen keeper.old).now) }
    ensures differs { K.has_maps keeper.old → GoesOn (first_difference (from (K.seen keeper.old).now (option_map (K.seen keeper.old).place at)) []) (λ _. None) result }
    ensures ground { SameGround K.over K.has_maps K.tells K.seen K.written K.changes K.moment K.left_since keeper.old keeper.new }
    ensures accounts { Accounts K.is_sound K.is_spent K.fault_count K.want_count keeper.old keeper.new (fault_in result) }
{
    let Some(spot) = at else {
        return Ok(());
    };
    match keeper.entry(spot) {
        Ok(entry) => Err(Stop::Named(not_due(alloc, entry.key, entry.value)?)),
        Err(error) => Err(Stop::Fault(error.into_fault())),
    }
}
