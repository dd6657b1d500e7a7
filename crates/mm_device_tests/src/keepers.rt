//! A sorted map, a keeper in memory and a cursor, once through each call, and where a keeper fails.
ghost use Rattle.std.specs.Prelude.{◌≡◌, ◌<◌, ◌↔◌, IfSome, length};

use mm_host::Fault;
use mm_keeper::{Cursor, Item, Keeper, SortedMap, VecKeeper};
use mm_steps::Steps;
use std::alloc::{AllocError, Global};
use std::marker::Brand;
use std::sync::ledger::{Blank, Ledger};
use std::test::Fail;

// Puts an entry into a small map.
#[tactic(auto, using(mm_keeper::specs::Facts::InRange::put_weighs))]
fn set(map: &mut SortedMap, key: &[u8], value: &[u8]) -> Result<Option<Item>, AllocError> {
    if map.weight() > 1000 || key.len() > 100 || value.len() > 100 {
        return Ok(None);
    }
    map.put(key, value)
}

// Puts an entry into a small keeper.
#[tactic(auto, using(mm_keeper::specs::Facts::InRange::put_weighs))]
pub fn put<K: Keeper, L: Ledger>(
    keeper: &mut K,
    key: &[u8],
    value: &[u8],
    steps: &mut Steps<L>,
) -> bool
    requires { K.is_sound keeper.old }
    ensures sound { K.is_sound keeper.new }
    ensures maps { K.has_maps keeper.old ↔ K.has_maps keeper.new }
{
    let is_small = keeper.weight() <= 100_000 && key.len() <= 800 && value.len() <= 1024;
    if key.is_empty() || !is_small {
        return false;
    }
    keeper.put(key, value, steps).is_ok()
}

// Writes the entry at a spot.
fn show<K: Keeper>(keeper: &mut K, spot: Option<K::Spot>, text: &mut Vec<u8>) -> bool
    requires sound { K.is_sound keeper.old }
    requires maps { K.has_maps keeper.old }
    requires stands { IfSome spot (λ s. (K.seen keeper.old).place s < length (K.seen keeper.old).now) }
    ensures sound { K.is_sound keeper.new }
    ensures maps { K.has_maps keeper.new }
    ensures same { K.seen keeper.new ≡ K.seen keeper.old }
{
    match spot {
        Some(spot) => match keeper.entry(spot) {
            Ok(entry) => {
                text.extend_from_slice(entry.key).is_ok()
                    && text.extend_from_slice(entry.value).is_ok()
            }
            Err(_) => false,
        },
        None => text.push(b'-').is_ok(),
    }
}

// Writes the entry of a key, the first at or above it and the last at or below it.
#[tactic(auto, using(mm_keeper::specs::Facts::InRange::index_in_range, mm_keeper::specs::Facts::InRange::first_in_range, mm_keeper::specs::Facts::InRange::last_in_range))]
fn look<K: Keeper, L: Ledger>(
    keeper: &mut K,
    key: &[u8],
    steps: &mut Steps<L>,
    text: &mut Vec<u8>,
) -> Result<bool, Fault>
    requires sound { K.is_sound keeper.old }
    requires maps { K.has_maps keeper.old }
    ensures sound { K.is_sound keeper.new }
    ensures maps { K.has_maps keeper.new }
{
    let spot = keeper.get(key, steps)?;
    let got = show(keeper, spot, text);
    let spot = keeper.up(key, steps)?;
    let went_up = show(keeper, spot, text);
    let spot = keeper.down(key, steps)?;
    Ok(got && went_up && show(keeper, spot, text))
}

// Writes the entries after and before that of a key.
#[tactic(auto, using(mm_keeper::specs::Facts::InRange::index_in_range, mm_keeper::specs::Facts::InRange::next_in_range, mm_keeper::specs::Facts::InRange::before_in_range))]
fn look_beside<K: Keeper, L: Ledger>(
    keeper: &mut K,
    key: &[u8],
    steps: &mut Steps<L>,
    text: &mut Vec<u8>,
) -> Result<bool, Fault>
    requires sound { K.is_sound keeper.old }
    requires maps { K.has_maps keeper.old }
    ensures sound { K.is_sound keeper.new }
    ensures maps { K.has_maps keeper.new }
{
    match keeper.get(key, steps)? {
        Some(spot) => {
            let next = keeper.after(spot, steps)?;
            let shown = show(keeper, next, text);
            let last = keeper.before(spot, steps)?;
            Ok(shown && show(keeper, last, text))
        }
        None => Ok(false),
    }
}

// Writes the keys from the first on, and the value of the last.
#[tactic(auto, using(mm_keeper::specs::Facts::InRange::first_in_range, mm_keeper::specs::Facts::InRange::last_in_range, mm_keeper::specs::Facts::InRange::next_in_range, mm_keeper::specs::Facts::InRange::before_in_range))]
fn walk<K: Keeper, L: Ledger>(
    keeper: &mut K,
    steps: &mut Steps<L>,
    text: &mut Vec<u8>,
) -> Result<bool, Fault>
    requires sound { K.is_sound keeper.old }
    requires maps { K.has_maps keeper.old }
{
    let mut cursor = Cursor::new(keeper);
    let stood = cursor.stands();
    if !cursor.seek(b"", steps)? {
        return Ok(false);
    }
    match cursor.key() {
        Ok(key) => text.extend_from_slice(key)?,
        Err(error) => return Err(error.into_fault()),
    }
    if !cursor.next(steps)? {
        return Ok(false);
    }
    match cursor.value() {
        Ok(value) => text.extend_from_slice(value)?,
        Err(error) => return Err(error.into_fault()),
    }
    let went_on = cursor.next(steps)?;
    let found = cursor.seek_back(b"c", steps)?;
    if !found {
        return Ok(false);
    }
    let went_back = cursor.back(steps)?;
    Ok(!stood && !went_on && !went_back && !cursor.stands())
}

// The weight after each change of a map, the length of the value that was replaced, and of an entry that was taken out.
fn weigh(alloc: Global) -> Result<[u64; 5], AllocError> {
    let mut map = SortedMap::new(alloc);
    let none = set(&mut map, b"key", b"1")?.is_none();
    let first = map.weight();
    let replaced = set(&mut map, b"key", b"234")?.map_or(0, |item| item.value().len() as u64);
    let second = map.weight();
    let taken = map.remove(b"key").map_or(0, |item| item.key().len() as u64);
    let whole = if none { map.weight() } else { 1 };
    Ok([first, replaced, second, taken, whole])
}

// Puts three entries, of which two have one key.
fn fill<K: Keeper, L: Ledger>(keeper: &mut K, steps: &mut Steps<L>) -> bool
    requires { K.is_sound keeper.old }
    ensures sound { K.is_sound keeper.new }
    ensures maps { K.has_maps keeper.old ↔ K.has_maps keeper.new }
{
    put(keeper, b"d", b"2", steps)
        && put(keeper, b"b", b"1", steps)
        && put(keeper, b"b", b"3", steps)
}

// What stands where in a keeper with two entries.
fn found<L: Ledger>(alloc: Global, blank: Blank) -> Result<(bool, Vec<u8>), Fault>
    requires name { blank.name ≡ L.name }
    requires parts { blank.parts ≡ L.parts }
    requires some { 0 < blank.parts }
{
    let mut steps = Steps::<L>::new(blank);
    let mut keeper = VecKeeper::new(Vec::new(alloc));
    let mut text = Vec::new(alloc);
    let filled = fill(&mut keeper, &mut steps);
    let at = look(&mut keeper, b"b", &mut steps, &mut text)?;
    let between = look(&mut keeper, b"c", &mut steps, &mut text)?;
    let beside = look_beside(&mut keeper, b"b", &mut steps, &mut text)?;
    let walked = walk(&mut keeper, &mut steps, &mut text)?;
    Ok((filled && at && between && beside && walked, text))
}

fn found_uncounted(alloc: Global) -> Result<(bool, Vec<u8>), Fault> {
    found::<Brand>(alloc, Blank::new(1))
}

// The answers of a remove and of the same once more, and after a commit and a tick the weight and both counts.
fn left<L: Ledger>(alloc: Global, blank: Blank) -> Result<(bool, bool, [u64; 3]), Fault>
    requires name { blank.name ≡ L.name }
    requires parts { blank.parts ≡ L.parts }
    requires some { 0 < blank.parts }
{
    let mut steps = Steps::<L>::new(blank);
    let mut keeper = VecKeeper::new(Vec::new(alloc));
    let filled = fill(&mut keeper, &mut steps);
    let held = keeper.remove(b"d", &mut steps)?;
    let again = keeper.remove(b"d", &mut steps)?;
    keeper.commit()?;
    keeper.tick(1)?;
    let numbers = [keeper.weight(), keeper.faults(), keeper.wants()];
    Ok((filled && held, again, numbers))
}

fn left_uncounted(alloc: Global) -> Result<(bool, bool, [u64; 3]), Fault> {
    left::<Brand>(alloc, Blank::new(1))
}

// Whether each call of a keeper answers that it is spent.
fn is_spent<K: Keeper, L: Ledger>(keeper: &mut K, steps: &mut Steps<L>) -> bool
    requires { K.is_sound keeper.old }
    ensures { K.is_sound keeper.new }
{
    let got = matches!(keeper.get(b"a", steps), Err(Fault::Spent));
    let went = matches!(keeper.up(b"a", steps), Err(Fault::Spent))
        && matches!(keeper.down(b"a", steps), Err(Fault::Spent));
    let removed = matches!(keeper.remove(b"a", steps), Err(Fault::Spent));
    let kept = matches!(keeper.commit(), Err(Fault::Spent))
        && matches!(keeper.tick(1), Err(Fault::Spent));
    got && went && removed && kept && !put(keeper, b"a", b"", steps)
}

// Whether the first call is answered and the second fails, whether each later one is refused, and how often the keeper failed.
fn fail<L: Ledger>(failing: Vec<u64>, blank: Blank) -> (bool, bool, bool, u64)
    requires name { blank.name ≡ L.name }
    requires parts { blank.parts ≡ L.parts }
    requires some { 0 < blank.parts }
{
    let mut steps = Steps::<L>::new(blank);
    let mut keeper = VecKeeper::new(failing);
    let first = keeper.get(b"a", &mut steps).is_ok();
    let second = matches!(keeper.commit(), Err(Fault::DiskFault));
    let spent = is_spent(&mut keeper, &mut steps);
    (first, second, spent, keeper.faults())
}

fn fail_uncounted(failing: Vec<u64>) -> (bool, bool, bool, u64) {
    fail::<Brand>(failing, Blank::new(1))
}

// The lengths of the key and the value of an entry that is owned.
fn lengths(alloc: Global) -> Result<[usize; 2], AllocError> {
    let item = Item::new(alloc, b"key", b"value")?;
    Ok([item.key().len(), item.value().len()])
}

#[test]
fn entries_are_kept_in_order(rt: HostRuntime) -> Result<(), Fail> {
    assert_eq!(rt; lengths(rt.alloc())?, [3, 5]);
    assert_eq!(rt; weigh(rt.alloc())?, [4, 1, 6, 3, 0]);
    let (is_done, text) = found_uncounted(rt.alloc())?;
    assert!(rt; is_done);
    assert_eq!(rt; text.as_slice(), b"b3b3b3-d2b3d2-b2".as_slice());
    assert_eq!(rt; left_uncounted(rt.alloc())?, (true, false, [2, 0, 0]));
    Ok(())
}

#[test]
fn a_listed_call_fails_and_each_later_one_is_spent(rt: HostRuntime) -> Result<(), Fail> {
    let failing = Vec::from_slice(rt.alloc(), &[2])?;
    assert_eq!(rt; fail_uncounted(failing), (true, true, true, 1));
    Ok(())
}
