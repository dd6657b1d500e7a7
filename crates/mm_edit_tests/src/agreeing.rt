//! Edits by plans beside the same edits of a forest in memory.

ghost use Rattle.std.specs.Prelude.{◌≡◌, ◌<◌};

use crate::edits::{Edit, WIDE, accepted, label, perform, refused, tree};
use mm_edit::EditError;
use mm_examples::documents::BIBLIOGRAPHY;
use mm_host::Bytes;
use mm_image::{Entries, Entry, count_key, entries};
use mm_keeper::{Keeper, VecKeeper};
use mm_steps::Steps;
use mm_tree::{Done, Forest, Place, TreeError, keyword_lists};
use std::alloc::{AllocError, Global};
use std::marker::Brand;
use std::sync::ledger::{Blank, Ledger};
use std::test::Fail;

fn edited(alloc: Global, edit: Edit<'_>, forest: &mut Forest) -> Result<Done, TreeError> {
    match edit {
        Edit::Load(text) => forest.load(alloc, tree(alloc, text)?),
        Edit::Insert(place, target, text) => {
            let target = label(alloc, target)?;
            forest.insert(alloc, place, &target, tree(alloc, text)?)
        }
        Edit::Delete(target) => forest.delete(alloc, &label(alloc, target)?),
        Edit::Replace(target, text) => {
            let target = label(alloc, target)?;
            forest.replace(alloc, &target, tree(alloc, text)?)
        }
    }
}

/// The reply to the edit in memory.
fn remembered(alloc: Global, edit: Edit<'_>, forest: &mut Forest) -> Result<String, AllocError> {
    match edited(alloc, edit, forest) {
        Ok(done) => accepted(alloc, &done),
        Err(error) => refused(alloc, &EditError::from(error)),
    }
}

/// The entry of a count.
fn counted(alloc: Global, key: Bytes, count: u64) -> Result<Entry, AllocError> {
    Ok(Entry {
        key,
        value: Bytes::from_slice(alloc, &count.to_be_bytes())?,
    })
}

/// The chunk and occurrence entries of all trees.
fn tree_entries(alloc: Global, forest: &Forest) -> Result<Entries, AllocError> {
    entries(alloc, forest.trees())
}

/// The image of the forest: the entries of all trees, and behind them the counts of all words.
fn image(alloc: Global, forest: &Forest) -> Result<Entries, AllocError> {
    let mut image = tree_entries(alloc, forest)?;
    for (word, labels) in &keyword_lists(alloc, forest.trees())? {
        let key = count_key(alloc, word)?;
        image.push(counted(alloc, key, labels.len() as u64)?)?;
    }
    Ok(image)
}

#[tactic(auto, using(mm_keeper::specs::Facts::InRange::index_in_range))]
fn holds<K: Keeper, L: Ledger>(entry: &Entry, keeper: &mut K, steps: &mut Steps<L>) -> bool
    requires sound { K.is_sound keeper.old }
    requires maps { K.has_maps keeper.old }
    ensures sound { K.is_sound keeper.new }
    ensures maps { K.has_maps keeper.new }
{
    match keeper.get(entry.key.as_slice(), steps) {
        Ok(Some(spot)) => match keeper.entry(spot) {
            Ok(held) => held.value == entry.value.as_slice(),
            Err(_) => false,
        },
        _ => false,
    }
}

/// Whether the keeper has these entries and no other.
fn has_only<K: Keeper, L: Ledger>(entries: &[Entry], keeper: &mut K, steps: &mut Steps<L>) -> bool
    requires sound { K.is_sound keeper.old }
    requires maps { K.has_maps keeper.old }
    ensures sound { K.is_sound keeper.new }
    ensures maps { K.has_maps keeper.new }
{
    let mut others = keeper.weight();
    for entry in entries {
        if !holds(entry, keeper, steps) {
            return false;
        }
        let weight = entry.key.len().saturating_add(entry.value.len());
        others = others.saturating_sub(weight as u64);
    }
    others == 0
}

/// Whether the keeper has the forest's image.
fn has_image<K: Keeper, L: Ledger>(
    alloc: Global,
    forest: &Forest,
    keeper: &mut K,
    steps: &mut Steps<L>,
) -> Result<bool, AllocError>
    requires sound { K.is_sound keeper.old }
    requires maps { K.has_maps keeper.old }
    ensures sound { K.is_sound keeper.new }
    ensures maps { K.has_maps keeper.new }
{
    let image = image(alloc, forest)?;
    Ok(has_only(image.as_slice(), keeper, steps))
}

/// The reply, where both ways tell the same and the keeper has the forest's image afterwards.
fn agreed<K: Keeper, L: Ledger>(
    alloc: Global,
    edit: Edit<'_>,
    forest: &mut Forest,
    keeper: &mut K,
    steps: &mut Steps<L>,
) -> Result<Option<String>, AllocError>
    requires sound { K.is_sound keeper.old }
    requires maps { K.has_maps keeper.old }
    ensures sound { K.is_sound keeper.new }
    ensures maps { K.has_maps keeper.new }
{
    let plain = remembered(alloc, edit, forest)?;
    let reply = perform(alloc, edit, WIDE, keeper, steps)?;
    if reply.as_str() == plain.as_str() && has_image(alloc, forest, keeper, steps)? {
        Ok(Some(reply))
    } else {
        Ok(None)
    }
}

/// How many edits get the reply that is due, both ways, before the first that doesn't.
fn all_agreed<L: Ledger>(
    alloc: Global,
    edits: &[(Edit<'_>, &str)],
    blank: Blank,
) -> Result<usize, AllocError>
    requires name { blank.name ≡ L.name }
    requires parts { blank.parts ≡ L.parts }
    requires some { 0 < blank.parts }
{
    let mut steps = Steps::<L>::new(blank);
    let mut keeper = VecKeeper::new(Vec::new(alloc));
    let mut forest = Forest::new(alloc);
    for (i, (edit, due)) in edits.iter().enumerate() {
        match agreed(alloc, *edit, &mut forest, &mut keeper, &mut steps)? {
            Some(reply) if reply.as_str() == *due => {}
            _ => return Ok(i),
        }
    }
    Ok(edits.len())
}

/// Edits one after the other, each with its reply.
const TABLE: [(Edit<'static>, &str); 26] = [
    (Edit::Insert(Place::First, "1", "<x/>"), "no 17"),
    (Edit::Delete("1"), "no 17"),
    (Edit::Load(BIBLIOGRAPHY), "ok 1 11"),
    (Edit::Load("XML search"), "no 20"),
    (Edit::Load("<a><b></a>"), "no 19"),
    (
        Edit::Load("<bib><book>Liu Chen</book>notes<br/></bib>"),
        "ok 3 5",
    ),
    (Edit::Insert(Place::After, "1.1", "<x/>"), "ok 1.2.1 1"),
    (
        Edit::Insert(Place::After, "1.1", "<book>Liu search</book>"),
        "ok 1.2.-1 2",
    ),
    (Edit::Insert(Place::Before, "1.1", "Liu"), "ok 1.-1 1"),
    (
        Edit::Insert(Place::First, "1.1", "<note lang='de'>Chen</note>"),
        "ok 1.1.-1 2",
    ),
    (
        Edit::Insert(Place::Last, "1.1", "more words of Liu"),
        "ok 1.1.5 1",
    ),
    (
        Edit::Insert(Place::Last, "1.2.1", "<x><x>search</x></x>"),
        "ok 1.2.1.1 3",
    ),
    (Edit::Insert(Place::Last, "1.1.1.1", "<x/>"), "no 18"),
    (Edit::Insert(Place::After, "1.9", "<x/>"), "no 17"),
    (Edit::Insert(Place::After, "1.2", "<x/>"), "no 13"),
    (Edit::Insert(Place::Before, "1", "top"), "no 20"),
    (
        Edit::Insert(Place::Before, "1", "<top>keyword</top>"),
        "ok -1 2",
    ),
    (Edit::Insert(Place::After, "1", "<top/>"), "ok 2.1 1"),
    (
        Edit::Replace("1.3", "<book><title>Liu</title></book>"),
        "ok 1.3 3",
    ),
    (Edit::Replace("1.3", "keyword search"), "ok 1.3 1"),
    (Edit::Replace("3", "keyword search"), "no 20"),
    (Edit::Replace("1.9", "<x/>"), "no 17"),
    (Edit::Delete("1.2.-1"), "ok 1.2.-1 2"),
    (Edit::Delete("1.2.-1"), "no 17"),
    (Edit::Delete("1"), "ok 1 15"),
    (Edit::Load("<bib>search</bib>"), "ok 5 2"),
];

fn agreed_uncounted(alloc: Global, edits: &[(Edit<'_>, &str)]) -> Result<usize, AllocError> {
    all_agreed::<Brand>(alloc, edits, Blank::new(1))
}

/// Elements inside one another, so many.
fn nested(alloc: Global, levels: usize) -> Result<String, AllocError> {
    let mut text = "<a>".repeat(alloc, levels)?;
    text.push_str("</a>".repeat(alloc, levels)?.as_str())?;
    Ok(text)
}

/// A tree of the most levels stands on top alone.
fn deep_agreed<'x>(alloc: Global, most: &'x str, more: &'x str) -> Result<usize, AllocError> {
    let edits = [
        (Edit::Load(more), "no 21"),
        (Edit::Load(most), "ok 1 200"),
        (Edit::Insert(Place::Last, "1", most), "no 21"),
        (Edit::Insert(Place::After, "1", most), "ok 3 200"),
        (Edit::Replace("1.1", most), "no 21"),
        (Edit::Replace("1", "<a/>"), "ok 1 1"),
    ];
    agreed_uncounted(alloc, &edits)
}

#[test]
fn plans_do_what_edits_in_memory_do(rt: HostRuntime) -> Result<(), Fail> {
    assert_eq!(rt; agreed_uncounted(rt.alloc(), &TABLE)?, TABLE.len());
    let most = nested(rt.alloc(), 200)?;
    let more = nested(rt.alloc(), 201)?;
    let count = deep_agreed(rt.alloc(), most.as_str(), more.as_str())?;
    assert_eq!(rt; count, 6);
    Ok(())
}

const PLACES: [Place; 4] = [Place::Before, Place::After, Place::First, Place::Last];

const TARGETS: [&str; 12] = [
    "1", "1.1", "1.3", "1.-1", "1.2.1", "1.2.-1", "1.1.1", "1.1.-1", "3", "3.1", "2.1", "1.5",
];

const TREES: [&str; 5] = [
    "<x/>",
    "Liu",
    "<book><title>XML search</title>Chen</book>",
    "<book id='x'>search</book>",
    "<a><b>Liu</b><b>Liu</b></a>",
];

/// One of the items.
fn pick<T: Copy>(items: &[T], number: u64, other: T) -> T {
    let index = (number % 997) as usize % items.len().max(1);
    items.get(index).copied().unwrap_or(other)
}

/// The edit that a number stands for.
fn numbered(number: u64) -> Edit<'static> {
    let place = pick(&PLACES, number >> 24, Place::Last);
    let target = pick(&TARGETS, number >> 34, "1");
    let tree = pick(&TREES, number >> 44, "<x/>");
    match (number >> 54) % 8 {
        0 => Edit::Load(tree),
        1 => Edit::Delete(target),
        2 => Edit::Replace(target, tree),
        _ => Edit::Insert(place, target, tree),
    }
}

fn next(number: u64) -> u64 {
    number
        .wrapping_mul(6_364_136_223_846_793_005)
        .wrapping_add(1_442_695_040_888_963_407)
}

/// Of so many drawn edits, how many both ways agree on, and how many of these are done.
fn drawn_agreed<L: Ledger>(
    alloc: Global,
    edits: usize,
    blank: Blank,
) -> Result<[usize; 2], AllocError>
    requires name { blank.name ≡ L.name }
    requires parts { blank.parts ≡ L.parts }
    requires some { 0 < blank.parts }
{
    let mut steps = Steps::<L>::new(blank);
    let mut keeper = VecKeeper::new(Vec::new(alloc));
    let mut forest = Forest::new(alloc);
    let mut edit = Edit::Load(BIBLIOGRAPHY);
    let mut number = 1;
    let mut done = 0usize;
    for i in 0..edits {
        match agreed(alloc, edit, &mut forest, &mut keeper, &mut steps)? {
            Some(reply) => done = done.saturating_add(reply.starts_with("ok ") as usize),
            None => return Ok([i, done]),
        }
        number = next(number);
        edit = numbered(number);
    }
    Ok([edits, done])
}

fn drawn_uncounted(alloc: Global, edits: usize) -> Result<[usize; 2], AllocError> {
    drawn_agreed::<Brand>(alloc, edits, Blank::new(1))
}

#[test]
fn plans_do_what_drawn_edits_in_memory_do(rt: HostRuntime) -> Result<(), Fail> {
    let [agreed, done] = drawn_uncounted(rt.alloc(), 100)?;
    assert_eq!(rt; agreed, 100);
    // The others are refused, both ways alike: many are done, and many aren't.
    assert!(rt; 30 <= done && done <= 70, "{done} are done");
    Ok(())
}
