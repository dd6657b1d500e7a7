//! Worked edits: the labels of what is new, what is shown afterwards, one gap narrowed, and the limit.

ghost use Rattle.std.specs.Prelude.{◌≡◌, ◌<◌, ◌↔◌};

use crate::edits::{Edit, perform, replies};
use mm_examples::documents::BIBLIOGRAPHY;
use mm_host::Fault;
use mm_image::subtree;
use mm_keeper::{Keeper, VecKeeper};
use mm_label::Label;
use mm_steps::Steps;
use mm_tree::Place;
use mm_xml::write;
use std::alloc::{AllocError, Global};
use std::marker::Brand;
use std::sync::ledger::{Blank, Ledger};
use std::test::Fail;

/// The subtree of the label as XML; a dash where there is none.
fn show<K: Keeper, L: Ledger>(
    alloc: Global,
    label: &Label,
    keeper: &mut K,
    steps: &mut Steps<L>,
) -> Result<Vec<u8>, Fault>
    requires { K.is_sound keeper.old }
{
    match subtree(alloc, label, keeper, steps)? {
        Some(node) => Ok(write(alloc, &node)?),
        None => Ok(Vec::from_slice(alloc, b"-")?),
    }
}

/// Whether each edit gets its reply.
fn all_reply<K: Keeper, L: Ledger>(
    alloc: Global,
    edits: &[(Edit<'_>, &str)],
    keeper: &mut K,
    steps: &mut Steps<L>,
) -> Result<bool, AllocError>
    requires { K.is_sound keeper.old }
    ensures sound { K.is_sound keeper.new }
    ensures maps { K.has_maps keeper.old ↔ K.has_maps keeper.new }
{
    for (edit, due) in edits {
        if !replies(alloc, *edit, due, keeper, steps)? {
            return Ok(false);
        }
    }
    Ok(true)
}

/// What is shown after edits that get their replies.
fn row<L: Ledger>(
    alloc: Global,
    edits: &[(Edit<'_>, &str)],
    label: &Label,
    blank: Blank,
) -> Result<Vec<u8>, Fault>
    requires name { blank.name ≡ L.name }
    requires parts { blank.parts ≡ L.parts }
    requires some { 0 < blank.parts }
{
    let mut steps = Steps::<L>::new(blank);
    let mut keeper = VecKeeper::new(Vec::new(alloc));
    if !all_reply(alloc, edits, &mut keeper, &mut steps)? {
        return Ok(Vec::from_slice(alloc, b"another reply")?);
    }
    show(alloc, label, &mut keeper, &mut steps)
}

/// Whether the edits get their replies, and this is shown then.
fn shows(alloc: Global, case: &Row) -> Result<bool, Fail> {
    let (edits, label, due) = *case;
    let label = Label::parse(alloc, label)?;
    let shown = row::<Brand>(alloc, edits, &label, Blank::new(1))?;
    Ok(shown.as_slice() == due.as_bytes())
}

/// Edits with their replies, and a label with what is shown of it.
type Row = (
    &'static [(Edit<'static>, &'static str)],
    &'static str,
    &'static str,
);

const ROWS: [Row; 4] = [
    (
        &[
            (Edit::Load(BIBLIOGRAPHY), "ok 1 11"),
            (Edit::Insert(Place::After, "1.1", "<x/>"), "ok 1.2.1 1"),
            (Edit::Insert(Place::After, "1.1", "<x/>"), "ok 1.2.-1 1"),
            (Edit::Insert(Place::After, "1.2.1", "<x/>"), "ok 1.2.3 1"),
            (Edit::Insert(Place::Before, "1.1", "<x/>"), "ok 1.-1 1"),
        ],
        "1",
        "<bib><x/><book><title>XML search</title><author>Liu</author></book><x/><x/><x/><book><title>Keyword search</title><author>Chen</author></book></bib>",
    ),
    (
        &[
            (Edit::Load(BIBLIOGRAPHY), "ok 1 11"),
            (Edit::Delete("1.1"), "ok 1.1 5"),
        ],
        "1.1",
        "-",
    ),
    (
        &[
            (Edit::Load(BIBLIOGRAPHY), "ok 1 11"),
            (Edit::Delete("1.1"), "ok 1.1 5"),
            (Edit::Insert(Place::Before, "1.3", "<y/>"), "ok 1.1 1"),
        ],
        "1",
        "<bib><y/><book><title>Keyword search</title><author>Chen</author></book></bib>",
    ),
    (
        &[
            (Edit::Load(BIBLIOGRAPHY), "ok 1 11"),
            (Edit::Insert(Place::Last, "1.1.1", "again"), "ok 1.1.1.3 1"),
        ],
        "1.1.1",
        "<title>XML searchagain</title>",
    ),
];

#[test]
fn what_is_shown_after_edits(rt: HostRuntime) -> Result<(), Fail> {
    for case in &ROWS {
        assert!(rt; shows(rt.alloc(), case)?, "at {}", case.1);
    }
    Ok(())
}

/// The label below 1 with so many carets.
fn careted(alloc: Global, carets: usize, last: u8) -> Result<String, AllocError> {
    let front = "2.".repeat(alloc, carets)?;
    format!(in alloc; "1.{front}{last}")
}

/// Whether an element can be put behind the node with the first label, and gets the second.
fn is_put<K: Keeper, L: Ledger>(
    alloc: Global,
    target: &str,
    label: &str,
    keeper: &mut K,
    steps: &mut Steps<L>,
) -> Result<bool, AllocError>
    requires { K.is_sound keeper.old }
    ensures sound { K.is_sound keeper.new }
    ensures maps { K.has_maps keeper.old ↔ K.has_maps keeper.new }
{
    let due = format!(in alloc; "ok {label} 1")?;
    let edit = Edit::Insert(Place::After, target, "<x/>");
    replies(alloc, edit, due.as_str(), keeper, steps)
}

/// Puts one pair into the gap: the first behind the first of the pair before, the second behind the first.
fn is_narrowed<K: Keeper, L: Ledger>(
    alloc: Global,
    pair: usize,
    keeper: &mut K,
    steps: &mut Steps<L>,
) -> Result<bool, AllocError>
    requires { K.is_sound keeper.old }
    ensures sound { K.is_sound keeper.new }
    ensures maps { K.has_maps keeper.old ↔ K.has_maps keeper.new }
{
    let before = careted(alloc, pair, 1)?;
    let carets = pair.saturating_add(1);
    let first = careted(alloc, carets, 1)?;
    let second = careted(alloc, carets, 3)?;
    let odd = is_put(alloc, before.as_str(), first.as_str(), keeper, steps)?;
    Ok(odd && is_put(alloc, first.as_str(), second.as_str(), keeper, steps)?)
}

/// How many pairs get the labels that are due.
fn narrow<K: Keeper, L: Ledger>(
    alloc: Global,
    pairs: usize,
    keeper: &mut K,
    steps: &mut Steps<L>,
) -> Result<usize, AllocError>
    requires { K.is_sound keeper.old }
    ensures sound { K.is_sound keeper.new }
    ensures maps { K.has_maps keeper.old ↔ K.has_maps keeper.new }
{
    for pair in 0..pairs {
        if !is_narrowed(alloc, pair, keeper, steps)? {
            return Ok(pair);
        }
    }
    Ok(pairs)
}

/// After so many pairs in the gap behind 1.1 the reply to one insertion more, how far it changes the weight, and the reply
/// to a replacement of all. Nothing where a pair gets other labels.
fn narrowed<L: Ledger>(
    alloc: Global,
    pairs: usize,
    blank: Blank,
) -> Result<Option<(String, u64, String)>, AllocError>
    requires name { blank.name ≡ L.name }
    requires parts { blank.parts ≡ L.parts }
    requires some { 0 < blank.parts }
{
    let mut steps = Steps::<L>::new(blank);
    let mut keeper = VecKeeper::new(Vec::new(alloc));
    let load = Edit::Load(BIBLIOGRAPHY);
    let is_loaded = replies(alloc, load, "ok 1 11", &mut keeper, &mut steps)?;
    if !is_loaded || narrow(alloc, pairs, &mut keeper, &mut steps)? != pairs {
        return Ok(None);
    }
    let last = careted(alloc, pairs, 1)?;
    let weight = keeper.weight();
    let insert = Edit::Insert(Place::After, last.as_str(), "<x/>");
    let more = perform(alloc, insert, 1 << 40, &mut keeper, &mut steps)?;
    let change = keeper.weight().abs_diff(weight);
    let replace = Edit::Replace("1", "<x/>");
    let all = perform(alloc, replace, 1 << 40, &mut keeper, &mut steps)?;
    Ok(Some((more, change, all)))
}

/// How many bytes the label with so many carets has.
fn size(alloc: Global, carets: usize, last: u8) -> Result<usize, Fail> {
    let text = careted(alloc, carets, last)?;
    let label = Label::parse(alloc, text.as_str())?;
    Ok(label.as_bytes().len())
}

fn narrowed_uncounted(
    alloc: Global,
    pairs: usize,
) -> Result<Option<(String, u64, String)>, AllocError> {
    narrowed::<Brand>(alloc, pairs, Blank::new(1))
}

#[test]
fn one_gap_is_narrowed_until_a_label_has_no_room(rt: HostRuntime) -> Result<(), Fail> {
    let alloc = rt.alloc();
    assert_eq!(rt; [size(alloc, 510, 1)?, size(alloc, 510, 3)?], [512, 512]);
    let (more, change, all) = narrowed_uncounted(alloc, 510)?.ok_or("510 pairs")?;
    assert_eq!(rt; more.as_str(), "no 22");
    assert_eq!(rt; change, 0);
    assert_eq!(rt; all.as_str(), "ok 1 1");
    Ok(())
}

/// The reply to a load of an element with so many letters within a limit of 1,024 bytes, and the weight afterwards.
fn limited<L: Ledger>(
    alloc: Global,
    letters: usize,
    blank: Blank,
) -> Result<Option<(String, u64)>, AllocError>
    requires name { blank.name ≡ L.name }
    requires parts { blank.parts ≡ L.parts }
    requires some { 0 < blank.parts }
{
    let letters = "b".repeat(alloc, letters)?;
    let text = format!(in alloc; "<a>{letters}</a>")?;
    let mut steps = Steps::<L>::new(blank);
    let mut keeper = VecKeeper::new(Vec::new(alloc));
    let load = Edit::Load(text.as_str());
    let reply = perform(alloc, load, 1024, &mut keeper, &mut steps)?;
    Ok(Some((reply, keeper.weight())))
}

fn limited_uncounted(alloc: Global, letters: usize) -> Result<Option<(String, u64)>, AllocError> {
    limited::<Brand>(alloc, letters, Blank::new(1))
}

#[test]
fn the_limit_is_reached_and_not_passed(rt: HostRuntime) -> Result<(), Fail> {
    let (reply, weight) = limited_uncounted(rt.alloc(), 986)?.ok_or("986 letters")?;
    assert_eq!(rt; (reply.as_str(), weight), ("ok 1 2", 1024));
    let (reply, weight) = limited_uncounted(rt.alloc(), 987)?.ok_or("987 letters")?;
    assert_eq!(rt; (reply.as_str(), weight), ("no 23", 0));
    Ok(())
}
