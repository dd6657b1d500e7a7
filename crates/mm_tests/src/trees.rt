//! What no case of a run shows of trees and forests: labels that have no room, and own words.

ghost use Rattle.std.specs.Prelude.{◌<◌, ◌^◌, length};

use mm_examples::documents::push_times;
use mm_label::Label;
use mm_tree::{Forest, Place, Refusal, TreeError, own_words};
use mm_words::Word;
use mm_xml::read;
use std::alloc::{AllocError, Global};
use std::test::Fail;

/// The number of nodes of the new tree, or 0 where a label of it has no room.
fn loaded(alloc: Global, forest: &mut Forest, bytes: &[u8]) -> Result<u64, Fail>
    requires { length bytes.now < 2 ^ 32 }
{
    match forest.load(alloc, read(alloc, bytes)?) {
        Ok(done) => Ok(done.nodes),
        Err(TreeError::Refused(Refusal::Room)) => Ok(0),
        Err(error) => Err(error)?,
    }
}

/// So many elements inside one another, each with so many empty ones before the next.
fn push_fans(text: &mut String, fans: usize, empty: usize) -> Result<(), AllocError> {
    for _ in 0..fans {
        text.push_str("<a>")?;
        push_times(text, "<a/>", empty)?;
    }
    Ok(())
}

/// A tree whose longest label takes 511 bytes more than one of so many levels: from the 33rd child
/// on a label takes two bytes more than its parent's, from the 4,129th on five.
fn long(alloc: Global, levels: usize) -> Result<String, AllocError> {
    let mut text = String::new(alloc);
    push_fans(&mut text, 39, 4128)?;
    push_fans(&mut text, 158, 32)?;
    push_times(&mut text, "<a>", levels)?;
    push_times(&mut text, "</a>", levels)?;
    push_times(&mut text, "</a>", 158)?;
    push_times(&mut text, "</a>", 39)?;
    Ok(text)
}

/// What a forest answers to such a tree.
fn loaded_long(alloc: Global, forest: &mut Forest, levels: usize) -> Result<u64, Fail> {
    let text = long(alloc, levels)?;
    let bytes = text.as_bytes();
    if bytes.len() > 1_000_000 {
        return Err("a long document")?;
    }
    loaded(alloc, forest, bytes)
}

#[test]
fn a_label_of_513_bytes_has_no_room(rt: HostRuntime) -> Result<(), Fail> {
    let alloc = rt.alloc();
    let mut forest = Forest::new(alloc);
    assert_eq!(rt; loaded_long(alloc, &mut forest, 1)?, 166_246);
    assert_eq!(rt; loaded_long(alloc, &mut forest, 2)?, 0);
    assert_eq!(rt; forest.trees().len(), 1);
    Ok(())
}

/// The label of an element that is put behind the node with this label; None where it has no room.
fn put_after(alloc: Global, forest: &mut Forest, target: &Label) -> Result<Option<Label>, Fail> {
    let tree = read(alloc, b"<x/>")?;
    match forest.insert(alloc, Place::After, target, tree) {
        Ok(done) => Ok(Some(done.label)),
        Err(TreeError::Refused(Refusal::Room)) => Ok(None),
        Err(error) => Err(error)?,
    }
}

/// So many pairs in the gap behind 1.1: the first of a pair directly behind that of the pair before,
/// the second directly behind the first. The first of the last pair.
fn narrowed(alloc: Global, forest: &mut Forest, pairs: u32) -> Result<Label, Fail> {
    let mut first = Label::parse(alloc, "1.1")?;
    for _ in 0..pairs {
        first = put_after(alloc, forest, &first)?.ok_or("no room")?;
        let _ = put_after(alloc, forest, &first)?;
    }
    Ok(first)
}

/// The lengths of the next pair's labels, and whether one more has room between them.
fn last_pair(
    alloc: Global,
    forest: &mut Forest,
    first: &Label,
) -> Result<([usize; 2], bool), Fail> {
    let odd = put_after(alloc, forest, first)?.ok_or("no room")?;
    let even = put_after(alloc, forest, &odd)?.ok_or("no room")?;
    let lengths = [odd.as_bytes().len(), even.as_bytes().len()];
    Ok((lengths, put_after(alloc, forest, &odd)?.is_some()))
}

#[test]
fn a_gap_is_narrowed_until_no_label_has_room(rt: HostRuntime) -> Result<(), Fail> {
    let alloc = rt.alloc();
    let mut forest = Forest::new(alloc);
    assert_eq!(rt; loaded(alloc, &mut forest, b"<a><b/><b/></a>")?, 3);
    let first = narrowed(alloc, &mut forest, 509)?;
    assert_eq!(rt; last_pair(alloc, &mut forest, &first)?, ([512, 512], false));
    Ok(())
}

#[test]
fn numbers_and_words_of_what_no_run_is_refused_with(rt: HostRuntime) -> Result<(), Fail> {
    let table = [
        (Refusal::Readonly, 12, "readonly"),
        (Refusal::Room, 22, "room"),
        (Refusal::Full, 23, "full"),
    ];
    for (refusal, number, word) in table {
        assert_eq!(rt; refusal.number(), number);
        assert_eq!(rt; refusal.word(), word);
    }
    let shown = format!(in rt.alloc(); "{}", TreeError::Refused(Refusal::Top))?;
    assert_eq!(rt; shown.as_str(), "refused: top");
    Ok(())
}

fn joined(alloc: Global, words: &[Word]) -> Result<String, Fail> {
    let mut all = String::new(alloc);
    for word in words {
        all.push_str(str::from_utf8(word.as_bytes())?)?;
        all.push_str(" ")?;
    }
    Ok(all)
}

#[test]
fn the_words_of_an_element(rt: HostRuntime) -> Result<(), Fail> {
    let alloc = rt.alloc();
    let tree = read(alloc, "<a-b xml:lang='Straße x:y B'/>".as_bytes())?;
    let words = own_words(alloc, &tree.kind)?;
    let all = joined(alloc, words.as_slice())?;
    assert_eq!(rt; all.as_str(), "a b lang strasse x:y xml ");
    Ok(())
}
