//! The entries that a small forest's first tree brings, and the tree read back from them.

ghost use Rattle.std.specs.Prelude.{◌≡◌, ◌<◌, ◌^◌, length};

use crate::stored::{put_but, tree_entries};
use mm_examples::documents::{copies, push_times};
use mm_host::{Damage, Fault};
use mm_image::{Entries, Parsed, count_of, name_of, parse_key, subtree, word_counts};
use mm_keeper::VecKeeper;
use mm_label::Label;
use mm_steps::Steps;
use mm_tree::{Forest, Kind, Node};
use mm_xml::read;
use std::alloc::{AllocError, Global};
use std::marker::Brand;
use std::sync::ledger::{Blank, Ledger};
use std::test::Fail;

fn push_spelled(alloc: Global, text: &mut String, bytes: &[u8]) -> Result<(), AllocError> {
    for byte in bytes {
        text.push_str(format!(in alloc; "{byte:02x}")?.as_str())?;
    }
    Ok(())
}

/// A line for each entry: key and value in hexadecimal, parted by a space.
fn spelled(alloc: Global, entries: &Entries) -> Result<String, AllocError> {
    let mut text = String::new(alloc);
    for entry in entries.as_slice() {
        push_spelled(alloc, &mut text, entry.key.as_slice())?;
        text.push_str(" ")?;
        push_spelled(alloc, &mut text, entry.value.as_slice())?;
        text.push_str("\n")?;
    }
    Ok(text)
}

/// Each word of the first tree with its count, parted by spaces.
fn counted(alloc: Global, forest: &Forest) -> Result<String, Fail> {
    let mut text = String::new(alloc);
    for root in forest.trees() {
        for (word, count) in word_counts(alloc, root)? {
            push_spelled(alloc, &mut text, word.as_bytes())?;
            text.push_str(format!(in alloc; " {count} ")?.as_str())?;
        }
    }
    Ok(text)
}

#[test]
fn the_worked_image(rt: HostRuntime) -> Result<(), Fail> {
    let alloc = rt.alloc();
    let forest = copies(alloc, "<a>b</a>", 1)?;
    let found = spelled(alloc, &tree_entries(alloc, &forest)?)?;
    let due = "01810000000000 4500016100000000\n0181810000000000 5462\n02610081 \n0262008181 \n";
    assert_eq!(rt; found.as_str(), due);
    assert_eq!(rt; counted(alloc, &forest)?.as_str(), "61 1 62 1 ");
    Ok(())
}

#[test]
fn a_name_with_attributes(rt: HostRuntime) -> Result<(), Fail> {
    let alloc = rt.alloc();
    let forest = copies(alloc, "<b id=\"x\" lang=\"de\"/>", 1)?;
    let entries = tree_entries(alloc, &forest)?;
    let first = entries.get(0).ok_or("an entry")?;
    let mut text = String::new(alloc);
    push_spelled(alloc, &mut text, first.value.as_slice())?;
    let due = "450001620000000200026964000000017800046c616e67000000026465";
    assert_eq!(rt; text.as_str(), due);
    let name = name_of(alloc, first.value.as_slice())?.ok_or("a name")?;
    assert_eq!(rt; name.as_str(), "b");
    assert!(rt; name_of(alloc, b"E\x00\x02b")?.is_none());
    assert!(rt; name_of(alloc, b"")?.is_none());
    Ok(())
}

/// How many bytes the values of the first tree's chunks have, parted by spaces, in a document of one text.
fn sizes(alloc: Global, letters: u16) -> Result<String, Fail> {
    let mut document = String::from_str(alloc, "<a>")?;
    push_times(&mut document, "x", letters as usize)?;
    document.push_str("</a>")?;
    if document.len() > 70_000 {
        return Err("a long document")?;
    }
    let mut forest = Forest::new(alloc);
    forest.load(alloc, read(alloc, document.as_bytes())?)?;
    let mut text = String::new(alloc);
    for entry in tree_entries(alloc, &forest)?.as_slice() {
        if let Some(Parsed::Chunk { label: _, number }) = parse_key(alloc, entry.key.as_slice())? {
            let size = entry.value.len();
            text.push_str(format!(in alloc; "{number}:{size} ")?.as_str())?;
        }
    }
    Ok(text)
}

#[test]
fn pieces_of_a_text(rt: HostRuntime) -> Result<(), Fail> {
    let alloc = rt.alloc();
    assert_eq!(rt; sizes(alloc, 999)?.as_str(), "0:8 0:1000 ");
    assert_eq!(rt; sizes(alloc, 1000)?.as_str(), "0:8 0:1000 1:1 ");
    assert_eq!(rt; sizes(alloc, 2000)?.as_str(), "0:8 0:1000 1:1000 2:1 ");
    Ok(())
}

#[test]
fn what_is_no_key_or_count(rt: HostRuntime) -> Result<(), Fail> {
    let alloc = rt.alloc();
    assert!(rt; parse_key(alloc, b"\x01\x82\x00\x00\x00\x00\x00")?.is_none());
    assert!(rt; parse_key(alloc, b"\x02a\x81")?.is_none());
    assert!(rt; parse_key(alloc, b"\x03")?.is_none());
    assert!(rt; parse_key(alloc, b"\x04a")?.is_none());
    assert_eq!(rt; count_of(b"\x00\x00\x00\x00\x00\x00\x01\x02"), Some(258));
    assert_eq!(rt; count_of(b"\x01"), None);
    Ok(())
}

/// Writes each node's label, and its name or its text.
fn show(node: &Node, text: &mut Vec<u8>) -> Result<(), AllocError> {
    text.extend_from_slice(node.label.as_bytes())?;
    match &node.kind {
        Kind::Element { name, .. } => text.extend_from_slice(name.as_bytes())?,
        Kind::Words { text: words } => text.extend_from_slice(words.as_bytes())?,
    }
    for child in node.children.as_slice() {
        show(child, text)?;
    }
    Ok(())
}

/// Puts the entries, but the one at this place, and reads the subtree of the label 1: its nodes, or the key that is
/// damaged.
fn read_back<L: Ledger>(
    alloc: Global,
    entries: &Entries,
    without: usize,
    blank: Blank,
) -> Result<Vec<u8>, Fail>
    requires name { blank.name ≡ L.name }
    requires parts { blank.parts ≡ L.parts }
    requires some { 0 < blank.parts }
{
    let mut steps = Steps::<L>::new(blank);
    let mut keeper = VecKeeper::new(Vec::new(alloc));
    if !put_but(entries.as_slice(), without, &mut keeper, &mut steps) {
        return Err("an entry that was not put")?;
    }
    let label = Label::from_bytes(alloc, b"\x81")?.ok_or("a label")?;
    let mut text = Vec::new(alloc);
    match subtree(alloc, &label, &mut keeper, &mut steps) {
        Ok(Some(node)) => show(&node, &mut text)?,
        Ok(None) => text.push(b'-')?,
        Err(Fault::Damaged(Damage::Key { key })) => text.extend_from_slice(key.as_slice())?,
        Err(_) => text.push(b'!')?,
    }
    Ok(text)
}

fn read_uncounted(alloc: Global, document: &str, without: usize) -> Result<Vec<u8>, Fail> {
    let entries = tree_entries(alloc, &copies(alloc, document, 1)?)?;
    read_back::<Brand>(alloc, &entries, without, Blank::new(1))
}

#[test]
fn a_tree_read_back(rt: HostRuntime) -> Result<(), Fail> {
    let alloc = rt.alloc();
    let whole = read_uncounted(alloc, "<a>b</a>", 9)?;
    assert_eq!(rt; whole.as_slice(), b"\x81a\x81\x81b".as_slice());
    let none = read_uncounted(alloc, "<a>b</a>", 0)?;
    assert_eq!(rt; none.as_slice(), b"-".as_slice());
    // The root's child has no entry, and its grandchild has.
    let hole = read_uncounted(alloc, "<a><b><c/></b></a>", 1)?;
    assert_eq!(rt; hole.as_slice(), b"\x01\x81\x00\x00\x00\x00\x00".as_slice());
    Ok(())
}
