//! Images, and images with one change: what a check tells of them.

ghost use Rattle.std.specs.Prelude.{◌≡◌, ◌<◌};

use crate::stored::{image, put_but};
use mm_check::{Verdict, check};
use mm_examples::documents::{BIBLIOGRAPHY, GUARDS, NOTES, PLAYERS, copies};
use mm_host::{Bytes, Fault};
use mm_image::{Entries, Entry};
use mm_keeper::{Keeper, VecKeeper};
use mm_steps::Steps;
use std::alloc::Global;
use std::marker::Brand;
use std::sync::ledger::{Blank, Ledger};
use std::test::Fail;

/// A change of a map: an entry that is put, or a key whose entry is taken out.
#[derive(Clone, Copy)]
enum Change {
    Put(&'static [u8], &'static [u8]),
    Remove(&'static [u8]),
}

/// A change, and the key that is named then, with the value that stands there and the one that is due.
type Case = (
    Change,
    &'static [u8],
    Option<&'static [u8]>,
    Option<&'static [u8]>,
);

/// Changes of chunks of the notes.
const CHUNKS: [Case; 24] = [
    // The root is gone, an element below it, an element with a text.
    (
        Change::Remove(b"\x01\x81\x00\x00\x00\x00\x00"),
        b"\x01\x81\x81\x00\x00\x00\x00\x00",
        Some(b"E\x00\x04book\x00\x00\x00\x00"),
        None,
    ),
    (
        Change::Remove(b"\x01\x81\x81\x00\x00\x00\x00\x00"),
        b"\x01\x81\x81\x81\x00\x00\x00\x00\x00",
        Some(b"Txml liu"),
        None,
    ),
    (
        Change::Remove(b"\x01\x81\x83\x00\x00\x00\x00\x00"),
        b"\x01\x81\x83\x81\x00\x00\x00\x00\x00",
        Some(b"Txml"),
        None,
    ),
    // A child of a node that isn't there, of a text, and a text on the first level.
    (
        Change::Put(b"\x01\x81\x87\x81\x00\x00\x00\x00\x00", b"Tx"),
        b"\x01\x81\x87\x81\x00\x00\x00\x00\x00",
        Some(b"Tx"),
        None,
    ),
    (
        Change::Put(b"\x01\x81\x81\x81\x81\x00\x00\x00\x00\x00", b"Tx"),
        b"\x01\x81\x81\x81\x81\x00\x00\x00\x00\x00",
        Some(b"Tx"),
        None,
    ),
    (
        Change::Put(b"\x01\x83\x00\x00\x00\x00\x00", b"Tx"),
        b"\x01\x83\x00\x00\x00\x00\x00",
        Some(b"Tx"),
        None,
    ),
    // Keys of no chunk: without a label, with one that ends in an even number, with three bytes of a number.
    (Change::Put(b"\x01", b""), b"\x01", Some(b""), None),
    (
        Change::Put(
            b"\x01\x81\x82\x00\x00\x00\x00\x00",
            b"E\x00\x01x\x00\x00\x00\x00",
        ),
        b"\x01\x81\x82\x00\x00\x00\x00\x00",
        Some(b"E\x00\x01x\x00\x00\x00\x00"),
        None,
    ),
    (
        Change::Put(b"\x01\x81\x00\x00\x00\x00", b"T"),
        b"\x01\x81\x00\x00\x00\x00",
        Some(b"T"),
        None,
    ),
    // A piece behind one that isn't full, and a node that begins with its piece 1.
    (
        Change::Put(b"\x01\x81\x81\x81\x00\x00\x00\x00\x01", b" more"),
        b"\x01\x81\x81\x81\x00\x00\x00\x00\x01",
        Some(b" more"),
        None,
    ),
    (
        Change::Put(b"\x01\x81\x87\x00\x00\x00\x00\x01", b"Tx"),
        b"\x01\x81\x87\x00\x00\x00\x00\x01",
        Some(b"Tx"),
        None,
    ),
    // Values: empty, with no mark, with a part of an element, with a byte behind it.
    (
        Change::Put(b"\x01\x81\x83\x81\x00\x00\x00\x00\x00", b""),
        b"\x01\x81\x83\x81\x00\x00\x00\x00\x00",
        Some(b""),
        None,
    ),
    (
        Change::Put(b"\x01\x81\x83\x81\x00\x00\x00\x00\x00", b"xml"),
        b"\x01\x81\x83\x81\x00\x00\x00\x00\x00",
        Some(b"xml"),
        None,
    ),
    (
        Change::Put(
            b"\x01\x81\x83\x00\x00\x00\x00\x00",
            b"E\x00\x04note\x00\x00\x00",
        ),
        b"\x01\x81\x83\x00\x00\x00\x00\x00",
        Some(b"E\x00\x04note\x00\x00\x00"),
        None,
    ),
    (
        Change::Put(
            b"\x01\x81\x83\x00\x00\x00\x00\x00",
            b"E\x00\x04note\x00\x00\x00\x00\x00",
        ),
        b"\x01\x81\x83\x00\x00\x00\x00\x00",
        Some(b"E\x00\x04note\x00\x00\x00\x00\x00"),
        None,
    ),
    // Names: of no byte, of 513 bytes, with a digit in front.
    (
        Change::Put(b"\x01\x81\x83\x00\x00\x00\x00\x00", b"E\x00\x00"),
        b"\x01\x81\x83\x00\x00\x00\x00\x00",
        Some(b"E\x00\x00"),
        None,
    ),
    (
        Change::Put(b"\x01\x81\x83\x00\x00\x00\x00\x00", b"E\x02\x01"),
        b"\x01\x81\x83\x00\x00\x00\x00\x00",
        Some(b"E\x02\x01"),
        None,
    ),
    (
        Change::Put(
            b"\x01\x81\x83\x00\x00\x00\x00\x00",
            b"E\x00\x041ote\x00\x00\x00\x00",
        ),
        b"\x01\x81\x83\x00\x00\x00\x00\x00",
        Some(b"E\x00\x041ote\x00\x00\x00\x00"),
        None,
    ),
    // Two attributes of one name, and a value with a character that XML doesn't have.
    (
        Change::Put(
            b"\x01\x81\x83\x00\x00\x00\x00\x00",
            b"E\x00\x04note\x00\x00\x00\x02\x00\x01b\x00\x00\x00\x00\x00\x01b\x00\x00\x00\x00",
        ),
        b"\x01\x81\x83\x00\x00\x00\x00\x00",
        Some(b"E\x00\x04note\x00\x00\x00\x02\x00\x01b\x00\x00\x00\x00\x00\x01b\x00\x00\x00\x00"),
        None,
    ),
    (
        Change::Put(
            b"\x01\x81\x83\x00\x00\x00\x00\x00",
            b"E\x00\x04note\x00\x00\x00\x01\x00\x01b\x00\x00\x00\x01\x01",
        ),
        b"\x01\x81\x83\x00\x00\x00\x00\x00",
        Some(b"E\x00\x04note\x00\x00\x00\x01\x00\x01b\x00\x00\x00\x01\x01"),
        None,
    ),
    // Texts: none, blank, with half a character.
    (
        Change::Put(b"\x01\x81\x83\x81\x00\x00\x00\x00\x00", b"T"),
        b"\x01\x81\x83\x81\x00\x00\x00\x00\x00",
        Some(b"T"),
        None,
    ),
    (
        Change::Put(b"\x01\x81\x83\x81\x00\x00\x00\x00\x00", b"T \n"),
        b"\x01\x81\x83\x81\x00\x00\x00\x00\x00",
        Some(b"T \n"),
        None,
    ),
    (
        Change::Put(b"\x01\x81\x83\x81\x00\x00\x00\x00\x00", b"T\xc3"),
        b"\x01\x81\x83\x81\x00\x00\x00\x00\x00",
        Some(b"T\xc3"),
        None,
    ),
    // An element in place of a text: its words are due.
    (
        Change::Put(
            b"\x01\x81\x83\x81\x00\x00\x00\x00\x00",
            b"E\x00\x03xml\x00\x00\x00\x01\x00\x02id\x00\x00\x00\x00",
        ),
        b"\x02id\x00\x81\x83\x81",
        None,
        Some(b""),
    ),
];

/// Changes of the words of the notes, or of nodes that still spell a forest.
const WORDS: [Case; 17] = [
    // A text that is gone, another one, and one more.
    (
        Change::Remove(b"\x01\x81\x83\x81\x00\x00\x00\x00\x00"),
        b"\x02xml\x00\x81\x83\x81",
        Some(b""),
        None,
    ),
    (
        Change::Put(b"\x01\x81\x83\x81\x00\x00\x00\x00\x00", b"Txmk"),
        b"\x02xmk\x00\x81\x83\x81",
        None,
        Some(b""),
    ),
    (
        Change::Put(b"\x01\x81\x83\x83\x00\x00\x00\x00\x00", b"Tzeta"),
        b"\x02zeta\x00\x81\x83\x83",
        None,
        Some(b""),
    ),
    // Another name, before the old one and behind it.
    (
        Change::Put(
            b"\x01\x81\x83\x00\x00\x00\x00\x00",
            b"E\x00\x04nope\x00\x00\x00\x01\x00\x01b\x00\x00\x00\x00",
        ),
        b"\x02b\x00\x81\x83",
        None,
        Some(b""),
    ),
    (
        Change::Put(
            b"\x01\x81\x83\x00\x00\x00\x00\x00",
            b"E\x00\x04zote\x00\x00\x00\x00",
        ),
        b"\x02note\x00\x81\x83",
        Some(b""),
        None,
    ),
    // One tree more.
    (
        Change::Put(
            b"\x01\x83\x00\x00\x00\x00\x00",
            b"E\x00\x01x\x00\x00\x00\x00",
        ),
        b"\x02x\x00\x83",
        None,
        Some(b""),
    ),
    // An occurrence that is gone, one too many, one with a value, and a key of none.
    (
        Change::Remove(b"\x02liu\x00\x81\x85\x81"),
        b"\x02liu\x00\x81\x85\x81",
        None,
        Some(b""),
    ),
    (
        Change::Put(b"\x02liu\x00\x81", b""),
        b"\x02liu\x00\x81",
        Some(b""),
        None,
    ),
    (
        Change::Put(b"\x02bib\x00\x81", b"x"),
        b"\x02bib\x00\x81",
        Some(b"x"),
        Some(b""),
    ),
    (Change::Put(b"\x02liu", b""), b"\x02liu", Some(b""), None),
    // A count that is one off, gone, too many, or too short.
    (
        Change::Put(b"\x03xml", b"\x00\x00\x00\x00\x00\x00\x00\x03"),
        b"\x03xml",
        Some(b"\x00\x00\x00\x00\x00\x00\x00\x03"),
        Some(b"\x00\x00\x00\x00\x00\x00\x00\x02"),
    ),
    (
        Change::Remove(b"\x03bib"),
        b"\x03bib",
        None,
        Some(b"\x00\x00\x00\x00\x00\x00\x00\x01"),
    ),
    (
        Change::Put(b"\x03zeta", b"\x00\x00\x00\x00\x00\x00\x00\x01"),
        b"\x03zeta",
        Some(b"\x00\x00\x00\x00\x00\x00\x00\x01"),
        None,
    ),
    (
        Change::Put(b"\x03liu", b"\x02"),
        b"\x03liu",
        Some(b"\x02"),
        Some(b"\x00\x00\x00\x00\x00\x00\x00\x02"),
    ),
    // Keys of no sort, before all others and behind them.
    (
        Change::Put(b"\x00\xff", b"x"),
        b"\x00\xff",
        Some(b"x"),
        None,
    ),
    (Change::Put(b"\x04a", b""), b"\x04a", Some(b""), None),
    (Change::Put(b"\xff", b"x"), b"\xff", Some(b"x"), None),
];

/// Makes the change in a small keeper, and answers whether there was room, or an entry to take out.
fn make<K: Keeper, L: Ledger>(
    alloc: Global,
    change: Change,
    keeper: &mut K,
    steps: &mut Steps<L>,
) -> Result<bool, Fault>
    requires { K.is_sound keeper.old }
    ensures sound { K.is_sound keeper.new }
{
    match change {
        Change::Put(key, value) => {
            let entry = Entry {
                key: Bytes::from_slice(alloc, key)?,
                value: Bytes::from_slice(alloc, value)?,
            };
            Ok(put_but(&[entry], 1, keeper, steps))
        }
        Change::Remove(key) => keeper.remove(key, steps),
    }
}

/// What a check tells of the image, with the change where there is one.
fn checked<L: Ledger>(
    alloc: Global,
    entries: &Entries,
    change: Option<Change>,
    blank: Blank,
) -> Result<Verdict, Fault>
    requires name { blank.name ≡ L.name }
    requires parts { blank.parts ≡ L.parts }
    requires some { 0 < blank.parts }
{
    let mut steps = Steps::<L>::new(blank);
    let mut keeper = VecKeeper::new(Vec::new(alloc));
    if !put_but(entries.as_slice(), entries.len(), &mut keeper, &mut steps) {
        return Err(Fault::Memory);
    }
    if let Some(change) = change {
        if !make(alloc, change, &mut keeper, &mut steps)? {
            return Err(Fault::Memory);
        }
    }
    check(alloc, &mut keeper, &mut steps)
}

/// Whether both are there and the same, or neither is.
fn is_value(value: &Option<Bytes>, due: Option<&[u8]>) -> bool {
    match (value, due) {
        (Some(value), Some(due)) => value.as_slice() == due,
        (None, None) => true,
        _ => false,
    }
}

/// Whether the image with the change has this named in it.
fn names(alloc: Global, entries: &Entries, case: &Case) -> Result<bool, Fault> {
    let (change, key_due, stored_due, due_due) = *case;
    match checked::<Brand>(alloc, entries, Some(change), Blank::new(1))? {
        Verdict::Sound { .. } => Ok(false),
        Verdict::Unsound { key, stored, due } => Ok(
            key.as_slice() == key_due && is_value(&stored, stored_due) && is_value(&due, due_due),
        ),
    }
}

/// How many nodes a check tells of the image of so many copies of the document; None where it names a key.
fn nodes_told(alloc: Global, document: &str, times: u8) -> Result<Option<u64>, Fail> {
    let entries = image(alloc, &copies(alloc, document, times)?)?;
    match checked::<Brand>(alloc, &entries, None, Blank::new(1))? {
        Verdict::Sound { nodes } => Ok(Some(nodes)),
        Verdict::Unsound { .. } => Ok(None),
    }
}

/// How many cases hold before the first that doesn't.
fn count_named(alloc: Global, document: &str, cases: &[Case]) -> Result<usize, Fail> {
    let entries = image(alloc, &copies(alloc, document, 1)?)?;
    for (i, case) in cases.iter().enumerate() {
        if !names(alloc, &entries, case)? {
            return Ok(i);
        }
    }
    Ok(cases.len())
}

#[test]
fn images_are_sound(rt: HostRuntime) -> Result<(), Fail> {
    assert_eq!(rt; nodes_told(rt.alloc(), NOTES, 0)?, Some(0));
    assert_eq!(rt; nodes_told(rt.alloc(), NOTES, 1)?, Some(7));
    assert_eq!(rt; nodes_told(rt.alloc(), GUARDS, 1)?, Some(9));
    assert_eq!(rt; nodes_told(rt.alloc(), PLAYERS, 1)?, Some(14));
    assert_eq!(rt; nodes_told(rt.alloc(), BIBLIOGRAPHY, 3)?, Some(33));
    Ok(())
}

#[test]
fn changes_of_chunks_are_named(rt: HostRuntime) -> Result<(), Fail> {
    assert_eq!(rt; count_named(rt.alloc(), NOTES, &CHUNKS)?, CHUNKS.len());
    Ok(())
}

#[test]
fn changes_of_words_are_named(rt: HostRuntime) -> Result<(), Fail> {
    assert_eq!(rt; count_named(rt.alloc(), NOTES, &WORDS)?, WORDS.len());
    Ok(())
}
