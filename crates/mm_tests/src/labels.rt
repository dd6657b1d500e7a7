//! Vectors of labels, their texts and their neighbours.

ghost use Rattle.std.specs.Prelude.{IfOk};
ghost use Rattle.mm_label.specs.Label.{IsSegment};

use mm_label::{Label, LabelError, between, child, lca};
use std::alloc::{AllocError, Global};
use std::cmp::Ordering;
use std::process::Abort;
use std::test::Fail;

/// Whether the label of a text lends these bytes.
fn lends(alloc: Global, text: &str, bytes: &[u8]) -> Result<bool, LabelError> {
    let label = Label::parse(alloc, text)?;
    Ok(label.as_bytes() == bytes)
}

/// Whether the label of a text gives these bytes.
fn gives(alloc: Global, text: &str, bytes: &[u8]) -> Result<bool, LabelError> {
    let label = Label::parse(alloc, text)?;
    let given = label.bytes(alloc)?;
    Ok(given.as_slice() == bytes)
}

/// Whether the label of some bytes has this text.
fn reads(alloc: Global, bytes: &[u8], text: &str) -> Result<bool, LabelError> {
    let found = Label::from_bytes(alloc, bytes)?;
    Ok(shown(alloc, found)?.as_str() == text)
}

/// Whether the label of a text is the same once more.
fn copies(alloc: Global, text: &str) -> Result<bool, LabelError> {
    let label = Label::parse(alloc, text)?;
    let again = label.copy(alloc)?;
    Ok(again == label)
}

/// Whether a text and bytes are those of one label, as each call tells them.
fn is_spelled(alloc: Global, text: &str, bytes: &[u8]) -> Result<bool, LabelError> {
    let lent = lends(alloc, text, bytes)?;
    let given = gives(alloc, text, bytes)?;
    let read = reads(alloc, bytes, text)?;
    Ok(lent && given && read && copies(alloc, text)?)
}

/// The text of a label; nothing where there is none.
fn shown(alloc: Global, label: Option<Label>) -> Result<String, AllocError> {
    match label {
        None => Ok(String::new(alloc)),
        Some(label) => label.text(alloc),
    }
}

#[test]
fn labels_and_their_bytes(rt: HostRuntime) -> Result<(), Fail> {
    let table: [(&str, &[u8]); 15] = [
        ("1.2.-1", &[0x81, 0x82, 0x7f]),
        ("63", &[0xbf]),
        ("65", &[0xc0, 0x01]),
        ("64.1", &[0xc0, 0x00, 0x81]),
        ("8255", &[0xdf, 0xff]),
        ("8257", &[0xe0, 0x00, 0x00, 0x00, 0x01]),
        ("8256.1", &[0xe0, 0x00, 0x00, 0x00, 0x00, 0x81]),
        ("4294975551", &[0xe0, 0xff, 0xff, 0xff, 0xff]),
        ("-63", &[0x41]),
        ("-64.1", &[0x40, 0x81]),
        ("-65", &[0x3f, 0xff]),
        ("-8255", &[0x20, 0x01]),
        ("-8256.1", &[0x20, 0x00, 0x81]),
        ("-8257", &[0x1f, 0xff, 0xff, 0xff, 0xff]),
        ("-4294975551", &[0x1f, 0x00, 0x00, 0x00, 0x01]),
    ];
    for (text, bytes) in table {
        assert!(rt; is_spelled(rt.alloc(), text, bytes)?, "at {text}");
    }
    Ok(())
}

#[test]
fn no_labels(rt: HostRuntime) -> Result<(), Fail> {
    assert!(rt; Label::parse(rt.alloc(), "").is_err());
    assert!(rt; Label::parse(rt.alloc(), "1 ").is_err());
    let spellings: [&[u8]; 5] = [&[], &[0x82], &[0xc0], &[0x00], &[0xe1, 0x81]];
    for bytes in spellings {
        assert!(rt;
            Label::from_bytes(rt.alloc(), bytes)?.is_none(),
            "at {bytes:?}"
        );
    }
    Ok(())
}

/// How the labels of two texts compare, and whether the first is the second or an ancestor of it.
fn compared(alloc: Global, left: &str, right: &str) -> Result<(Ordering, bool), LabelError> {
    let left = Label::parse(alloc, left)?;
    let right = Label::parse(alloc, right)?;
    Ok((left.cmp(&right), left.is_prefix(&right)))
}

#[test]
fn document_order(rt: HostRuntime) -> Result<(), Fail> {
    let table = [
        ("1.9", "1.11", Ordering::Less, false),
        ("1", "1.2.-1", Ordering::Less, true),
        ("1.2.-1", "1.9", Ordering::Less, false),
        ("1.2.-1", "1.2.-1", Ordering::Equal, true),
        ("1.2.-1", "1", Ordering::Greater, false),
    ];
    for (left, right, order, is_prefix) in table {
        let found = compared(rt.alloc(), left, right)?;
        assert!(rt; found.0 == order, "{left} and {right}");
        assert!(rt; found.1 == is_prefix, "{left} above {right}");
    }
    Ok(())
}

fn level(alloc: Global, text: &str) -> Result<u32, LabelError> {
    let label = Label::parse(alloc, text)?;
    Ok(label.level())
}

/// Whether the label of a text has this parent; none where it is empty.
fn has_parent(alloc: Global, text: &str, due: &str) -> Result<bool, LabelError> {
    let label = Label::parse(alloc, text)?;
    let found = label.parent(alloc)?;
    Ok(shown(alloc, found)?.as_str() == due)
}

/// Whether the labels of two texts have this lowest common ancestor; none where it is empty.
fn meet_at(alloc: Global, left: &str, right: &str, due: &str) -> Result<bool, LabelError> {
    let left = Label::parse(alloc, left)?;
    let right = Label::parse(alloc, right)?;
    let found = lca(alloc, &left, &right)?;
    Ok(shown(alloc, found)?.as_str() == due)
}

#[test]
fn ancestors(rt: HostRuntime) -> Result<(), Fail> {
    let alloc = rt.alloc();
    assert!(rt; level(alloc, "1")? == 1);
    assert!(rt; level(alloc, "1.2.-1")? == 2);
    assert!(rt; has_parent(alloc, "1", "")?);
    assert!(rt; has_parent(alloc, "1.2.-1", "1")?);
    assert!(rt; meet_at(alloc, "1.9", "1.2.-1", "1")?);
    assert!(rt; meet_at(alloc, "1.9", "3.9", "")?);
    Ok(())
}

/// The last segment of the label of a text.
fn segment(alloc: Global, text: &str) -> Result<Vec<i64>, LabelError>
    ensures { IfOk result (λ v. IsSegment v.items) }
{
    let label = Label::parse(alloc, text)?;
    Ok(label.segment(alloc)?)
}

/// The segment between those of two labels of level 1.
fn inside(alloc: Global, left: &str, right: &str) -> Result<Vec<i64>, LabelError>
    ensures { IfOk result (λ v. IsSegment v.items) }
{
    let left = segment(alloc, left)?;
    let right = segment(alloc, right)?;
    if left.as_slice().cmp(right.as_slice()) != Ordering::Less {
        return Err(LabelError::NotALabel);
    }
    between(alloc, Some(left.as_slice()), Some(right.as_slice()))
}

/// The segment after that of a label of level 1.
fn after(alloc: Global, left: &str) -> Result<Vec<i64>, LabelError>
    ensures { IfOk result (λ v. IsSegment v.items) }
{
    let left = segment(alloc, left)?;
    between(alloc, Some(left.as_slice()), None)
}

/// The segment before that of a label of level 1.
fn before(alloc: Global, right: &str) -> Result<Vec<i64>, LabelError>
    ensures { IfOk result (λ v. IsSegment v.items) }
{
    let right = segment(alloc, right)?;
    between(alloc, None, Some(right.as_slice()))
}

/// The segment between those of two labels of level 1, of which one or both may be missing.
fn gap(alloc: Global, left: &str, right: &str) -> Result<Vec<i64>, LabelError>
    ensures { IfOk result (λ v. IsSegment v.items) }
{
    match (left.is_empty(), right.is_empty()) {
        (true, true) => between(alloc, None, None),
        (false, true) => after(alloc, left),
        (true, false) => before(alloc, right),
        (false, false) => inside(alloc, left, right),
    }
}

/// The label of level 1 between two, of which one or both may be missing.
fn middle(alloc: Global, left: &str, right: &str) -> Result<Label, LabelError> {
    let segment = gap(alloc, left, right)?;
    child(alloc, None, segment.as_slice())
}

/// Whether this label is made between two.
fn has_middle(alloc: Global, left: &str, right: &str, due: &str) -> Result<bool, LabelError> {
    let label = middle(alloc, left, right)?;
    Ok(label.text(alloc)?.as_str() == due)
}

/// The number between two that is out of range.
fn beyond(alloc: Global, left: &str, right: &str) -> Option<i64> {
    match middle(alloc, left, right) {
        Err(LabelError::OutOfRange { value }) => Some(value),
        _ => None,
    }
}

#[test]
fn between_neighbours(rt: HostRuntime) -> Result<(), Fail> {
    for (left, right, due) in [
        ("", "", "1"),
        ("5", "", "7"),
        ("2.1", "", "3"),
        ("", "1", "-1"),
        ("", "2.1", "1"),
        ("1", "7", "3"),
        ("5", "7", "6.1"),
        ("1", "2.1", "2.-1"),
        ("2.1", "3", "2.3"),
        ("2.1", "2.3", "2.2.1"),
        ("2.1", "4.1", "3"),
    ] {
        assert!(rt; has_middle(rt.alloc(), left, right, due)?);
    }
    Ok(())
}

#[test]
fn no_number_beyond_the_table(rt: HostRuntime) {
    assert!(rt; beyond(rt.alloc(), "4294975551", "") == Some(4_294_975_553));
    assert!(rt; beyond(rt.alloc(), "", "-4294975551") == Some(-4_294_975_553));
}

/// The label below 1 with this segment.
fn below_one(alloc: Global, segment: &[i64]) -> Result<Label, LabelError>
    requires { IsSegment segment.now }
{
    let top = Label::parse(alloc, "1")?;
    child(alloc, Some(&top), segment)
}

/// Whether the label below 1 by the segment between two has this text and so many bytes.
fn stands(
    alloc: Global,
    left: &str,
    right: &str,
    text: &str,
    length: usize,
) -> Result<bool, LabelError> {
    let segment = inside(alloc, left, right)?;
    let label = below_one(alloc, segment.as_slice())?;
    Ok(label.as_bytes().len() == length && label.text(alloc)?.as_str() == text)
}

/// The same of two and a text that go on from one caret.
fn stands_behind(
    alloc: Global,
    caret: &str,
    ends: (&str, &str, &str),
    length: usize,
) -> Result<bool, LabelError> {
    let left = format!(in alloc; "{caret}{}", ends.0)?;
    let right = format!(in alloc; "{caret}{}", ends.1)?;
    let text = format!(in alloc; "1.{caret}{}", ends.2)?;
    stands(alloc, left.as_str(), right.as_str(), text.as_str(), length)
}

/// Why no label stands below 1 by the segment between two.
fn refused(alloc: Global, left: &str, right: &str) -> Result<Option<LabelError>, LabelError> {
    let segment = inside(alloc, left, right)?;
    Ok(below_one(alloc, segment.as_slice()).err())
}

/// Below 1, between 1.1 and 1.3, a pair of labels again and again between the two of the pair before.
#[test]
fn one_gap_narrowed(rt: HostRuntime) -> Result<(), Fail> {
    let alloc = rt.alloc();
    let mut caret = String::new(alloc);
    for pair in 0..510 {
        assert!(rt; stands_behind(alloc, caret.as_str(), ("1", "3", "2.1"), pair + 3)?);
        assert!(rt; stands_behind(alloc, caret.as_str(), ("2.1", "3", "2.3"), pair + 3)?);
        caret.push_str("2.")?;
    }
    let left = format!(in alloc; "{caret}1")?;
    let right = format!(in alloc; "{caret}3")?;
    let full = refused(alloc, left.as_str(), right.as_str())?;
    assert_eq!(rt; full, Some(LabelError::Full { length: 513 }));
    Ok(())
}
