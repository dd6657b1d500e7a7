//! The worked rows of two documents, and labels with carets.

use mm_examples::documents::has_text;
use mm_label::Label;
use mm_match::{Mark, masks, prune};
use std::alloc::{AllocError, Global};
use std::test::Fail;

/// The marks with these labels and masks.
fn marks(alloc: Global, table: &[(&str, u32)]) -> Result<Vec<Mark>, Fail> {
    let mut marks = Vec::new(alloc);
    for (label, mask) in table {
        let label = Label::parse(alloc, label)?;
        marks.push(Mark { label, mask: *mask })?;
    }
    Ok(marks)
}

/// Whether the marks have these labels and masks.
fn are(alloc: Global, marks: &[Mark], wanted: &[(&str, u32)]) -> Result<bool, AllocError> {
    for (mark, (text, mask)) in marks.iter().zip(wanted) {
        if mark.mask != *mask || !has_text(alloc, &mark.label, text)? {
            return Ok(false);
        }
    }
    Ok(marks.len() == wanted.len())
}

/// Whether the nodes above the matches get these masks.
fn are_masks(
    alloc: Global,
    root: &str,
    matches: &[(&str, u32)],
    wanted: &[(&str, u32)],
) -> Result<bool, Fail> {
    let root = Label::parse(alloc, root)?;
    let matches = marks(alloc, matches)?;
    let found = masks(alloc, &root, matches.as_slice())?;
    Ok(are(alloc, found.as_slice(), wanted)?)
}

/// Whether these of the marks are kept.
fn are_kept(alloc: Global, marked: &[(&str, u32)], wanted: &[(&str, u32)]) -> Result<bool, Fail> {
    let marked = marks(alloc, marked)?;
    let kept = prune(alloc, marked.as_slice())?;
    Ok(are(alloc, kept.as_slice(), wanted)?)
}

/// The marks of `bears gold pos` in a team of two players.
const PLAYERS: [(&str, u32); 10] = [
    ("1", 7),
    ("1.1", 1),
    ("1.1.1", 1),
    ("1.3", 6),
    ("1.3.1", 6),
    ("1.3.1.1", 2),
    ("1.3.1.1.1", 2),
    ("1.3.1.3", 4),
    ("1.3.3", 4),
    ("1.3.3.3", 4),
];

#[test]
fn masks_of_two_players(rt: HostRuntime) -> Result<(), Fail> {
    let matches = [
        ("1.1.1", 1),
        ("1.3.1.1.1", 2),
        ("1.3.1.3", 4),
        ("1.3.3.3", 4),
    ];
    assert!(rt; are_masks(rt.alloc(), "1", &matches, &PLAYERS)?);
    Ok(())
}

#[test]
fn the_second_player_is_pruned(rt: HostRuntime) -> Result<(), Fail> {
    assert!(rt; are_kept(rt.alloc(), &PLAYERS, &PLAYERS[..8])?);
    Ok(())
}

#[test]
fn parents_go_by_segments(rt: HostRuntime) -> Result<(), Fail> {
    let matches = [("1.2.1.3", 1), ("1.2.2.1", 2)];
    let wanted = [("1", 3), ("1.2.1", 1), ("1.2.1.3", 1), ("1.2.2.1", 2)];
    assert!(rt; are_masks(rt.alloc(), "1", &matches, &wanted)?);
    Ok(())
}

#[test]
fn a_root_below_others(rt: HostRuntime) -> Result<(), Fail> {
    let matches = [("1.3", 1), ("1.3.1.5", 2)];
    let wanted = [("1.3", 3), ("1.3.1", 2), ("1.3.1.5", 2)];
    assert!(rt; are_masks(rt.alloc(), "1.3", &matches, &wanted)?);
    Ok(())
}

#[test]
fn no_matches(rt: HostRuntime) -> Result<(), Fail> {
    assert!(rt; are_masks(rt.alloc(), "1", &[], &[])?);
    assert!(rt; are_kept(rt.alloc(), &[], &[])?);
    Ok(())
}

#[test]
fn a_mark_once_more(rt: HostRuntime) -> Result<(), Fail> {
    let alloc = rt.alloc();
    let mark = Mark {
        label: Label::parse(alloc, "1.5")?,
        mask: 6,
    };
    let again = mark.copy(alloc)?;
    assert_eq!(rt; again.label, mark.label);
    assert_eq!(rt; again.mask, 6);
    Ok(())
}
