//! What is looked up in the keyword lists of a document, and what searches choose of them.

ghost use Rattle.std.specs.Prelude.{◌≡◌, ◌<◌};

use mm_examples::documents::{BIBLIOGRAPHY, copies, has_text};
use mm_host::Fault;
use mm_label::Label;
use mm_lists::{Lists, MemLists, Shortest, candidate, find_shortest};
use mm_steps::Steps;
use mm_tree::Forest;
use mm_words::calls::query;
use mm_words::{Query, Word};
use std::alloc::{AllocError, Global};
use std::marker::Brand;
use std::sync::ledger::{Blank, Ledger};
use std::test::Fail;

fn word(alloc: Global, text: &str) -> Result<Word, Fail> {
    Ok(Word::from_bytes(alloc, text.as_bytes())?.ok_or("not a word")?)
}

/// Whether there is a label with the text; of a dash, whether there is none.
fn is(alloc: Global, label: &Option<Label>, text: &str) -> Result<bool, AllocError> {
    match label {
        Some(label) => has_text(alloc, label, text),
        None => Ok(text == "-"),
    }
}

/// What is found in a list next to a label: the last at or before it, the first at or after it, the
/// first after it, the first after its subtree.
#[derive(Drop)]
struct Around {
    left: Option<Label>,
    right: Option<Label>,
    next: Option<Label>,
    past: Option<Label>,
}

fn look<L: Ledger>(
    blank: Blank,
    lists: &mut MemLists,
    word: &Word,
    at: &Label,
) -> Result<Around, Fault>
    requires name { blank.name ≡ L.name }
    requires parts { blank.parts ≡ L.parts }
    requires some { 0 < blank.parts }
{
    let mut steps = Steps::<L>::new(blank);
    Ok(Around {
        left: lists.left(word, at, &mut steps)?,
        right: lists.right(word, at, &mut steps)?,
        next: lists.next(word, at, &mut steps)?,
        past: lists.right_past(word, at, &mut steps)?,
    })
}

fn look_for(alloc: Global, forest: &Forest, text: &str, at: &str) -> Result<Around, Fail> {
    let word = word(alloc, text)?;
    let at = Label::parse(alloc, at)?;
    let mut lists = MemLists::of(alloc, forest)?;
    Ok(look::<Brand>(Blank::new(1), &mut lists, &word, &at)?)
}

/// Whether these four are found.
fn are(alloc: Global, found: &Around, due: [&str; 4]) -> Result<bool, AllocError> {
    let [left, right, next, past] = due;
    Ok(
        is(alloc, &found.left, left)?
            && is(alloc, &found.right, right)?
            && is(alloc, &found.next, next)?
            && is(alloc, &found.past, past)?,
    )
}

#[test]
fn nodes_next_to_a_label(rt: HostRuntime) -> Result<(), Fail> {
    let alloc = rt.alloc();
    let forest = copies(alloc, BIBLIOGRAPHY, 1)?;
    for (text, at, due) in [
        (
            "search",
            "1.1.1.1",
            ["1.1.1.1", "1.1.1.1", "1.3.1.1", "1.3.1.1"],
        ),
        ("search", "1", ["-", "1.1.1.1", "1.1.1.1", "-"]),
        ("search", "1.1", ["-", "1.1.1.1", "1.1.1.1", "1.3.1.1"]),
        (
            "search",
            "1.2.1",
            ["1.1.1.1", "1.3.1.1", "1.3.1.1", "1.3.1.1"],
        ),
        ("search", "3", ["1.3.1.1", "-", "-", "-"]),
        ("book", "1.3", ["1.3", "1.3", "-", "-"]),
        ("absent", "1", ["-", "-", "-", "-"]),
    ] {
        let found = look_for(alloc, &forest, text, at)?;
        assert!(rt; are(alloc, &found, due)?);
    }
    Ok(())
}

/// How many nodes a list has, and its first.
fn start<L: Ledger>(
    blank: Blank,
    lists: &mut MemLists,
    word: &Word,
) -> Result<(u64, Option<Label>), Fault>
    requires name { blank.name ≡ L.name }
    requires parts { blank.parts ≡ L.parts }
    requires some { 0 < blank.parts }
{
    let mut steps = Steps::<L>::new(blank);
    Ok((
        lists.count(word, &mut steps)?,
        lists.first(word, &mut steps)?,
    ))
}

/// Whether the list of the word has so many nodes and this first.
fn starts(alloc: Global, forest: &Forest, text: &str, due: (u64, &str)) -> Result<bool, Fail> {
    let word = word(alloc, text)?;
    let mut lists = MemLists::of(alloc, forest)?;
    let (count, first) = start::<Brand>(Blank::new(1), &mut lists, &word)?;
    Ok(count == due.0 && is(alloc, &first, due.1)?)
}

#[test]
fn how_a_list_begins(rt: HostRuntime) -> Result<(), Fail> {
    let alloc = rt.alloc();
    let forest = copies(alloc, BIBLIOGRAPHY, 1)?;
    for (text, due) in [
        ("search", (2, "1.1.1.1")),
        ("liu", (1, "1.1.3.1")),
        ("bib", (1, "1")),
        ("title", (2, "1.1.1")),
        ("absent", (0, "-")),
    ] {
        assert!(rt; starts(alloc, &forest, text, due)?);
    }
    Ok(())
}

/// The shortest list of the query's words, and the candidate over its first node.
fn begin<L: Ledger>(
    alloc: Global,
    blank: Blank,
    lists: &mut MemLists,
    query: &Query,
) -> Result<(Shortest, Option<Label>), Fault>
    requires name { blank.name ≡ L.name }
    requires parts { blank.parts ≡ L.parts }
    requires some { 0 < blank.parts }
{
    let mut steps = Steps::<L>::new(blank);
    let words = query.words();
    let best = find_shortest(words, lists, &mut steps)?;
    let Some(first) = lists.first(&words[best.at], &mut steps)? else {
        return Ok((best, None));
    };
    let over = candidate(alloc, words, best.at, &first, lists, &mut steps)?;
    Ok((best, over))
}

/// Whether the shortest list is that of the word at the place, with so many nodes, and the candidate this one.
fn begins(
    alloc: Global,
    forest: &Forest,
    text: &str,
    due: (usize, u64, &str),
) -> Result<bool, Fail> {
    let query = query(alloc, text)?;
    let mut lists = MemLists::of(alloc, forest)?;
    let (best, over) = begin::<Brand>(alloc, Blank::new(1), &mut lists, &query)?;
    Ok(best.at == due.0 && best.size == due.1 && is(alloc, &over, due.2)?)
}

#[test]
fn the_shortest_list_and_a_candidate(rt: HostRuntime) -> Result<(), Fail> {
    let alloc = rt.alloc();
    let forest = copies(alloc, BIBLIOGRAPHY, 1)?;
    for (text, due) in [
        ("search liu", (1, 1, "1.1")),
        ("search", (0, 2, "1.1.1.1")),
        ("liu chen", (0, 1, "1")),
        ("absent liu", (0, 0, "-")),
        ("title book author", (0, 2, "1.1")),
    ] {
        assert!(rt; begins(alloc, &forest, text, due)?);
    }
    Ok(())
}
