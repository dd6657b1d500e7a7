//! The fragments of answers, by keyword lists and by the plain walk.

ghost use Rattle.std.specs.Prelude.{◌≡◌, ◌<◌};

use crate::stored::stored_gathered;
use mm_examples::documents::{GUARDS, NOTES, PLAYERS, load};
use mm_fragment::fragment;
use mm_host::Fault;
use mm_label::Label;
use mm_lists::MemLists;
use mm_steps::Steps;
use mm_tree::calls::fragment as plain_fragment;
use mm_tree::{Forest, Fragment, elca};
use mm_words::calls::query;
use mm_words::{Query, Word};
use std::alloc::{AllocError, Global};
use std::marker::Brand;
use std::sync::ledger::{Blank, Ledger};
use std::test::Fail;

/// Players below 1, guards below 3, notes below 5.
fn loaded(alloc: Global) -> Result<Forest, Fail> {
    let mut forest = Forest::new(alloc);
    load(alloc, &mut forest, PLAYERS, 1)?;
    load(alloc, &mut forest, GUARDS, 1)?;
    load(alloc, &mut forest, NOTES, 1)?;
    Ok(forest)
}

fn push_words(words: &[Word], out: &mut Vec<u8>) -> Result<(), AllocError> {
    for word in words {
        out.push(b' ')?;
        out.extend_from_slice(word.as_bytes())?;
    }
    Ok(())
}

/// A line for each node: its label, its name and the words that it shows.
fn push_lines(alloc: Global, fragments: &[Fragment], out: &mut Vec<u8>) -> Result<(), AllocError> {
    for fragment in fragments {
        out.extend_from_slice(fragment.label.text(alloc)?.as_bytes())?;
        out.push(b' ')?;
        out.extend_from_slice(fragment.name.as_bytes())?;
        push_words(fragment.matches.as_slice(), out)?;
        out.push(b'\n')?;
        push_lines(alloc, fragment.children.as_slice(), out)?;
    }
    Ok(())
}

fn lines(alloc: Global, shown: Fragment) -> Result<Vec<u8>, AllocError> {
    let mut fragments = Vec::new(alloc);
    fragments.push(shown)?;
    let mut out = Vec::new(alloc);
    push_lines(alloc, fragments.as_slice(), &mut out)?;
    Ok(out)
}

fn gathered<L: Ledger>(
    alloc: Global,
    blank: Blank,
    forest: &Forest,
    root: &Label,
    query: &Query,
) -> Result<Fragment, Fault>
    requires name { blank.name ≡ L.name }
    requires parts { blank.parts ≡ L.parts }
    requires some { 0 < blank.parts }
{
    let mut steps = Steps::<L>::new(blank);
    let mut lists = MemLists::of(alloc, forest)?;
    let answers = elca(alloc, forest, query)?;
    fragment(
        alloc,
        forest,
        root,
        answers.as_slice(),
        query,
        &mut lists,
        &mut steps,
    )
}

/// The fragment of an exclusive lowest common ancestor.
fn found(alloc: Global, forest: &Forest, root: &str, text: &str) -> Result<Vec<u8>, Fail> {
    let query = query(alloc, text)?;
    let root = Label::parse(alloc, root)?;
    let shown = gathered::<Brand>(alloc, Blank::new(1), forest, &root, &query)?;
    Ok(lines(alloc, shown)?)
}

/// The fragment out of a keeper's entries.
fn stored(alloc: Global, forest: &Forest, root: &str, text: &str) -> Result<Vec<u8>, Fail> {
    let query = query(alloc, text)?;
    let root = Label::parse(alloc, root)?;
    let shown = stored_gathered::<Brand>(alloc, Blank::new(1), forest, &root, &query)?;
    Ok(lines(alloc, shown)?)
}

/// The fragment that the plain walk makes.
fn plainly(alloc: Global, forest: &Forest, root: &str, text: &str) -> Result<Vec<u8>, Fail> {
    let query = query(alloc, text)?;
    let root = Label::parse(alloc, root)?;
    let node = forest.find(&root).ok_or("no such node")?;
    let shown = plain_fragment(alloc, node, &query)?;
    Ok(lines(alloc, shown)?)
}

/// A root, a query, and the lines of its fragment.
const TABLE: [(&str, &str, &str); 5] = [
    (
        "1",
        "bears gold pos",
        "1 team\n1.1 name\n1.1.1 #text bears\n1.3 players\n1.3.1 player\n1.3.1.1 name\n1.3.1.1.1 #text gold\n1.3.1.3 pos pos\n",
    ),
    (
        "3",
        "bears pos",
        "3 team\n3.1 name\n3.1.1 #text bears\n3.3 player\n3.3.1 pos pos\n3.5 player\n3.5.1 pos pos\n",
    ),
    (
        "5",
        "xml liu",
        "5 bib\n5.3 note\n5.3.1 #text xml\n5.5 author\n5.5.1 #text liu\n",
    ),
    ("5.1.1", "liu xml", "5.1.1 #text liu xml\n"),
    (
        "1.3.3",
        "miller guard",
        "1.3.3 player\n1.3.3.1 name\n1.3.3.1.1 #text miller\n1.3.3.3 pos\n1.3.3.3.1 #text guard\n",
    ),
];

#[test]
fn fragments_are_those_of_the_plain_walk(rt: HostRuntime) -> Result<(), Fail> {
    let forest = loaded(rt.alloc())?;
    for (root, text, due) in TABLE {
        assert!(rt; found(rt.alloc(), &forest, root, text)?.as_slice() == due.as_bytes());
        assert!(rt; stored(rt.alloc(), &forest, root, text)?.as_slice() == due.as_bytes());
        assert!(rt; plainly(rt.alloc(), &forest, root, text)?.as_slice() == due.as_bytes());
    }
    Ok(())
}
