//! How many of the nodes that leave, and of those that come, hold each word.

ghost use Rattle.std.specs.Prelude.{◌≡◌, ◌||◌, ℕ, List, IfOk, OnOk, is_some, length};
ghost use Rattle.std.specs.BTreeMap.{get};
ghost use Rattle.std.specs.BTreeSet.{contains};
ghost use Rattle.std.specs.Cmp.Lexicographic.{slice_cmp};
ghost use Rattle.std.specs.Ordering.{nat_cmp};
ghost use Rattle.mm_tree.specs.KeywordLists.{list_in};
ghost use Rattle.mm_tree.specs.Numbering.{forest_of};
ghost use Rattle.mm_edit.specs.Inside.Changes.{changes};

use mm_tree::{KeywordLists, Node, keyword_lists};
use mm_words::Word;
use std::alloc::{AllocError, Global};
use std::collections::BTreeSet;

/// A word, how many of the nodes that leave hold it, and how many of those that come.
#[derive(Drop)]
pub struct WordChange {
    pub word: Word,
    pub taken: u64,
    pub given: u64,
}

/// How many nodes the list of a word has.
fn number_in(lists: &KeywordLists, word: &Word) -> u64
    ensures { result ≡ length (list_in lists.now word.now) }
{
    match lists.get(word) {
        Some(labels) => labels.len() as u64,
        None => 0,
    }
}

/// Puts the words of the lists among the others.
fn insert_words(
    alloc: Global,
    lists: &KeywordLists,
    words: &mut BTreeSet<Word>,
) -> Result<(), AllocError>
    ensures { OnOk result ((w : List ℕ) → contains (slice_cmp nat_cmp) words.new w ≡ (contains (slice_cmp nat_cmp) words.old w || is_some (get (slice_cmp nat_cmp) lists.now w))) }
{
    for (word, _labels) in lists {
        words.insert(word.copy(alloc)?)?;
    }
    Ok(())
}

/// The words of the nodes of both, with all below them, in order.
pub fn word_changes(
    alloc: Global,
    taken: &[Node],
    given: &[Node],
) -> Result<Vec<WordChange>, AllocError>
    ensures { IfOk result (λ told. told.items ≡ changes (forest_of taken.now) (forest_of given.now)) }
{
    let leaving = keyword_lists(alloc, taken)?;
    let coming = keyword_lists(alloc, given)?;
    let mut words = BTreeSet::new(alloc);
    insert_words(alloc, &leaving, &mut words)?;
    insert_words(alloc, &coming, &mut words)?;
    let mut changes = Vec::new(alloc);
    for word in words {
        let taken = number_in(&leaving, &word);
        let given = number_in(&coming, &word);
        changes.push(WordChange { word, taken, given })?;
    }
    Ok(changes)
}
