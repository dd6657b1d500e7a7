//! The keyword lists of a forest: under each word the labels of the nodes whose own it is.

ghost use Rattle.std.specs.Prelude.{◌≡◌, ◌++◌, ◌∷◌, [], ℕ, List, IfOk, OnOk, if◌then◌else◌, bytes_eq};
ghost use Rattle.std.specs.List.{list_any};
ghost use Rattle.mm_tree.specs.KeywordLists.{AreFilled, list_in};
ghost use Rattle.mm_tree.specs.Numbering.{forest_of};
ghost use Rattle.mm_tree.specs.Search.{list_of, own, worded};

use crate::node::Node;
use crate::own::own_words;
use crate::plain::Kind;
use mm_label::Label;
use mm_list::Items;
use mm_words::Word;
use std::alloc::{AllocError, Global};
use std::collections::BTreeMap;

/// The labels of the nodes that hold a word, in the order of the document, under each word that a node holds.
pub type KeywordLists = BTreeMap<Word, Items<Label>>;

/// Puts a label behind the list of a word.
fn put(alloc: Global, lists: &mut KeywordLists, word: Word, label: Label) -> Result<(), AllocError>
    ensures lists { OnOk result ((w : List ℕ) → list_in lists.new w ≡ list_in lists.old w ++ (if bytes_eq w word then label ∷ [] else [])) }
    ensures filled { OnOk result (AreFilled lists.old → AreFilled lists.new) }
{
    if let Some(list) = lists.get_mut(&word) {
        list.push(label)?;
        return Ok(());
    }
    let mut list = Items::new(alloc);
    list.push(label)?;
    lists.insert(word, list)?;
    Ok(())
}

/// Puts the label of a node behind the lists of its own words.
pub fn put_words(
    alloc: Global,
    lists: &mut KeywordLists,
    label: &Label,
    kind: &Kind,
) -> Result<(), AllocError>
    ensures lists { OnOk result ((w : List ℕ) → list_in lists.new w ≡ list_in lists.old w ++ (if list_any (bytes_eq w) (own kind.now) then label.now ∷ [] else [])) }
    ensures filled { OnOk result (AreFilled lists.old → AreFilled lists.new) }
{
    let words = own_words(alloc, kind)?;
    for word in words.into_vec() {
        put(alloc, lists, word, label.copy(alloc)?)?;
    }
    Ok(())
}

/// Puts the labels of the nodes and of all below them behind the lists of their own words.
fn gather(alloc: Global, lists: &mut KeywordLists, nodes: &[Node]) -> Result<(), AllocError>
    ensures lists { OnOk result ((w : List ℕ) → list_in lists.new w ≡ list_in lists.old w ++ list_of w (worded (forest_of nodes.now))) }
    ensures filled { OnOk result (AreFilled lists.old → AreFilled lists.new) }
{
    for node in nodes {
        put_words(alloc, lists, &node.label, &node.kind)?;
        gather(alloc, lists, node.children.as_slice())?;
    }
    Ok(())
}

/// The keyword lists of the nodes and of all below them. The work is near linear in their words.
pub fn keyword_lists(alloc: Global, nodes: &[Node]) -> Result<KeywordLists, AllocError>
    ensures lists { IfOk result (λ lists. (w : List ℕ) → list_in lists w ≡ list_of w (worded (forest_of nodes.now))) }
    ensures filled { IfOk result (λ lists. AreFilled lists) }
{
    let mut lists = BTreeMap::new(alloc);
    gather(alloc, &mut lists, nodes)?;
    Ok(lists)
}
