//! Searches by words, as the plain program that is compared with.

ghost use Rattle.std.specs.Prelude.{◌≡◌, ◌≤◌, ◌++◌, ◌||◌, Bool, List, IfOk, OnOk, length, map};
ghost use Rattle.std.specs.List.{list_any, list_all};
ghost use Rattle.std.specs.Str.{bytes_eq};
ghost use Rattle.mm_tree.specs.Numbering.{forest_of, node_of};
ghost use Rattle.mm_tree.specs.Trees.{none, one};
ghost use Rattle.mm_tree.specs.Search.{own, worded, slca, some_full};
ghost use Rattle.mm_tree.specs.declared.node.Node.TheViews.{out-Node};
ghost use Rattle.mm_tree.specs.Inside.Found.{IsFound};
ghost use Rattle.mm_tree.specs.Inside.Searching.{either, held, own_answer, worded_node};

mod owners;

use crate::forest::Forest;
use crate::node::Node;
use crate::own::push_own_words;
use crate::plain::Kind;
use mm_label::Label;
use mm_list::Items;
use mm_words::{Query, Word};
pub use owners::elca;
use std::alloc::{AllocError, Global};

/// Adds the others' flags to the flags.
pub fn join(flags: &mut Items<bool>, others: &[bool])
    requires { length others.now ≤ length flags.old }
    ensures { flags.new ≡ either flags.old others.now }
{
    for at in 0..others.len() {
        if others[at] {
            flags.set(at, true);
        }
    }
}

pub fn all(flags: &[bool]) -> bool
    ensures { result ≡ list_all (λ flag. flag) flags.now }
{
    flags.iter().all(|flag| *flag)
}

pub fn has_word(list: &[Word], word: &Word) -> bool
    ensures { result ≡ list_any (bytes_eq word.now) list.now }
{
    list.contains(word)
}

/// For each word of the query, whether it is one of the node's own.
pub fn own_flags(alloc: Global, kind: &Kind, query: &[Word]) -> Result<Items<bool>, AllocError>
    ensures { IfOk result (λ flags. flags ≡ map (λ w. list_any (bytes_eq w) (own kind.now)) query.now) }
{
    let mut list = Vec::new(alloc);
    push_own_words(alloc, kind, &mut list)?;
    let mut flags = Items::new(alloc);
    for word in query {
        flags.push(has_word(list.as_slice(), word))?;
    }
    Ok(flags)
}

/// A flag for each word of the query, none of them set.
pub fn no_flags(alloc: Global, query: &[Word]) -> Result<Items<bool>, AllocError>
    ensures { IfOk result (λ flags. flags ≡ held query.now none) }
{
    Ok(Items::from_vec(vec![in alloc; false; query.len()]?))
}

/// What a search found in some trees.
#[derive(Drop)]
pub struct Found {
    /// For each word of the query, whether it is one of a node's.
    pub held: Items<bool>,
    /// Whether one of the roots holds every word, itself or below it.
    pub some_full: bool,
}

/// What a node holds, from what was found among its children. Where it is an answer, its label is put
/// behind the others.
fn take_up(
    alloc: Global,
    node: &Node,
    inside: &Found,
    query: &[Word],
    answers: &mut Items<Label>,
) -> Result<Found, AllocError>
    requires { IsFound inside.now query.now (worded (forest_of (out-Node node.now).children)) }
    ensures found { IfOk result (λ found. IsFound found query.now (worded (one (node_of node.now)))) }
    ensures answers { OnOk result (answers.new ≡ answers.old ++ own_answer query.now (worded_node node.now) (worded (forest_of (out-Node node.now).children))) }
{
    let mut held = own_flags(alloc, &node.kind, query)?;
    join(&mut held, inside.held.as_slice());
    let full = all(held.as_slice());
    if full && !inside.some_full {
        answers.push(node.label.copy(alloc)?)?;
    }
    Ok(Found {
        held,
        some_full: full,
    })
}

/// Puts the answers among the trees behind the others, and tells what was found.
pub fn search(
    alloc: Global,
    trees: &[Node],
    query: &[Word],
    answers: &mut Items<Label>,
) -> Result<Found, AllocError>
    ensures found { IfOk result (λ found. IsFound found query.now (worded (forest_of trees.now))) }
    ensures answers { OnOk result (answers.new ≡ answers.old ++ slca query.now (worded (forest_of trees.now))) }
{
    let mut held = no_flags(alloc, query)?;
    let mut some_full = false;
    for tree in trees {
        let inside = search(alloc, tree.children.as_slice(), query, answers)?;
        let here = take_up(alloc, tree, &inside, query, answers)?;
        join(&mut held, here.held.as_slice());
        some_full |= here.some_full;
    }
    Ok(Found { held, some_full })
}

/// The labels of the smallest lowest common ancestors, in the order of the document: of the nodes that
/// hold every word of the query, themselves or below them, those that have no such child (Xu and
/// Papakonstantinou, "Efficient Keyword Search for Smallest LCAs in XML Databases", SIGMOD 2005).
pub fn slca(alloc: Global, forest: &Forest, query: &Query) -> Result<Items<Label>, AllocError>
    ensures { IfOk result (λ labels. labels ≡ slca query.now (worded (forest_of forest.now))) }
{
    let mut answers = Items::new(alloc);
    let _ = search(alloc, forest.trees(), query.words(), &mut answers)?;
    Ok(answers)
}
