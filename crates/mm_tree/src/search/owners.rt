//! The exclusive lowest common ancestors, as the plain program that is compared with.

ghost use Rattle.std.specs.Prelude.{◌≡◌, ◌≤◌, ◌++◌, List, ℤ, IfOk, OnOk, length, cond};
ghost use Rattle.std.specs.List.{list_all};
ghost use Rattle.mm_tree.specs.Numbering.{forest_of, node_of};
ghost use Rattle.mm_tree.specs.Trees.{one};
ghost use Rattle.mm_tree.specs.Search.{worded};
ghost use Rattle.mm_tree.specs.Elca.{elca};
ghost use Rattle.mm_tree.specs.declared.node.Node.TheViews.{out-Node};
ghost use Rattle.mm_tree.specs.Inside.Searching.{either, held, own_elca, worded_node};
ghost use Rattle.mm_tree.specs.Inside.Spreads.{IsSpread};

use crate::forest::Forest;
use crate::node::Node;
use crate::search::{all, join, no_flags, own_flags};
use mm_label::Label;
use mm_list::Items;
use mm_words::{Query, Word};
use std::alloc::{AllocError, Global};

/// How the words of a query are spread among siblings.
#[derive(Drop)]
struct Spread {
    /// For each word, whether a sibling holds it, itself or below it.
    held: Items<bool>,
    /// For each word, whether a sibling that isn't full does.
    outside: Items<bool>,
}

/// Adds the flags of a sibling, unless it is full.
fn join_unless_full(flags: &mut Items<bool>, here: &[bool])
    requires { length here.now ≤ length flags.old }
    ensures { flags.new ≡ cond (list_all (λ flag. flag) here.now) flags.old (either flags.old here.now) }
{
    if !all(here) {
        join(flags, here);
    }
}

/// What a node holds, from what was found among its children. Where it owns every word, its label is put
/// at this place among the answers.
fn weigh(
    alloc: Global,
    node: &Node,
    inside: &Spread,
    query: &[Word],
    at: usize,
    answers: &mut Items<Label>,
) -> Result<Items<bool>, AllocError>
    requires inside { IsSpread inside.now query.now (worded (forest_of (out-Node node.now).children)) }
    requires within { at ≤ length answers.old }
    ensures held { IfOk result (λ flags. flags ≡ held query.now (worded (one (node_of node.now)))) }
    ensures answers { (before below : List (List ℤ)) → answers.old ≡ before ++ below → length before ≡ at
        → OnOk result (answers.new ≡ before ++ (own_elca query.now (worded_node node.now) (worded (forest_of (out-Node node.now).children)) ++ below)) }
{
    let mut flags = own_flags(alloc, &node.kind, query)?;
    join(&mut flags, inside.outside.as_slice());
    if all(flags.as_slice()) {
        answers.insert(at, node.label.copy(alloc)?)?;
    }
    join(&mut flags, inside.held.as_slice());
    Ok(flags)
}

/// Puts the answers among the trees behind the others, and tells how the words are spread.
fn search_owners(
    alloc: Global,
    trees: &[Node],
    query: &[Word],
    answers: &mut Items<Label>,
) -> Result<Spread, AllocError>
    ensures found { IfOk result (λ found. IsSpread found query.now (worded (forest_of trees.now))) }
    ensures answers { OnOk result (answers.new ≡ answers.old ++ elca query.now (worded (forest_of trees.now))) }
{
    let mut held = no_flags(alloc, query)?;
    let mut outside = no_flags(alloc, query)?;
    for tree in trees {
        let at = answers.len();
        let inside = search_owners(alloc, tree.children.as_slice(), query, answers)?;
        let here = weigh(alloc, tree, &inside, query, at, answers)?;
        join(&mut held, here.as_slice());
        join_unless_full(&mut outside, here.as_slice());
    }
    Ok(Spread { held, outside })
}

/// The labels of the exclusive lowest common ancestors, in the order of the document: of the nodes that
/// hold every word of the query outside those of their children that hold every word themselves (Xu and
/// Papakonstantinou, "Efficient LCA based Keyword Search in XML Data", EDBT 2008).
pub fn elca(alloc: Global, forest: &Forest, query: &Query) -> Result<Items<Label>, AllocError>
    ensures { IfOk result (λ labels. labels ≡ elca query.now (worded (forest_of forest.now))) }
{
    let mut answers = Items::new(alloc);
    let _ = search_owners(alloc, forest.trees(), query.words(), &mut answers)?;
    Ok(answers)
}
