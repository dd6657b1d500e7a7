//! The fragment of a node, and the words that it shows of a node.

ghost use Rattle.std.specs.Prelude.{◌≡◌, ◌&&◌, not, Bool, ℕ, List, IfOk, OnOk, filter};
ghost use Rattle.std.specs.List.{list_all, list_any};
ghost use Rattle.std.specs.Str.{bytes_eq};
ghost use Rattle.mm_tree.specs.declared.node.Node.TheViews.{out-Node};
ghost use Rattle.mm_tree.specs.Fragments.{contributors, fragment, fragment_tree, fragment_trees, less, named, rows_of, shown, some, subset, named_tree};
ghost use Rattle.mm_tree.specs.Inside.Fragmenting.{named_node, stands_out};
ghost use Rattle.mm_tree.specs.Numbering.{forest_of};
ghost use Rattle.mm_tree.specs.Search.{own, worded, held_by};
ghost use Rattle.mm_tree.specs.Inside.Searching.{worded_node};

use crate::fragment::Fragment;
use crate::node::Node;
use crate::own::push_own_words;
use crate::plain::Kind;
use crate::search::{all, has_word, join, own_flags, search};
use crate::text::Text;
use mm_list::Items;
use mm_words::{Query, Word};
use std::alloc::{AllocError, Global};

/// The words of the query that are the node's own, in the query's order.
pub fn own_in(alloc: Global, kind: &Kind, query: &[Word]) -> Result<Items<Word>, AllocError>
    ensures { IfOk result (λ words. words ≡ filter (λ w. list_any (bytes_eq w) (own kind.now)) query.now) }
{
    let mut list = Vec::new(alloc);
    push_own_words(alloc, kind, &mut list)?;
    let mut words = Items::new(alloc);
    for word in query {
        if has_word(list.as_slice(), word) {
            words.push(word.copy(alloc)?)?;
        }
    }
    Ok(words)
}

/// For each word of the query, whether the node holds it, itself or below it.
fn row(alloc: Global, node: &Node, query: &[Word]) -> Result<Items<bool>, AllocError>
    ensures { IfOk result (λ row. row ≡ held_by query.now (worded_node node.now) (worded (forest_of (out-Node node.now).children))) }
{
    let mut answers = Items::new(alloc);
    let inside = search(alloc, node.children.as_slice(), query, &mut answers)?;
    let mut held = own_flags(alloc, &node.kind, query)?;
    join(&mut held, inside.held.as_slice());
    Ok(held)
}

/// The rows of those of the siblings that aren't full.
fn rows(alloc: Global, nodes: &[Node], query: &[Word]) -> Result<Items<Items<bool>>, AllocError>
    ensures { IfOk result (λ rows. rows ≡ rows_of query.now (named (forest_of nodes.now))) }
{
    let mut rows = Items::new(alloc);
    for node in nodes {
        let row = row(alloc, node, query)?;
        if !all(row.as_slice()) {
            rows.push(row)?;
        }
    }
    Ok(rows)
}

/// Whether the other row has all that the one has.
fn is_subset(row: &[bool], other: &[bool]) -> bool
    ensures { result ≡ subset row.now other.now }
{
    match row {
        [] => true,
        [flag, row @ ..] => match other {
            [] => true,
            [held, other @ ..] => (!*flag || *held) && is_subset(row, other),
        },
    }
}

/// Whether the other row has all that the one has, and more.
fn is_less(row: &[bool], other: &[bool]) -> bool
    ensures { result ≡ less row.now other.now }
{
    is_subset(row, other) && !is_subset(other, row)
}

fn some(row: &[bool]) -> bool
    ensures { result ≡ some row.now }
{
    row.iter().any(|flag| *flag)
}

fn is_beaten(row: &[bool], rows: &[Items<bool>]) -> bool
    ensures { result ≡ list_any (less row.now) rows.now }
{
    rows.iter().any(|other| is_less(row, other.as_slice()))
}

/// Whether a node with this row, among siblings with those, is a contributor.
fn stands_out(row: &[bool], rows: &[Items<bool>]) -> bool
    ensures { result ≡ stands_out rows.now row.now }
{
    !all(row) && some(row) && !is_beaten(row, rows)
}

/// What a fragment shows of a node, with the fragments of its children.
fn show(
    alloc: Global,
    node: &Node,
    children: Items<Fragment>,
    query: &[Word],
) -> Result<Fragment, AllocError>
    ensures { IfOk result (λ f. fragment_tree f ≡ (shown query.now (named_node node.now), fragment_trees children)) }
{
    Ok(Fragment {
        label: node.label.copy(alloc)?,
        name: Text::from_str(alloc, node.kind.name())?,
        matches: own_in(alloc, &node.kind, query)?,
        children,
    })
}

/// The contributors among siblings, each with its fragment.
fn pick(alloc: Global, nodes: &[Node], query: &[Word]) -> Result<Items<Fragment>, AllocError>
    ensures { IfOk result (λ fs. fragment_trees fs ≡ contributors query.now (rows_of query.now (named (forest_of nodes.now))) (named (forest_of nodes.now))) }
{
    let rows = rows(alloc, nodes, query)?;
    let mut picked = Items::new(alloc);
    for node in nodes {
        let row = row(alloc, node, query)?;
        if stands_out(row.as_slice(), rows.as_slice()) {
            let children = pick(alloc, node.children.as_slice(), query)?;
            picked.push(show(alloc, node, children, query)?)?;
        }
    }
    Ok(picked)
}

/// The fragment of a node: its label, its name and the words of the query that it holds itself, and the
/// fragments of the contributors among its children (Liu and Chen, "Reasoning and Identifying Relevant
/// Matches for XML Keyword Search", VLDB 2008). A child that holds every word of the query is none.
pub fn fragment(alloc: Global, root: &Node, query: &Query) -> Result<Fragment, AllocError>
    ensures { IfOk result (λ f. fragment_tree f ≡ fragment query.now (named_tree root.now)) }
{
    let children = pick(alloc, root.children.as_slice(), query.words())?;
    show(alloc, root, children, query.words())
}
