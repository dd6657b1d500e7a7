//! What a fragment shows of a node.

ghost use Rattle.std.specs.Prelude.{◌≡◌, IfOk};
ghost use Rattle.mm_tree.specs.Fragments.{fragment_tree};
ghost use Rattle.mm_tree.specs.Trees.{none};
ghost use Rattle.mm_tree.specs.Numbering.{forest_of};
ghost use Rattle.mm_tree.specs.Edits.{found};
ghost use Rattle.mm_tree.specs.Hits.{name_at};
ghost use Rattle.mm_fragment.specs.Inside.Piling.{roots, shown_all};
ghost use Rattle.mm_fragment.specs.Showing.{own_in, shown_at};

use mm_label::Label;
use mm_list::Items;
use mm_match::Mark;
use mm_tree::calls::own_in;
use mm_tree::{Forest, Fragment, Text};
use mm_words::Word;
use std::alloc::{AllocError, Global};

/// A node's name, and the words of a query that it holds itself.
#[derive(Drop)]
struct Shown {
    name: Text,
    matches: Items<Word>,
}

/// What there is to show of the node that has the label. Nothing where no node has it.
fn look(alloc: Global, forest: &Forest, label: &Label, query: &[Word]) -> Result<Shown, AllocError>
    ensures name { IfOk result (λ shown. shown.name ≡ name_at (forest_of forest.now) label.now) }
    ensures matches { IfOk result (λ shown. shown.matches ≡ own_in query.now (found label.now (forest_of forest.now))) }
{
    match forest.find(label) {
        Some(node) => Ok(Shown {
            name: Text::from_str(alloc, node.kind.name())?,
            matches: own_in(alloc, &node.kind, query)?,
        }),
        None => Ok(Shown {
            name: Text::from_str(alloc, "")?,
            matches: Items::new(alloc),
        }),
    }
}

/// What a fragment shows of the node that has the label, without its children.
pub fn show(
    alloc: Global,
    forest: &Forest,
    label: Label,
    query: &[Word],
) -> Result<Fragment, AllocError>
    ensures { IfOk result (λ f. fragment_tree f ≡ (shown_at query.now (forest_of forest.now) label, none)) }
{
    let Shown { name, matches } = look(alloc, forest, &label, query)?;
    Ok(Fragment {
        label,
        name,
        matches,
        children: Items::new(alloc),
    })
}

/// What a fragment shows of each of these nodes, without their children.
pub fn show_all(
    alloc: Global,
    forest: &Forest,
    nodes: Items<Mark>,
    query: &[Word],
) -> Result<Items<Fragment>, AllocError>
    ensures { IfOk result (λ shown. roots shown ≡ shown_all query.now (forest_of forest.now) nodes) }
{
    let mut shown = Items::new(alloc);
    let mut left = nodes;
    while let Some(Mark { label, .. }) = left.pop() {
        shown.push(show(alloc, forest, label, query)?)?;
    }
    shown.reverse();
    Ok(shown)
}
