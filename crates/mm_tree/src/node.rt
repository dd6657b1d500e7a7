// A node with its label, and with all below it.
ghost use Rattle.std.specs.Prelude.{◌≡◌, ◌+◌};
ghost use Rattle.mm_tree.specs.Trees.{tree_of};
ghost use Rattle.mm_tree.specs.Numbering.{child_label, number, Labels, Numbers};

use crate::plain::{Kind, Plain};
use crate::refusal::{Refusal, TreeError};
use mm_label::{Label, child};
use mm_list::Items;
use std::alloc::Global;

/// A node of a forest: its label, what it is, and its children in the order of the document.
#[derive(Drop)]
pub struct Node {
    pub label: Label,
    pub kind: Kind,
    pub children: Items<Node>,
}

/// Nodes in the order of the document.
pub type Nodes = Items<Node>;

/// The label of the child that has so many siblings before it.
fn child_label(alloc: Global, parent: &Label, siblings: usize) -> Result<Label, TreeError>
    ensures { Labels result (child_label parent.now (siblings + 1)) }
{
    // With more siblings the component would be out of range.
    if siblings > 2147487775 {
        return Err(TreeError::Refused(Refusal::Room));
    }
    let component = 2 * (siblings as i64) + 1;
    Ok(child(alloc, Some(parent), &[component])?)
}

/// Gives the root the label, and each node below it its parent's and one segment more.
pub fn number(alloc: Global, tree: Plain, label: Label) -> Result<Node, TreeError>
    ensures { Numbers result (number label (tree_of tree)) }
{
    let Plain { kind, children } = tree;
    let mut nodes = Items::from_vec(Vec::with_capacity(alloc, children.len())?);
    for child in children.into_vec() {
        let under = child_label(alloc, &label, nodes.len())?;
        let numbered = number(alloc, child, under)?;
        nodes.push(numbered)?;
    }
    Ok(Node {
        label,
        kind,
        children: nodes,
    })
}
