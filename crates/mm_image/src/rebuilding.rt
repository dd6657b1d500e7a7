//! A tree from its nodes in the order of the document, gone over from the last to the first: each takes in
//! the trees that were made last, as far as they lie below it.

ghost use Rattle.std.specs.Prelude.{◌≡◌, IfOk, OnOk, drop, map, reverse, take};
ghost use Rattle.std.specs.List.{prefix_len};
ghost use Rattle.mm_label.specs.Fronts.{is_front};
ghost use Rattle.mm_tree.specs.declared.node.Node.TheViews.{out-Node};
ghost use Rattle.mm_tree.specs.Formed.{node_label};
ghost use Rattle.mm_tree.specs.Numbering.{forest_of};
ghost use Rattle.mm_tree.specs.Rebuild.{rebuild};
ghost use Rattle.mm_image.specs.Inside.Rebuilding.{bared, count_below};

use mm_label::Label;
use mm_list::Items;
use mm_tree::{Kind, Node, Nodes};
use std::alloc::{AllocError, Global};

/// A node without what lies below it.
#[derive(Drop)]
pub struct Bare {
    pub label: Label,
    pub kind: Kind,
}

/// How many of the trees that were made last lie below the label.
fn count_below(label: &Label, trees: &[Node]) -> usize
    ensures { result ≡ count_below label.now (reverse trees.now) }
{
    trees
        .iter()
        .rev()
        .take_while(|tree| label.is_prefix(&tree.label))
        .count()
}

/// Takes off the trees that lie below the label, in the order of the document.
fn take_below(label: &Label, trees: &mut Vec<Node>) -> Result<Vec<Node>, AllocError>
    ensures below { IfOk result (λ below. below.items ≡ take (count_below label.now (reverse trees.old.items)) (reverse trees.old.items)) }
    ensures others { OnOk result (reverse trees.new.items ≡ drop (count_below label.now (reverse trees.old.items)) (reverse trees.old.items)) }
{
    let count = count_below(label, trees.as_slice());
    let mut below = trees.split_off(trees.len() - count)?;
    below.reverse();
    Ok(below)
}

/// The trees of these nodes, the first of them last.
pub fn rebuild(alloc: Global, nodes: Vec<Bare>) -> Result<Nodes, AllocError>
    ensures { IfOk result (λ trees. forest_of (reverse trees) ≡ rebuild node_label (bared nodes.items)) }
{
    let mut trees = Vec::new(alloc);
    let mut left = nodes;
    while let Some(Bare { label, kind }) = left.pop() {
        let children = Items::from_vec(take_below(&label, &mut trees)?);
        trees.push(Node {
            label,
            kind,
            children,
        })?;
    }
    Ok(Items::from_vec(trees))
}
