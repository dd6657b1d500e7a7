//! How many nodes stand in a subtree.

ghost use Rattle.std.specs.Prelude.{◌≡◌, ◌-◌, ◌^◌, min};
ghost use Rattle.mm_tree.specs.Trees.{nodes, one};
ghost use Rattle.mm_tree.specs.Numbering.{forest_of, node_of};

use crate::node::Node;

/// How many nodes the trees have, as far as the number fits.
pub fn nodes_in(trees: &[Node]) -> u64
    ensures { result ≡ min (nodes (forest_of trees.now)) (2 ^ 64 - 1) }
{
    let mut sum: u64 = 0;
    for tree in trees {
        let below = nodes_in(tree.children.as_slice());
        sum = sum.saturating_add(below).saturating_add(1);
    }
    sum
}

impl Node {
    /// How many nodes the node and all below it are, as far as the number fits.
    pub fn nodes(&self) -> u64
        ensures { result ≡ min (nodes (one (node_of self.now))) (2 ^ 64 - 1) }
    {
        nodes_in(self.children.as_slice()).saturating_add(1)
    }
}
