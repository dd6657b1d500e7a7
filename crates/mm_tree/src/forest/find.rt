//! The way down to a node by its label.

ghost use Rattle.std.specs.Prelude.{◌≡◌, None, Some, not, MatchOption, IsTrue};
ghost use Rattle.std.specs.List.{prefix_len, starts_with};
ghost use Rattle.std.specs.Ordering.{int_eq};
ghost use Rattle.std.specs.Cmp.Lexicographic.{pointwise};
ghost use Rattle.mm_tree.specs.declared.node.Node.TheViews.{out-Node};
ghost use Rattle.mm_tree.specs.Numbering.{forest_of, node_of};
ghost use Rattle.mm_tree.specs.Forests.{is_well_formed};
ghost use Rattle.mm_tree.specs.Inside.Ways.{AreSiblings, found_down, is_passed};

use crate::node::Node;
use mm_label::Label;
use mm_list::at as item_at;

/// Whether the node with the label is the target or above it.
fn leads_to(label: &Label, target: &Label) -> bool
    ensures { result ≡ starts_with int_eq target.now label.now }
{
    label.is_prefix(target)
}

pub fn is_same(label: &Label, target: &Label) -> bool
    ensures { result ≡ pointwise int_eq label.now target.now }
{
    label == target
}

/// How many siblings stand before the one on the way to the target.
pub fn way(trees: &[Node], target: &Label) -> usize
    ensures { result ≡ prefix_len (λ n. not (starts_with int_eq target.now (out-Node n).label)) trees.now }
{
    trees
        .iter()
        .take_while(|n| !leads_to(&n.label, target))
        .count()
}

/// Whether the node with the label and all below it come before the target.
fn is_passed(label: &Label, target: &Label) -> bool
    ensures { result ≡ is_passed target.now label.now }
{
    label < target && !leads_to(label, target)
}

/// How many siblings come before the target with all below them. As labels of siblings rise, these are
/// the first ones, and they are counted by halving.
fn passed(trees: &[Node], target: &Label) -> usize
    ensures { AreSiblings (forest_of trees.now) → result ≡ prefix_len (λ n. is_passed target.now (out-Node n).label) trees.now }
{
    trees.partition_point(|n| is_passed(&n.label, target))
}

/// The node with the label, among these siblings and those below them. It is sought by labels alone: among
/// siblings by halving, and below the one whose label is a prefix.
fn find_among<'a>(trees: &'a [Node], target: &Label) -> Option<&'a Node>
    ensures { AreSiblings (forest_of trees.now) → MatchOption result (found_down target.now (forest_of trees.now) ≡ None) (λ n. found_down target.now (forest_of trees.now) ≡ Some (node_of n.now)) }
{
    let at = passed(trees, target);
    match item_at(trees, at) {
        None => None,
        Some(node) => {
            if is_same(&node.label, target) {
                Some(node)
            } else if leads_to(&node.label, target) {
                find_among(node.children.as_slice(), target)
            } else {
                None
            }
        }
    }
}

/// The node with the label, in a well-formed forest.
pub fn find_in<'a>(trees: &'a [Node], target: &Label) -> Option<&'a Node>
    requires { IsTrue (is_well_formed (forest_of trees.now)) }
    ensures { MatchOption result (found_down target.now (forest_of trees.now) ≡ None) (λ n. found_down target.now (forest_of trees.now) ≡ Some (node_of n.now)) }
{
    find_among(trees, target)
}
