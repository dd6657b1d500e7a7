//! Whether a tree may stand at a label.

ghost use Rattle.std.specs.Prelude.{◌≡◌, None, option_map};
ghost use Rattle.mm_label.specs.Label.{is_child};
ghost use Rattle.mm_tree.specs.declared.node.Node.TheViews.{out-Node};
ghost use Rattle.mm_tree.specs.Forests.{are_labelled};
ghost use Rattle.mm_tree.specs.Numbering.{forest_of, node_of};
ghost use Rattle.mm_tree.specs.Trees.{every, has_some, one};
ghost use Rattle.mm_tree.specs.Validity.{is_element};
ghost use Rattle.mm_image.specs.Inside.Placing.{comes_after, fits_place, is_placed};

use mm_label::Label;
use mm_tree::{Kind, LEVEL_LIMIT, Node};
use std::slice;

/// Whether the label is the parent's and one segment.
fn is_child(parent: &Label, label: &Label) -> bool
    ensures { result ≡ is_child parent.now label.now }
{
    // What spells a label ends in an odd component.
    let _spelled = label.as_bytes();
    parent.is_prefix(label) && label.level() - parent.level() == 1
}

/// Whether the label comes after the one on the left, if there is one.
fn comes_after(left: Option<&Label>, label: &Label) -> bool
    ensures { result ≡ comes_after (option_map (λ l. l.now) left.entry) label.now }
{
    match left {
        Some(left) => left < label,
        None => true,
    }
}

/// Whether each label is its parent's and one segment, and those of siblings rise.
fn are_labelled(parent: &Label, nodes: &[Node]) -> bool
    ensures { result ≡ are_labelled parent.now None (forest_of nodes.now) }
{
    let mut left = None;
    for node in nodes {
        if !is_child(parent, &node.label)
            || !comes_after(left, &node.label)
            || !are_labelled(&node.label, node.children.as_slice())
        {
            return false;
        }
        left = Some(&node.label);
    }
    true
}

fn is_element(kind: &Kind) -> bool
    ensures { result ≡ is_element kind.now }
{
    matches!(kind, Kind::Element { .. })
}

/// Whether the node doesn't have too many levels, and is no text with children.
fn fits_place(node: &Node) -> bool
    ensures { result ≡ fits_place (record { label = (out-Node node.now).label; kind = (out-Node node.now).kind }) (has_some (forest_of (out-Node node.now).children)) }
{
    node.label.level() <= LEVEL_LIMIT && (is_element(&node.kind) || node.children.is_empty())
}

/// Whether this holds for all of them, and all below them.
fn fit_places(nodes: &[Node]) -> bool
    ensures { result ≡ every fits_place (forest_of nodes.now) }
{
    for node in nodes {
        if !fits_place(node) || !fit_places(node.children.as_slice()) {
            return false;
        }
    }
    true
}

/// Whether the labels, the levels and the sorts of the nodes are those of a tree at the label.
pub fn is_placed(label: &Label, node: &Node) -> bool
    ensures { result ≡ is_placed label.now (node_of node.now) }
{
    label == &node.label
        && are_labelled(&node.label, node.children.as_slice())
        && fit_places(slice::from_ref(node))
        && (is_element(&node.kind) || label.level() > 1)
}
