//! Where a new tree goes: below which node, and between which neighbours.

ghost use Rattle.std.specs.Prelude.{◌≡◌, ◌&&◌, not, false, [], slice_get, option_map, None, Some, MatchOption, IsTrue, IfOk, IfErr};
ghost use Rattle.mm_label.specs.Label.{level};
ghost use Rattle.mm_label.specs.Refusals.{front_of};
ghost use Rattle.mm_tree.specs.declared.plain.Kind.{Kind};
ghost use Rattle.mm_tree.specs.Trees.{Tree};
ghost use Rattle.mm_tree.specs.Validity.{is_element};
ghost use Rattle.mm_tree.specs.Numbering.{forest_of};
ghost use Rattle.mm_tree.specs.Forests.{is_well_formed, IsRefusal};
ghost use Rattle.mm_tree.specs.Edits.{found, gap, is_inside, is_text_node, label_in, placed_refusal, insert_refusal};
ghost use Rattle.mm_tree.specs.Gaps.{gap_of, IsOpen};
ghost use Rattle.mm_tree.specs.Inside.Ways.{gap_down, gap_here, node_label, label_before as left_label};

use super::find::{find_in, is_same, way};
use super::levels::is_text;
use super::place::Place;
use crate::node::Node;
use crate::plain::Kind;
use crate::refusal::{Refusal, TreeError};
use mm_label::Label;
use mm_list::at as item_at;

/// The labels around a new root: its parent's, or none on top, and those of its neighbours.
#[derive(Clone, Copy)]
pub struct Opening<'a> {
    pub parent: Option<&'a Label>,
    pub left: Option<&'a Label>,
    pub right: Option<&'a Label>,
}

fn label_at(trees: &[Node], at: usize) -> Option<&Label>
    ensures { option_map (λ l. l.now) result ≡ node_label trees.now at }
{
    match item_at(trees, at) {
        None => None,
        Some(node) => Some(&node.label),
    }
}

/// The label of the sibling before the one at `at`.
fn label_before(trees: &[Node], at: usize) -> Option<&Label>
    ensures { option_map (λ l. l.now) result ≡ left_label trees.now at }
{
    if 0 < at {
        label_at(trees, at - 1)
    } else {
        None
    }
}

fn opening_at<'a>(
    trees: &'a [Node],
    node: &'a Node,
    parent: Option<&'a Label>,
    place: Place,
    at: usize,
) -> Opening<'a>
    requires { slice_get trees.now at ≡ Some node.now }
    ensures { gap_of result ≡ gap_here place (front_of (option_map (λ p. p.now) parent.entry)) trees.now node.now at }
{
    let children = node.children.as_slice();
    match place {
        Place::Before => Opening {
            parent,
            left: label_before(trees, at),
            right: Some(&node.label),
        },
        Place::After => Opening {
            parent,
            left: Some(&node.label),
            right: label_at(trees, at + 1),
        },
        Place::First => Opening {
            parent: Some(&node.label),
            left: None,
            right: label_at(children, 0),
        },
        Place::Last => Opening {
            parent: Some(&node.label),
            left: label_before(children, children.len()),
            right: None,
        },
    }
}

/// Where a new tree goes, among these and those below them; None where the target isn't there.
pub fn opening_in<'a>(
    trees: &'a [Node],
    parent: Option<&'a Label>,
    place: Place,
    target: &Label,
) -> Option<Opening<'a>>
    ensures { MatchOption result (gap_down place target.now (front_of (option_map (λ p. p.now) parent.entry)) None (forest_of trees.now) ≡ None) (λ o. gap_down place target.now (front_of (option_map (λ p. p.now) parent.entry)) None (forest_of trees.now) ≡ Some (gap_of o)) }
{
    let at = way(trees, target);
    match item_at(trees, at) {
        None => None,
        Some(node) => {
            if is_same(&node.label, target) {
                Some(opening_at(trees, node, parent, place, at))
            } else {
                opening_in(node.children.as_slice(), Some(&node.label), place, target)
            }
        }
    }
}

/// How many levels there are down to the node with the label; none on top.
pub fn level_of(label: Option<&Label>) -> u32
    ensures { result ≡ level (front_of (option_map (λ l. l.now) label.entry)) }
{
    match label {
        None => 0,
        Some(label) => label.level(),
    }
}

/// Whether a tree put there would be a text's child.
fn is_in_text(place: Place, kind: &Kind) -> bool
    ensures { result ≡ (is_inside place && not (is_element kind.now)) }
{
    match place {
        Place::Before => false,
        Place::After => false,
        Place::First => is_text(kind),
        Place::Last => is_text(kind),
    }
}

/// Where a new tree goes, if the target is there and no text would get a child.
pub fn opening_for<'a>(
    trees: &'a [Node],
    place: Place,
    target: &Label,
) -> Result<Opening<'a>, TreeError>
    requires { IsTrue (is_well_formed (forest_of trees.now)) }
    ensures down { IfOk result (λ o. gap_down place target.now [] None (forest_of trees.now) ≡ Some (gap_of o)) }
    ensures here { IfOk result (λ o. gap place target.now [] None (forest_of trees.now) ≡ gap_of o) }
    ensures open { IfOk result (λ o. IsOpen (gap_of o)) }
    ensures childless { IfOk result (λ o. (is_inside place && is_text_node (found target.now (forest_of trees.now))) ≡ false) }
    ensures accepted { IfOk result (λ o. (t : Tree Kind) → insert_refusal place target.now t (forest_of trees.now) ≡ placed_refusal (level (gap_of o).parent) (label_in (gap_of o)) t) }
    ensures refused { IfErr result (λ e. (t : Tree Kind) → IsRefusal e (insert_refusal place target.now t (forest_of trees.now))) }
{
    let Some(node) = find_in(trees, target) else {
        return Err(TreeError::Refused(Refusal::Absent));
    };
    if is_in_text(place, &node.kind) {
        return Err(TreeError::Refused(Refusal::Leaf));
    }
    let Some(opening) = opening_in(trees, None, place, target) else {
        return Err(TreeError::Refused(Refusal::Absent));
    };
    Ok(opening)
}
