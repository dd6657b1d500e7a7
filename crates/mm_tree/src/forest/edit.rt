//! Changes at the target: one way down, and what is done there.

ghost use Rattle.std.specs.Prelude.{◌≡◌, ◌<◌, length, map, OnOk, OnErr};
ghost use Rattle.mm_tree.specs.Numbering.{forest_of, node_of};
ghost use Rattle.mm_tree.specs.Inside.Ways.{edit_down, change_of, at_index};

use super::find::{is_same, way};
use super::place::Place;
use crate::node::Node;
use mm_label::Label;
use mm_list::Items;
use std::alloc::AllocError;

/// What is done at a node: all that can fail but for one allocation was done before.
#[derive(Drop)]
pub enum Edit {
    Insert(Place, Node),
    Delete,
    Replace(Node),
}

/// Makes the edit at one of the siblings. An `Err` changes nothing.
fn edit_at(trees: &mut Items<Node>, at: usize, edit: Edit) -> Result<(), AllocError>
    requires { at < length trees.old }
    ensures ok { OnOk result (forest_of trees.new ≡ at_index (change_of edit) at (map node_of trees.old)) }
    ensures err { OnErr result (trees.new ≡ trees.old) }
{
    match edit {
        Edit::Insert(Place::Before, node) => trees.insert(at, node),
        Edit::Insert(Place::After, node) => trees.insert_after(at, node),
        Edit::Insert(Place::First, node) => trees.at_mut(at).children.insert(0, node),
        Edit::Insert(Place::Last, node) => trees.at_mut(at).children.push(node),
        Edit::Delete => {
            trees.remove(at);
            Ok(())
        }
        Edit::Replace(node) => {
            trees.set(at, node);
            Ok(())
        }
    }
}

/// Makes the edit at the target, among these and those below them. An `Err` changes nothing.
pub fn edit_below(trees: &mut Items<Node>, target: &Label, edit: Edit) -> Result<(), AllocError>
    ensures ok { OnOk result (forest_of trees.new ≡ edit_down (change_of edit) target.now (forest_of trees.old)) }
    ensures err { OnErr result (trees.new ≡ trees.old) }
{
    let at = way(trees.as_slice(), target);
    if at >= trees.len() {
        return Ok(());
    }
    let node = trees.at_mut(at);
    if is_same(&node.label, target) {
        return edit_at(trees, at, edit);
    }
    edit_below(&mut node.children, target, edit)
}
