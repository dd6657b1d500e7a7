//! Insertion, deletion and replacement: all refusals and all labels first, then one change.

ghost use Rattle.std.specs.Prelude.{◌≡◌, ◌-◌, ◌^◌, IsTrue, IfOk, IfErr, OnOk, OnErr, None, min};
ghost use Rattle.mm_tree.specs.Trees.{nodes, one, tree_of};
ghost use Rattle.mm_tree.specs.Validity.{is_valid_tree};
ghost use Rattle.mm_tree.specs.Numbering.{forest_of};
ghost use Rattle.mm_tree.specs.Forests.{is_well_formed, IsRefusal};
ghost use Rattle.mm_tree.specs.Edits.{insert, delete, replace, inserted_label, subtree_size, insert_refusal, delete_refusal, replace_refusal};

use super::Done;
use super::edit::{Edit, edit_below};
use super::find::find_in;
use super::label::new_label;
use super::levels::placed;
use super::opening::{level_of, opening_for};
use super::place::Place;
use super::size::nodes_in;
use crate::node::{Node, number};
use crate::plain::Plain;
use crate::refusal::{Refusal, TreeError};
use mm_label::Label;
use mm_list::Items;
use std::alloc::Global;

/// The tree, with its labels, at the place. An `Err` changes nothing.
pub fn insert_in(
    trees: &mut Items<Node>,
    alloc: Global,
    place: Place,
    target: &Label,
    tree: Plain,
) -> Result<Done, TreeError>
    requires formed { IsTrue (is_well_formed (forest_of trees.old)) }
    requires valid { IsTrue (is_valid_tree (tree_of tree)) }
    ensures inserted { OnOk result (forest_of trees.new ≡ insert place target.now (tree_of tree) (forest_of trees.old)) }
    ensures label { IfOk result (λ done. done.label ≡ inserted_label place target.now (forest_of trees.old)) }
    ensures nodes { IfOk result (λ done. done.nodes ≡ nodes (one (tree_of tree))) }
    ensures accepted { OnOk result (insert_refusal place target.now (tree_of tree) (forest_of trees.old) ≡ None) }
    ensures refused { IfErr result (λ e. IsRefusal e (insert_refusal place target.now (tree_of tree) (forest_of trees.old))) }
    ensures err { OnErr result (trees.new ≡ trees.old) }
    ensures formed { IsTrue (is_well_formed (forest_of trees.new)) }
{
    let opening = opening_for(trees.as_slice(), place, target)?;
    let nodes = placed(level_of(opening.parent), &tree)?;
    let label = new_label(alloc, opening)?;
    let shown = label.copy(alloc)?;
    let numbered = number(alloc, tree, label)?;
    edit_below(trees, target, Edit::Insert(place, numbered))?;
    Ok(Done {
        label: shown,
        nodes,
    })
}

/// The target's subtree taken out. An `Err` changes nothing.
pub fn delete_in(trees: &mut Items<Node>, alloc: Global, target: &Label) -> Result<Done, TreeError>
    requires { IsTrue (is_well_formed (forest_of trees.old)) }
    ensures deleted { OnOk result (forest_of trees.new ≡ delete target.now (forest_of trees.old)) }
    ensures label { IfOk result (λ done. done.label ≡ target.now) }
    ensures nodes { IfOk result (λ done. done.nodes ≡ min (subtree_size target.now (forest_of trees.old)) (2 ^ 64 - 1)) }
    ensures accepted { OnOk result (delete_refusal target.now (forest_of trees.old) ≡ None) }
    ensures refused { IfErr result (λ e. IsRefusal e (delete_refusal target.now (forest_of trees.old))) }
    ensures err { OnErr result (trees.new ≡ trees.old) }
    ensures formed { IsTrue (is_well_formed (forest_of trees.new)) }
{
    let Some(node) = find_in(trees.as_slice(), target) else {
        return Err(TreeError::Refused(Refusal::Absent));
    };
    let nodes = nodes_in(node.children.as_slice()).saturating_add(1);
    let label = target.copy(alloc)?;
    edit_below(trees, target, Edit::Delete)?;
    Ok(Done { label, nodes })
}

/// The tree, under the target's label, in place of the target's subtree. An `Err` changes nothing.
pub fn replace_in(
    trees: &mut Items<Node>,
    alloc: Global,
    target: &Label,
    tree: Plain,
) -> Result<Done, TreeError>
    requires formed { IsTrue (is_well_formed (forest_of trees.old)) }
    requires valid { IsTrue (is_valid_tree (tree_of tree)) }
    ensures replaced { OnOk result (forest_of trees.new ≡ replace target.now (tree_of tree) (forest_of trees.old)) }
    ensures label { IfOk result (λ done. done.label ≡ target.now) }
    ensures nodes { IfOk result (λ done. done.nodes ≡ nodes (one (tree_of tree))) }
    ensures accepted { OnOk result (replace_refusal target.now (tree_of tree) (forest_of trees.old) ≡ None) }
    ensures refused { IfErr result (λ e. IsRefusal e (replace_refusal target.now (tree_of tree) (forest_of trees.old))) }
    ensures err { OnErr result (trees.new ≡ trees.old) }
    ensures formed { IsTrue (is_well_formed (forest_of trees.new)) }
{
    let Some(_) = find_in(trees.as_slice(), target) else {
        return Err(TreeError::Refused(Refusal::Absent));
    };
    let nodes = placed(target.level().saturating_sub(1), &tree)?;
    let label = target.copy(alloc)?;
    let shown = target.copy(alloc)?;
    let numbered = number(alloc, tree, label)?;
    edit_below(trees, target, Edit::Replace(numbered))?;
    Ok(Done {
        label: shown,
        nodes,
    })
}
