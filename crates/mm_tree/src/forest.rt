// Forests: labelled trees, which loads and edits keep well formed.
ghost use Rattle.std.specs.Prelude.{◌≡◌, ◌^◌, ◌-◌, ◌≤◌, [], IsTrue, MatchOption, Some, IfOk, IfErr, OnOk, OnErr, None, not, min};
ghost use Rattle.std.specs.Option.{SomeIff};
ghost use Rattle.mm_tree.specs.Trees.{levels, nodes, one, tree_of};
ghost use Rattle.mm_tree.specs.Numbering.{forest_of, node_of, Labels};
ghost use Rattle.mm_tree.specs.Edits.{found, has_node, insert, delete, replace, inserted_label, subtree_size, insert_refusal, delete_refusal, replace_refusal};
ghost use Rattle.mm_tree.specs.Validity.{is_element, is_valid_tree};
ghost use Rattle.mm_tree.specs.Forests.{is_well_formed, last_segment, next_label, load, load_refusal, IsRefusal};
ghost use Rattle.mm_label.specs.Label.{IsSegment};
ghost use Rattle.mm_label.specs.Between.{LiesBetween};
ghost use Rattle.mm_label.specs.Refusals.{RefusesSegment};

mod changes;
mod edit;
mod find;
mod label;
mod levels;
mod opening;
mod place;
mod size;

use self::changes::{delete_in, insert_in, replace_in};
use self::find::find_in;
use self::levels::{is_text, node_count};
use crate::node::{Node, number};
use crate::plain::Plain;
use crate::refusal::{Refusal, TreeError};
pub use label::new_label;
pub use levels::{LEVEL_LIMIT, placed};
use mm_label::{Label, LabelError, between, child};
use mm_list::Items;
pub use opening::{Opening, level_of};
pub use place::Place;
use std::alloc::Global;
use std::marker::Model;

/// What an edit did: the label of the subtree's root, and how many nodes the subtree has.
#[derive(Drop)]
pub struct Done {
    pub label: Label,
    pub nodes: u64,
}

/// Labelled trees in order. Contracts see the list of their roots; the empty list at first.
#[derive(Drop)]
pub struct Forest {
    trees: Items<Node>,
}

impl Model for Forest {
    ghost use Rattle.std.specs.Prelude.{List};
    ghost use Rattle.mm_tree.specs.declared.node.Node.{Node};
    ghost use Rattle.mm_tree.specs.contracts.node.Node as node_contracts;
    ghost use Rattle.std.specs.Coded.{codes};

    ghost Value = { List Node };

    ghost coded = { Prim.hlevel (codes, node_contracts.the_row.coded) };

    ghost view = { λ f. f.trees };

    ghost use Rattle.std.specs.Prelude.{IsTrue};
    ghost use Rattle.mm_tree.specs.Numbering.{forest_of};
    ghost use Rattle.mm_tree.specs.Forests.{is_well_formed};

    ghost invariant = { λ f. IsTrue (is_well_formed (forest_of f.trees)) };
}

/// The segment of the tree that comes next.
fn next_segment(alloc: Global, trees: &[Node]) -> Result<Vec<i64>, LabelError>
    requires { IsTrue (is_well_formed (forest_of trees.now)) }
    ensures value { IfOk result (λ v. v.items ≡ next_label (forest_of trees.now)) }
    ensures segment { IfOk result (λ v. IsSegment v.items) }
    ensures lies { IfOk result (λ v. LiesBetween (last_segment [] None (forest_of trees.now)) v.items None) }
    ensures refused { IfErr result (λ e. RefusesSegment e (next_label (forest_of trees.now))) }
{
    match trees.last() {
        None => between(alloc, None, None),
        Some(tree) => {
            let last = tree.label.segment(alloc)?;
            between(alloc, Some(last.as_slice()), None)
        }
    }
}

/// The label of the tree that comes next.
fn next_label(alloc: Global, trees: &[Node]) -> Result<Label, TreeError>
    requires { IsTrue (is_well_formed (forest_of trees.now)) }
    ensures label { Labels result (next_label (forest_of trees.now)) }
    ensures lies { IfOk result (λ label. LiesBetween (last_segment [] None (forest_of trees.now)) label None) }
{
    let segment = next_segment(alloc, trees)?;
    Ok(child(alloc, None, segment.as_slice())?)
}

/// Puts the tree, with its labels, behind the others. An `Err` changes nothing.
fn load_behind(trees: &mut Items<Node>, alloc: Global, tree: Plain) -> Result<Done, TreeError>
    requires formed { IsTrue (is_well_formed (forest_of trees.old)) }
    requires valid { IsTrue (is_valid_tree (tree_of tree)) }
    ensures loaded { OnOk result (forest_of trees.new ≡ load (tree_of tree) (forest_of trees.old)) }
    ensures label { IfOk result (λ done. done.label ≡ next_label (forest_of trees.old)) }
    ensures nodes { IfOk result (λ done. done.nodes ≡ nodes (one (tree_of tree))) }
    ensures accepted { OnOk result (load_refusal (tree_of tree) (forest_of trees.old) ≡ None) }
    ensures refused { IfErr result (λ e. IsRefusal e (load_refusal (tree_of tree) (forest_of trees.old))) }
    ensures err { OnErr result (trees.new ≡ trees.old) }
    ensures formed { IsTrue (is_well_formed (forest_of trees.new)) }
{
    if is_text(&tree.kind) {
        return Err(TreeError::Refused(Refusal::Top));
    }
    let Some(nodes) = node_count(&tree, LEVEL_LIMIT) else {
        return Err(TreeError::Refused(Refusal::Deep));
    };
    let label = next_label(alloc, trees.as_slice())?;
    let shown = label.copy(alloc)?;
    let numbered = number(alloc, tree, label)?;
    trees.push(numbered)?;
    Ok(Done {
        label: shown,
        nodes,
    })
}

impl Forest {
    /// The empty forest. Takes no memory.
    pub fn new(alloc: Global) -> Forest
        ensures { result ≡ [] }
    {
        Forest {
            trees: Items::new(alloc),
        }
    }

    /// The trees in order.
    pub fn trees(&self) -> &[Node]
        ensures trees { result.now ≡ self.now }
        ensures formed { IsTrue (is_well_formed (forest_of self.now)) }
    {
        self.trees.as_slice()
    }

    /// The node with the label, or None where no node has it.
    pub fn find(&self, label: &Label) -> Option<&Node>
        ensures node { MatchOption result (found label.now (forest_of self.now) ≡ None) (λ n. found label.now (forest_of self.now) ≡ Some (node_of n.now)) }
        ensures present { MatchOption result (IsTrue (not (has_node label.now (forest_of self.now)))) (λ n. IsTrue (has_node label.now (forest_of self.now))) }
    {
        find_in(self.trees.as_slice(), label)
    }

    /// Puts the tree, with new labels, behind the others: the root's label goes on from the last
    /// tree's, and the i-th child gets its parent's label and the segment 2i - 1. An `Err` changes
    /// nothing.
    pub fn load(&mut self, alloc: Global, tree: Plain) -> Result<Done, TreeError>
        requires { IsTrue (is_valid_tree (tree_of tree)) }
        ensures loaded { OnOk result (forest_of self.new ≡ load (tree_of tree) (forest_of self.old)) }
        ensures label { IfOk result (λ done. done.label ≡ next_label (forest_of self.old)) }
        ensures nodes { IfOk result (λ done. done.nodes ≡ nodes (one (tree_of tree))) }
        ensures accepted { OnOk result (load_refusal (tree_of tree) (forest_of self.old) ≡ None) }
        ensures refused { IfErr result (λ e. IsRefusal e (load_refusal (tree_of tree) (forest_of self.old))) }
        ensures err { OnErr result (self.new ≡ self.old) }
    {
        load_behind(&mut self.trees, alloc, tree)
    }

    /// Puts the tree, with new labels, directly before or after the node with the label, or as its
    /// first or last child. The root's label is its parent's and a segment between those of its
    /// neighbours. An `Err` changes nothing.
    pub fn insert(
        &mut self,
        alloc: Global,
        place: Place,
        target: &Label,
        tree: Plain,
    ) -> Result<Done, TreeError>
        requires { IsTrue (is_valid_tree (tree_of tree)) }
        ensures inserted { OnOk result (forest_of self.new ≡ insert place target.now (tree_of tree) (forest_of self.old)) }
        ensures label { IfOk result (λ done. done.label ≡ inserted_label place target.now (forest_of self.old)) }
        ensures nodes { IfOk result (λ done. done.nodes ≡ nodes (one (tree_of tree))) }
        ensures accepted { OnOk result (insert_refusal place target.now (tree_of tree) (forest_of self.old) ≡ None) }
        ensures refused { IfErr result (λ e. IsRefusal e (insert_refusal place target.now (tree_of tree) (forest_of self.old))) }
        ensures err { OnErr result (self.new ≡ self.old) }
    {
        insert_in(&mut self.trees, alloc, place, target, tree)
    }

    /// Takes the node with the label out, and all below it; says how many nodes these were, as far as
    /// the number fits. An `Err` changes nothing.
    pub fn delete(&mut self, alloc: Global, target: &Label) -> Result<Done, TreeError>
        ensures deleted { OnOk result (forest_of self.new ≡ delete target.now (forest_of self.old)) }
        ensures label { IfOk result (λ done. done.label ≡ target.now) }
        ensures nodes { IfOk result (λ done. done.nodes ≡ min (subtree_size target.now (forest_of self.old)) (2 ^ 64 - 1)) }
        ensures accepted { OnOk result (delete_refusal target.now (forest_of self.old) ≡ None) }
        ensures refused { IfErr result (λ e. IsRefusal e (delete_refusal target.now (forest_of self.old))) }
        ensures err { OnErr result (self.new ≡ self.old) }
    {
        delete_in(&mut self.trees, alloc, target)
    }

    /// Puts the tree in place of the node with the label and of all below it. Its root gets that
    /// label, and the nodes below new ones. An `Err` changes nothing.
    pub fn replace(&mut self, alloc: Global, target: &Label, tree: Plain) -> Result<Done, TreeError>
        requires { IsTrue (is_valid_tree (tree_of tree)) }
        ensures replaced { OnOk result (forest_of self.new ≡ replace target.now (tree_of tree) (forest_of self.old)) }
        ensures label { IfOk result (λ done. done.label ≡ target.now) }
        ensures nodes { IfOk result (λ done. done.nodes ≡ nodes (one (tree_of tree))) }
        ensures accepted { OnOk result (replace_refusal target.now (tree_of tree) (forest_of self.old) ≡ None) }
        ensures refused { IfErr result (λ e. IsRefusal e (replace_refusal target.now (tree_of tree) (forest_of self.old))) }
        ensures err { OnErr result (self.new ≡ self.old) }
    {
        replace_in(&mut self.trees, alloc, target, tree)
    }
}
