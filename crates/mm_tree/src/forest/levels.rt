//! Whether a tree may stand at a level.

ghost use Rattle.std.specs.Prelude.{◌≡◌, ◌+◌, ◌≤◌, ◌-◌, ◌^◌, ℤ, List, IsTrue, IfOk, IfErr, not, min};
ghost use Rattle.std.specs.Option.{SomeIff};
ghost use Rattle.mm_tree.specs.Trees.{levels, nodes, one, tree_of};
ghost use Rattle.mm_tree.specs.Validity.{is_element, is_valid_tree};
ghost use Rattle.mm_tree.specs.Forests.{IsRefusal, level_limit};
ghost use Rattle.mm_tree.specs.Edits.{placed_refusal, room_refusal};

use super::place::Place;
use crate::measure::nodes_within;
use crate::plain::{Kind, Plain};
use crate::refusal::{Refusal, TreeError};

/// The most levels of a forest. A text counts as a level.
pub const LEVEL_LIMIT: u32 = 200;

pub fn is_text(kind: &Kind) -> bool
    ensures { result ≡ not (is_element kind.now) }
{
    match kind {
        Kind::Element { .. } => false,
        Kind::Words { .. } => true,
    }
}

/// How many nodes the tree has, as far as the number fits. None where it has more levels.
pub fn node_count(tree: &Plain, most: u32) -> Option<u64>
    ensures { SomeIff result (levels (one (tree_of tree.now)) ≤ most) (min (nodes (one (tree_of tree.now))) (2 ^ 64 - 1)) }
{
    let room = most.checked_sub(1)?;
    let below = nodes_within(tree.children.as_slice(), room)?;
    Some(below.saturating_add(1))
}

/// How many nodes the tree has, as far as the number fits, where it may stand below so many levels.
#[tactic(auto, using(crate::proofs::MeasureFacts::node_count_fits))]
pub fn placed(above: u32, tree: &Plain) -> Result<u64, TreeError>
    ensures nodes { IfOk result (λ n. n ≡ min (nodes (one (tree_of tree.now))) (2 ^ 64 - 1)) }
    ensures exact { IsTrue (is_valid_tree (tree_of tree.now)) → IfOk result (λ n. n ≡ nodes (one (tree_of tree.now))) }
    ensures element { IfOk result (λ n. above ≡ 0 → IsTrue (is_element (tree_of tree.now).0)) }
    ensures shallow { IfOk result (λ n. above + levels (one (tree_of tree.now)) ≤ level_limit) }
    ensures accepted { IfOk result (λ n. (x : List ℤ) → placed_refusal above x (tree_of tree.now) ≡ room_refusal x (tree_of tree.now)) }
    ensures refused { IfErr result (λ e. (x : List ℤ) → IsRefusal e (placed_refusal above x (tree_of tree.now))) }
{
    if above == 0 {
        if is_text(&tree.kind) {
            return Err(TreeError::Refused(Refusal::Top));
        }
    }
    let Some(nodes) = node_count(tree, LEVEL_LIMIT.saturating_sub(above)) else {
        return Err(TreeError::Refused(Refusal::Deep));
    };
    Ok(nodes)
}
