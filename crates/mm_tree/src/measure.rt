// The number of nodes and of levels of trees without labels.
ghost use Rattle.std.specs.Prelude.{◌≡◌, ◌≤◌, ◌-◌, ◌^◌, min};
ghost use Rattle.std.specs.Option.{SomeIff};
ghost use Rattle.mm_tree.specs.Trees.{levels, nodes, trees_of};

use crate::plain::Plain;

/// How many nodes the trees have, as far as the number fits. None where they have more levels
/// than there is room for.
pub fn nodes_within(trees: &[Plain], room: u32) -> Option<u64>
    ensures { SomeIff result (levels (trees_of trees.now) ≤ room) (min (nodes (trees_of trees.now)) (2 ^ 64 - 1)) }
{
    let mut sum: u64 = 0;
    for tree in trees {
        if room == 0 {
            return None;
        }
        let below = nodes_within(tree.children.as_slice(), room - 1)?;
        sum = sum.saturating_add(below).saturating_add(1);
    }
    Some(sum)
}
