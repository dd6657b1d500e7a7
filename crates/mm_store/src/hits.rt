//! The nodes that a search finds, with their names.

ghost use Rattle.std.specs.Prelude.{◌≡◌, ◌+◌, ◌≤◌, IfOk, IfErr, [], length};
ghost use Rattle.mm_fragment.specs.Stored.{LacksName};
ghost use Rattle.mm_image.specs.Ground.{Accounts, HoldsImage, SameGround};
ghost use Rattle.mm_image.specs.Subtrees.{IsUndamaged};
ghost use Rattle.mm_keeper.specs.Keeping.{fault_of};
ghost use Rattle.mm_lists.specs.Causes.{BlamesOnly};
ghost use Rattle.mm_store.specs.Inside.Told.{AreNodes};
ghost use Rattle.mm_tree.specs.Hits.{hits_of};
ghost use Rattle.mm_tree.specs.Numbering.{Labelled};
ghost use Rattle.mm_tree.specs.Trees.{Trees};

use mm_host::Fault;
use mm_image::node_name;
use mm_keeper::Keeper;
use mm_label::Label;
use mm_list::Items;
use mm_steps::Steps;
use mm_tree::{Hit, Hits};
use std::alloc::Global;
use std::sync::ledger::Ledger;

/// The labels with the names of their nodes, by one look-up for each.
pub fn hits_of<K: Keeper, L: Ledger>(
    alloc: Global,
    labels: &[Label],
    keeper: &mut K,
    steps: &mut Steps<L>,
) -> Result<Hits, Fault>
    requires { K.is_sound keeper.old }
    ensures value { (f : Trees Labelled) → HoldsImage K.has_maps K.seen keeper.old f → AreNodes f labels.now → IfOk result (λ hits. hits ≡ hits_of f labels.now) }
    ensures undamaged { (f : Trees Labelled) → HoldsImage K.has_maps K.seen keeper.old f → AreNodes f labels.now → IfErr result IsUndamaged }
    ensures blame { K.has_maps keeper.old → IfErr result (BlamesOnly (LacksName [] (K.seen keeper.old).now)) }
    ensures ground { SameGround K.over K.has_maps K.tells K.seen K.written K.changes K.moment K.left_since keeper.old keeper.new }
    ensures accounts { Accounts K.is_sound K.is_spent K.fault_count K.want_count keeper.old keeper.new (fault_of result) }
    ensures cost { steps.new ≤ steps.old + length labels.now }
{
    let mut hits = Items::new(alloc);
    for label in labels {
        let name = node_name(alloc, label, keeper, steps)?;
        hits.push(Hit {
            label: label.copy(alloc)?,
            name,
        })?;
    }
    Ok(hits)
}
