//! The labels that a search finds, by the keyword lists over a keeper's entries.

ghost use Rattle.std.specs.Prelude.{◌≡◌, ◌+◌, ◌≤◌, IfOk, IfErr};
ghost use Rattle.mm_elca.specs.Bound as elca;
ghost use Rattle.mm_image.specs.Ground.{HoldsImage, SameGround};
ghost use Rattle.mm_keeper_lists.specs.Found.{IsDamageOf};
ghost use Rattle.mm_lists.specs.Causes.{BlamesOnly, Caused, IsSound};
ghost use Rattle.mm_slca.specs.Bound as slca;
ghost use Rattle.mm_tree.specs.Elca.{elca};
ghost use Rattle.mm_tree.specs.Numbering.{Labelled};
ghost use Rattle.mm_tree.specs.Search.{lists_of, slca, worded};
ghost use Rattle.mm_tree.specs.Trees.{Trees};

use mm_elca::answers as elca;
use mm_host::Fault;
use mm_keeper::Keeper;
use mm_keeper_lists::KeeperLists;
use mm_label::Label;
use mm_list::Items;
use mm_slca::answers as slca;
use mm_steps::Steps;
use mm_words::Query;
use std::alloc::Global;
use std::sync::ledger::Ledger;

/// The smallest lowest common ancestors of the query.
pub fn smallest<K: Keeper, L: Ledger>(
    alloc: Global,
    query: &Query,
    keeper: &mut K,
    steps: &mut Steps<L>,
) -> Result<Items<Label>, Fault>
    requires { K.is_sound keeper.old }
    ensures value { (f : Trees Labelled) → HoldsImage K.has_maps K.seen keeper.old f → IfOk result (λ r. r ≡ slca query.now (worded f)) }
    ensures undamaged { (f : Trees Labelled) → HoldsImage K.has_maps K.seen keeper.old f → IfErr result IsSound }
    ensures blame { K.has_maps keeper.old → IfErr result (BlamesOnly (IsDamageOf (K.seen keeper.old).now)) }
    ensures sound { K.is_sound keeper.new }
    ensures ground { SameGround K.over K.has_maps K.tells K.seen K.written K.changes K.moment K.left_since keeper.old keeper.new }
    ensures cause { Caused (K.fault_count keeper.old) (K.fault_count keeper.new) (K.is_spent keeper.old) (K.is_spent keeper.new) result }
    ensures cost { (f : Trees Labelled) → HoldsImage K.has_maps K.seen keeper.old f → steps.new ≤ steps.old + slca.cost_of (lists_of query.now (worded f)) }
{
    let mut lists = KeeperLists::new(alloc, keeper);
    slca(alloc, query, &mut lists, steps)
}

/// The exclusive lowest common ancestors of the query.
pub fn exclusive<K: Keeper, L: Ledger>(
    alloc: Global,
    query: &Query,
    keeper: &mut K,
    steps: &mut Steps<L>,
) -> Result<Items<Label>, Fault>
    requires { K.is_sound keeper.old }
    ensures value { (f : Trees Labelled) → HoldsImage K.has_maps K.seen keeper.old f → IfOk result (λ r. r ≡ elca query.now (worded f)) }
    ensures undamaged { (f : Trees Labelled) → HoldsImage K.has_maps K.seen keeper.old f → IfErr result IsSound }
    ensures blame { K.has_maps keeper.old → IfErr result (BlamesOnly (IsDamageOf (K.seen keeper.old).now)) }
    ensures sound { K.is_sound keeper.new }
    ensures ground { SameGround K.over K.has_maps K.tells K.seen K.written K.changes K.moment K.left_since keeper.old keeper.new }
    ensures cause { Caused (K.fault_count keeper.old) (K.fault_count keeper.new) (K.is_spent keeper.old) (K.is_spent keeper.new) result }
    ensures cost { (f : Trees Labelled) → HoldsImage K.has_maps K.seen keeper.old f → steps.new ≤ steps.old + elca.cost_of (lists_of query.now (worded f)) }
{
    let mut lists = KeeperLists::new(alloc, keeper);
    elca(alloc, query, &mut lists, steps)
}
