//! How an edit is carried out and kept.

ghost use Rattle.std.specs.Prelude.{◌≡◌, ◌*◌, ◌+◌, ◌<◌, ◌≤◌, ◌⊎◌, Some, false, true, IfErr, IfOk, OnOk, OnErr, length};
ghost use Rattle.mm_edit.specs.Difference.{IsDifference};
ghost use Rattle.mm_edit.specs.Plans.{HasRoomFor};
ghost use Rattle.mm_host.specs.Moments.{LeavesOnly};
ghost use Rattle.mm_image.specs.Subtrees.{IsUndamaged};
ghost use Rattle.mm_keeper.specs.Entries.{Entries, IsSorted};
ghost use Rattle.mm_keeper.specs.Keeping.{fault_of};
ghost use Rattle.mm_store.specs.Applying.{Performs};

use mm_edit::{Plan, carry_out};
use mm_host::Fault;
use mm_keeper::Keeper;
use mm_steps::Steps;
use mm_tree::Done;
use std::alloc::{AllocError, Global};
use std::sync::ledger::Ledger;

/// What the plan's edit does.
pub fn done_of(alloc: Global, plan: &Plan) -> Result<Done, AllocError>
    ensures label { IfOk result (λ d. d.label ≡ plan.now.done.label) }
    ensures nodes { IfOk result (λ d. d.nodes ≡ plan.now.done.nodes) }
{
    let done = plan.done();
    Ok(Done {
        label: done.label.copy(alloc)?,
        nodes: done.nodes,
    })
}

/// Carries a plan out, and commits it.
pub fn perform<K: Keeper, L: Ledger>(
    plan: &Plan,
    keeper: &mut K,
    steps: &mut Steps<L>,
) -> Result<(), Fault>
    requires sound { K.is_sound keeper.old }
    requires room { K.has_maps keeper.old → HasRoomFor (K.seen keeper.old).now plan.now }
    ensures now { K.has_maps keeper.old → (new : Entries) → IsSorted new → IsDifference plan.now.removes plan.now.puts (K.seen keeper.old).now new → OnOk result ((K.seen keeper.new).now ≡ new) }
    ensures kept { K.has_maps keeper.old → OnOk result ((K.seen keeper.new).kept ≡ (K.seen keeper.new).now) }
    ensures any_moment { K.has_maps keeper.old → (new : Entries) → IsSorted new → IsDifference plan.now.removes plan.now.puts (K.seen keeper.old).now new → K.is_spent keeper.old ≡ false
        → LeavesOnly K.moment K.left_since keeper.old keeper.new (λ m. (m ≡ Some (K.seen keeper.old).kept) ⊎ (m ≡ Some new)) }
    ensures journal { K.tells → (K.written keeper.new).journal < (K.written keeper.old).journal + 4200 * (8 * (K.changes keeper.old + (length plan.now.removes + length plan.now.puts)) + 2) }
    ensures none_left { K.tells → OnOk result (K.changes keeper.new ≡ 0) }
    ensures performs { Performs K.over K.has_maps K.is_sound K.is_spent K.fault_count K.want_count keeper.old keeper.new (fault_of result) }
    ensures undamaged { K.has_maps keeper.old → IfErr result IsUndamaged }
    ensures spent { K.has_maps keeper.old → OnErr result (K.is_spent keeper.new ≡ true) }
    ensures unspent { OnOk result (K.is_spent keeper.old ≡ false) }
    ensures bound { steps.new ≤ steps.old + (length plan.now.removes + length plan.now.puts) }
{
    match carry_out(plan, keeper, steps) {
        Ok(()) => keeper.commit(),
        Err(fault) => Err(fault),
    }
}
