//! The parts of a map that an edit is about: as they are before it, and as they are after it.

ghost use Rattle.std.specs.Prelude.{◌≡◌, ◌+◌, ◌-◌, ◌^◌, ◌≤◌, ◌++◌, IfOk, IfErr, IsTrue, OnOk, length, min};
ghost use Rattle.mm_image.specs.Ground.{Accounts, SameGround};
ghost use Rattle.mm_image.specs.Image.{entries_of};
ghost use Rattle.mm_image.specs.Keyed.{keyed};
ghost use Rattle.mm_keeper.specs.Entries.{IsSorted};
ghost use Rattle.mm_keeper.specs.Keeping.{fault_of};
ghost use Rattle.mm_tree.specs.Forests.{has_valid_kind};
ghost use Rattle.mm_tree.specs.Numbering.{forest_of, has_room, node_of};
ghost use Rattle.mm_tree.specs.Trees.{every, nodes, one};
ghost use Rattle.mm_edit.specs.Difference.{changed, gone, keys};
ghost use Rattle.mm_edit.specs.Inside.Changes.{changes};
ghost use Rattle.mm_edit.specs.Inside.Counting.{AreTold, BlamesCounts, counts_held, counts_left};
ghost use Rattle.mm_edit.specs.Plans.{AreSized};

use crate::changing::word_changes;
use crate::counting::push_counts;
use crate::differing::{changed, gone};
use crate::plan::Plan;
use mm_host::Fault;
use mm_image::{Entries, entries};
use mm_keeper::Keeper;
use mm_steps::Steps;
use mm_tree::{Done, Node};
use std::alloc::{AllocError, Global};
use std::sync::ledger::Ledger;

/// The entries of the nodes that leave and the counts of their words, and the entries of those that come with the
/// counts that are left then.
#[derive(Drop)]
pub struct Parts {
    pub before: Entries,
    pub after: Entries,
}

/// The parts where the one nodes give place to the others, by one look-up for each word of theirs.
pub fn parts_of<K: Keeper, L: Ledger>(
    alloc: Global,
    taken: &[Node],
    given: &[Node],
    keeper: &mut K,
    steps: &mut Steps<L>,
) -> Result<Parts, Fault>
    requires sound { K.is_sound keeper.old }
    requires taken { IsTrue (every has_valid_kind (forest_of taken.now)) }
    requires given { IsTrue (every has_valid_kind (forest_of given.now)) }
    requires room { IsTrue (every has_room (forest_of given.now)) }
    ensures before { K.has_maps keeper.old → IfOk result (λ p. keyed p.before ≡ entries_of (forest_of taken.now) ++ counts_held (K.seen keeper.old).now (changes (forest_of taken.now) (forest_of given.now))) }
    ensures after { K.has_maps keeper.old → IfOk result (λ p. keyed p.after ≡ entries_of (forest_of given.now) ++ counts_left (K.seen keeper.old).now (changes (forest_of taken.now) (forest_of given.now))) }
    ensures told { K.has_maps keeper.old → OnOk result (AreTold (K.seen keeper.old).now (changes (forest_of taken.now) (forest_of given.now))) }
    ensures sized { IfOk result (λ p. AreSized (keyed p.after)) }
    ensures damaged { K.has_maps keeper.old → IfErr result (BlamesCounts (K.seen keeper.old).now (changes (forest_of taken.now) (forest_of given.now))) }
    ensures ground { SameGround K.over K.has_maps K.tells K.seen K.written K.changes K.moment K.left_since keeper.old keeper.new }
    ensures accounts { Accounts K.is_sound K.is_spent K.fault_count K.want_count keeper.old keeper.new (fault_of result) }
    ensures cost { steps.new ≤ steps.old + length (changes (forest_of taken.now) (forest_of given.now)) }
{
    let mut before = entries(alloc, taken)?;
    let mut after = entries(alloc, given)?;
    let words = word_changes(alloc, taken, given)?;
    push_counts(
        alloc,
        keeper,
        words.as_slice(),
        &mut before,
        &mut after,
        steps,
    )?;
    Ok(Parts { before, after })
}

/// The plan that makes the one part the other, of an edit of this node and all below it.
pub fn planned(alloc: Global, root: &Node, parts: Parts) -> Result<Plan, AllocError>
    requires { AreSized (keyed parts.after) }
    ensures removes { IsSorted (keyed parts.after) → IfOk result (λ p. p.removes ≡ keys (gone (keyed parts.before) (keyed parts.after))) }
    ensures puts { IsSorted (keyed parts.before) → IfOk result (λ p. p.puts ≡ changed (keyed parts.before) (keyed parts.after)) }
    ensures label { IfOk result (λ p. p.done.label ≡ (node_of root.now).0.label) }
    ensures nodes { IfOk result (λ p. p.done.nodes ≡ min (nodes (one (node_of root.now))) (2 ^ 64 - 1)) }
{
    let Parts { before, after } = parts;
    let removes = gone(alloc, before.as_slice(), after.as_slice())?;
    let puts = changed(alloc, before.as_slice(), after.into_vec())?;
    let label = root.label.copy(alloc)?;
    let nodes = root.nodes();
    Ok(Plan::new(Done { label, nodes }, removes, puts))
}
