// The walk over the shortest list.
ghost use Rattle.std.specs.Prelude.{◌≡◌, ◌+◌, ◌*◌, ◌≤◌, ◌<◌, ℕ, [], IfOk, OnOk, IsTrue, length, get_or};
ghost use Rattle.mm_tree.specs.Trees.{Trees};
ghost use Rattle.mm_tree.specs.Numbering.{Labelled};
ghost use Rattle.mm_tree.specs.Forests.{is_well_formed};
ghost use Rattle.mm_tree.specs.Search.{list_of, lists_of, slca, worded};
ghost use Rattle.mm_lists.specs.Leaves.{Leaves};
ghost use Rattle.mm_lists.specs.Full.{MeetsAll};
ghost use Rattle.mm_slca.specs.Bound.{cost_of};
ghost use Rattle.mm_slca.specs.Inside.Walk.{Stands};
ghost use Rattle.mm_label.specs.Fronts.{or_empty};

use crate::walk::{Walk, finish, take_up};
use mm_host::Fault;
use mm_label::Label;
use mm_list::Items;
use mm_lists::{Lists, find_shortest, next_candidate};
use mm_steps::Steps;
use mm_words::{Query, Word};
use std::alloc::Global;
use std::sync::ledger::Ledger;

/// Passes the node at which the walk stands, and goes to the next of its list.
fn pass<X: Lists, L: Ledger>(
    alloc: Global,
    words: &[Word],
    own: usize,
    at: &mut Option<Label>,
    walk: &mut Walk,
    lists: &mut X,
    steps: &mut Steps<L>,
) -> Result<(), Fault>
    requires { own < length words.now }
    ensures value { (f : Trees Labelled) (i : ℕ) → IsTrue (is_well_formed f) → X.stands lists.old f → MeetsAll [] (lists_of words.now (worded f))
        → Stands (lists_of words.now (worded f)) (list_of (get_or words.now own []) (worded f)) i walk.old.done (or_empty walk.old.held) at.old
        → OnOk result (Stands (lists_of words.now (worded f)) (list_of (get_or words.now own []) (worded f)) (i + 1) walk.new.done (or_empty walk.new.held) at.new) }
    ensures leaves { Leaves X.stands X.same_ground X.blames X.fault_count X.spent lists.old lists.new result }
    ensures cost { steps.new + 1 ≤ steps.old + 2 * length words.now }
{
    let found = next_candidate(alloc, words, own, at, lists, steps)?;
    let held = walk.held.take();
    walk.held = take_up(&mut walk.done, held, found)?;
    Ok(())
}

/// The smallest lowest common ancestors, by the list of one word, which has so many nodes.
fn walk_list<X: Lists, L: Ledger>(
    alloc: Global,
    words: &[Word],
    own: usize,
    size: u64,
    lists: &mut X,
    steps: &mut Steps<L>,
) -> Result<Items<Label>, Fault>
    requires { own < length words.now }
    ensures value { (f : Trees Labelled) → IsTrue (is_well_formed f) → X.stands lists.old f → MeetsAll [] (lists_of words.now (worded f)) → length (list_of (get_or words.now own []) (worded f)) ≡ size
        → IfOk result (λ r. r ≡ slca words.now (worded f)) }
    ensures leaves { Leaves X.stands X.same_ground X.blames X.fault_count X.spent lists.old lists.new result }
    ensures cost { steps.new + size ≤ steps.old + 1 + 2 * length words.now * size }
{
    let mut walk = Walk {
        done: Items::new(alloc),
        held: None,
    };
    let mut at = lists.first(&words[own], steps)?;
    // The count ends the loop also over lists that stand for no forest.
    for i in 0..size {
        pass(alloc, words, own, &mut at, &mut walk, lists, steps)?;
    }
    let found = finish(walk)?;
    Ok(found)
}

/// The smallest lowest common ancestors of the query in the forest for which the lists stand, in
/// document order, each once.
///
/// # Errors
///
/// `Memory` where there was none, and else what the lists refuse: `DiskFault` only where their count of
/// faults rose in this call, `Spent` only where they were spent before, `Damaged` only with what is damaged
/// there, and never where they stand for a forest.
pub fn answers<X: Lists, L: Ledger>(
    alloc: Global,
    query: &Query,
    lists: &mut X,
    steps: &mut Steps<L>,
) -> Result<Items<Label>, Fault>
    ensures value { (f : Trees Labelled) → IsTrue (is_well_formed f) → X.stands lists.old f → IfOk result (λ r. r ≡ slca query.now (worded f)) }
    ensures leaves { Leaves X.stands X.same_ground X.blames X.fault_count X.spent lists.old lists.new result }
    ensures cost { (f : Trees Labelled) → X.stands lists.old f → steps.new ≤ steps.old + cost_of (lists_of query.now (worded f)) }
{
    let words = query.words();
    let best = find_shortest(words, lists, steps)?;
    if best.size == 0 {
        return Ok(Items::new(alloc));
    }
    walk_list(alloc, words, best.at, best.size, lists, steps)
}
