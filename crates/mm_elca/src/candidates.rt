//! The candidates: for each node of the shortest keyword list the deepest node at or above it at which
//! every list is met.

ghost use Rattle.std.specs.Prelude.{◌≡◌, ◌+◌, ◌*◌, ◌≤◌, ◌<◌, ℕ, [], IfOk, OnOk, IsTrue, length, get_or};
ghost use Rattle.mm_tree.specs.Trees.{Trees};
ghost use Rattle.mm_tree.specs.Numbering.{Labelled};
ghost use Rattle.mm_tree.specs.Forests.{is_well_formed};
ghost use Rattle.mm_tree.specs.Search.{list_of, lists_of, worded};
ghost use Rattle.mm_lists.specs.Leaves.{Leaves};
ghost use Rattle.mm_lists.specs.Full.{MeetsAll};
ghost use Rattle.mm_label.specs.Fronts.{Ascends};
ghost use Rattle.mm_elca.specs.Inside.Gathering.{Gathered, Gathering, IsInOrder, TakesIn};

use mm_host::Fault;
use mm_label::Label;
use mm_list::Items;
use mm_lists::{Lists, next_candidate};
use mm_steps::Steps;
use mm_words::Word;
use std::alloc::{AllocError, Global};
use std::sync::ledger::Ledger;

/// Puts a candidate behind the others, if there is one.
fn take_in(found: &mut Items<Label>, candidate: Option<Label>) -> Result<(), AllocError>
    ensures { OnOk result (TakesIn candidate found.old found.new) }
{
    if let Some(c) = candidate {
        // A label has bytes, so it isn't the empty list.
        let _ = c.as_bytes();
        found.push(c)?;
    }
    Ok(())
}

/// Takes in the candidate of the node at which the walk stands, and goes to the next of its list.
fn pass<X: Lists, L: Ledger>(
    alloc: Global,
    words: &[Word],
    own: usize,
    at: &mut Option<Label>,
    found: &mut Items<Label>,
    lists: &mut X,
    steps: &mut Steps<L>,
) -> Result<(), Fault>
    requires { own < length words.now }
    ensures value { (f : Trees Labelled) (i : ℕ) → IsTrue (is_well_formed f) → X.stands lists.old f → MeetsAll [] (lists_of words.now (worded f))
        → Gathering (lists_of words.now (worded f)) (list_of (get_or words.now own []) (worded f)) i found.old at.old
        → OnOk result (Gathering (lists_of words.now (worded f)) (list_of (get_or words.now own []) (worded f)) (i + 1) found.new at.new) }
    ensures count { OnOk result (length found.new ≤ length found.old + 1) }
    ensures leaves { Leaves X.stands X.same_ground X.blames X.fault_count X.spent lists.old lists.new result }
    ensures cost { steps.new + 1 ≤ steps.old + 2 * length words.now }
{
    let next = next_candidate(alloc, words, own, at, lists, steps)?;
    take_in(found, next)?;
    Ok(())
}

/// The labels in document order, each once.
fn sorted(labels: Items<Label>) -> Result<Items<Label>, AllocError>
    ensures value { IfOk result (IsInOrder labels) }
    ensures count { IfOk result (λ r. length r ≤ length labels) }
{
    let mut list = labels.into_vec();
    list.sort()?;
    list.dedup();
    Ok(Items::from_vec(list))
}

/// The candidates of all nodes of the list of one word, which has so many nodes, in document order, each
/// once.
pub fn gather<X: Lists, L: Ledger>(
    alloc: Global,
    words: &[Word],
    own: usize,
    size: u64,
    lists: &mut X,
    steps: &mut Steps<L>,
) -> Result<Items<Label>, Fault>
    requires { own < length words.now }
    ensures value { (f : Trees Labelled) → IsTrue (is_well_formed f) → X.stands lists.old f → MeetsAll [] (lists_of words.now (worded f)) → length (list_of (get_or words.now own []) (worded f)) ≡ size
        → IfOk result (λ r. Gathered (lists_of words.now (worded f)) (list_of (get_or words.now own []) (worded f)) r) }
    ensures order { IfOk result Ascends }
    ensures count { IfOk result (λ r. length r ≤ size) }
    ensures leaves { Leaves X.stands X.same_ground X.blames X.fault_count X.spent lists.old lists.new result }
    ensures cost { steps.new + size ≤ steps.old + 1 + 2 * length words.now * size }
{
    let mut found = Items::new(alloc);
    let mut at = lists.first(&words[own], steps)?;
    // The count ends the loop also over lists that stand for no forest.
    for i in 0..size {
        pass(alloc, words, own, &mut at, &mut found, lists, steps)?;
    }
    let candidates = sorted(found)?;
    Ok(candidates)
}
