// The search: candidates are judged from the last to the first.
ghost use Rattle.std.specs.Prelude.{cond, ◌≡◌, ◌+◌, ◌*◌, ◌≤◌, ◌<◌, List, [], ◌∷◌, ◌++◌, IfOk, OnOk, IsTrue, length, get_or};
ghost use Rattle.mm_tree.specs.Trees.{Trees};
ghost use Rattle.mm_tree.specs.Numbering.{Labelled};
ghost use Rattle.mm_tree.specs.Forests.{is_well_formed};
ghost use Rattle.mm_tree.specs.Search.{list_of, lists_of, worded};
ghost use Rattle.mm_tree.specs.Elca.{elca};
ghost use Rattle.mm_lists.specs.Leaves.{Leaves};
ghost use Rattle.mm_label.specs.Fronts.{Label};
ghost use Rattle.mm_lists.specs.Full.{MeetsAll};
ghost use Rattle.mm_elca.specs.Bound.{cost_of};
ghost use Rattle.mm_elca.specs.Owning.{Candidates, IsOwner};
ghost use Rattle.mm_elca.specs.Inside.Gathering.{Ready};
ghost use Rattle.mm_elca.specs.Inside.Stack.{Judged, Stacked};

use crate::candidates::gather;
use crate::children::children_to;
use crate::stack::take_below;
use crate::test::owns_each;
use mm_host::Fault;
use mm_label::Label;
use mm_list::Items;
use mm_lists::{Lists, find_shortest};
use mm_steps::Steps;
use mm_words::{Query, Word};
use std::alloc::{AllocError, Global};
use std::sync::ledger::Ledger;

/// What the walk keeps: the topmost of the candidates that were passed, and the answers among them.
#[derive(Drop)]
struct Held {
    stack: Items<Label>,
    done: Items<Label>,
}

fn note(alloc: Global, owns: bool, x: &Label, done: &mut Items<Label>) -> Result<(), AllocError>
    ensures { OnOk result (done.new ≡ cond owns (done.old ++ x.now ∷ []) done.old) }
{
    if owns {
        done.push(x.copy(alloc)?)?;
    }
    Ok(())
}

/// Passes one candidate, the first of those that were passed. Each that lies below it leaves the stack.
fn judge<X: Lists, L: Ledger>(
    alloc: Global,
    x: Label,
    words: &[Word],
    held: &mut Held,
    lists: &mut X,
    steps: &mut Steps<L>,
) -> Result<(), Fault>
    ensures stack { (f : Trees Labelled) (passed : List Label) → Ready (lists_of words.now (worded f)) x passed → Stacked passed held.old.stack → OnOk result (Stacked (x ∷ passed) held.new.stack) }
    ensures done { (f : Trees Labelled) (passed : List Label) → X.stands lists.old f → Ready (lists_of words.now (worded f)) x passed → Stacked passed held.old.stack
        → Judged (IsOwner (lists_of words.now (worded f))) passed held.old.done → OnOk result (Judged (IsOwner (lists_of words.now (worded f))) (x ∷ passed) held.new.done) }
    ensures leaves { Leaves X.stands X.same_ground X.blames X.fault_count X.spent lists.old lists.new result }
    ensures cost { OnOk result (steps.new + length words.now * length held.new.stack ≤ steps.old + length words.now * length held.old.stack + 2 * length words.now) }
    ensures most { steps.new ≤ steps.old + length words.now * (1 + length held.old.stack) }
{
    let under = take_below(alloc, &x, &mut held.stack)?;
    let kids = children_to(alloc, &x, under.as_slice())?;
    let owns = owns_each(&x, kids.as_slice(), words, lists, steps)?;
    note(alloc, owns, &x, &mut held.done)?;
    held.stack.push(x)?;
    Ok(())
}

/// Passes all candidates, from the last to the first: the answers, the last of them first.
fn judge_all<X: Lists, L: Ledger>(
    alloc: Global,
    candidates: Items<Label>,
    words: &[Word],
    lists: &mut X,
    steps: &mut Steps<L>,
) -> Result<Items<Label>, Fault>
    ensures value { (f : Trees Labelled) → X.stands lists.old f → Candidates (lists_of words.now (worded f)) candidates → IfOk result (λ r. Judged (IsOwner (lists_of words.now (worded f))) candidates r) }
    ensures leaves { Leaves X.stands X.same_ground X.blames X.fault_count X.spent lists.old lists.new result }
    ensures cost { steps.new ≤ steps.old + 2 * length words.now * length candidates }
{
    let mut held = Held {
        stack: Items::new(alloc),
        done: Items::new(alloc),
    };
    let mut left = candidates;
    while let Some(x) = left.pop() {
        judge(alloc, x, words, &mut held, lists, steps)?;
    }
    Ok(held.done)
}

/// The answers, by the list of one word, which has so many nodes.
fn answer_list<X: Lists, L: Ledger>(
    alloc: Global,
    words: &[Word],
    own: usize,
    size: u64,
    lists: &mut X,
    steps: &mut Steps<L>,
) -> Result<Items<Label>, Fault>
    requires { own < length words.now }
    ensures value { (f : Trees Labelled) → IsTrue (is_well_formed f) → X.stands lists.old f → MeetsAll [] (lists_of words.now (worded f)) → length (list_of (get_or words.now own []) (worded f)) ≡ size
        → IfOk result (λ r. r ≡ elca words.now (worded f)) }
    ensures leaves { Leaves X.stands X.same_ground X.blames X.fault_count X.spent lists.old lists.new result }
    ensures cost { steps.new + size ≤ steps.old + 1 + 4 * length words.now * size }
{
    let candidates = gather(alloc, words, own, size, lists, steps)?;
    let mut found = judge_all(alloc, candidates, words, lists, steps)?;
    found.reverse();
    Ok(found)
}

/// The exclusive lowest common ancestors of the query in the forest for which the lists stand, in
/// document order, each once: the nodes that hold every word of the query outside those of their children
/// that hold every word themselves.
///
/// # Errors
///
/// `Memory` where there was none, and else what the lists refuse: `DiskFault` only where their count of
/// faults rose in this call, `Spent` only where they were spent before, `Damaged` only with what is damaged
/// there, and never where they stand for a forest.
pub fn answers<X: Lists, L: Ledger>(
    alloc: Global,
    query: &Query,
    lists: &mut X,
    steps: &mut Steps<L>,
) -> Result<Items<Label>, Fault>
    ensures value { (f : Trees Labelled) → IsTrue (is_well_formed f) → X.stands lists.old f → IfOk result (λ r. r ≡ elca query.now (worded f)) }
    ensures leaves { Leaves X.stands X.same_ground X.blames X.fault_count X.spent lists.old lists.new result }
    ensures cost { (f : Trees Labelled) → X.stands lists.old f → steps.new ≤ steps.old + cost_of (lists_of query.now (worded f)) }
{
    let words = query.words();
    let best = find_shortest(words, lists, steps)?;
    if best.size == 0 {
        return Ok(Items::new(alloc));
    }
    answer_list(alloc, words, best.at, best.size, lists, steps)
}
