//! The matches below a root: for each word of the query the nodes that hold it themselves, but those at or
//! below a full child of the root.

ghost use Rattle.std.specs.Prelude.{◌≡◌, ◌+◌, ◌^◌, ◌≤◌, ◌<◌, ◌++◌, ℕ, ℤ, List, Some, IfOk, OnOk, length};
ghost use Rattle.mm_tree.specs.Trees.{Tree, Trees};
ghost use Rattle.mm_tree.specs.Numbering.{Labelled};
ghost use Rattle.mm_lists.specs.Leaves.{Leaves};
ghost use Rattle.mm_label.specs.Fronts.{Front};
ghost use Rattle.mm_fragment.specs.Bound.{cost_of, full_count, holders};
ghost use Rattle.mm_fragment.specs.Inside.Gathering.{IsAsked, Passes, WalkedBelow, open_holders};
ghost use Rattle.mm_fragment.specs.Matching.{marks_of, matches_of, open_nodes};
ghost use Rattle.mm_fragment.specs.Showing.{named_in};

use crate::children::{Root, full_child};
use mm_host::Fault;
use mm_label::Label;
use mm_list::Items;
use mm_lists::Lists;
use mm_match::{Mark, at_or_below};
use mm_steps::Steps;
use mm_words::Word;
use std::alloc::Global;
use std::sync::ledger::Ledger;

/// Passes a node that holds the word: marks it, or leaves out the full child of the root in which it
/// stands. Finds the next node of the list.
fn pass<X: Lists, L: Ledger>(
    alloc: Global,
    root: &Root,
    word: &Word,
    mark: Mark,
    marks: &mut Items<Mark>,
    lists: &mut X,
    steps: &mut Steps<L>,
) -> Result<Option<Label>, Fault>
    ensures value { (f : Trees Labelled) (t : Tree Labelled) (query : List (List ℕ)) (done : List (List ℤ)) (passed : ℕ) → X.stands lists.old f → IsAsked f root.now.label.now t root.now.answers.now query
        → WalkedBelow f root.now.label.now t query word.now done passed (Some mark.label) → Front root.now.label.now mark.label
        → IfOk result (Passes f root.now.label.now t query word.now mark.mask done passed marks.old marks.new) }
    ensures leaves { Leaves X.stands X.same_ground X.blames X.fault_count X.spent lists.old lists.new result }
    ensures ticks { OnOk result (steps.new ≡ steps.old + 1) }
    ensures most { steps.new ≤ steps.old + 1 }
{
    if let Some(child) = full_child(alloc, root, &mark.label)? {
        return lists.right_past(word, &child, steps);
    }
    let next = lists.next(word, &mark.label, steps)?;
    marks.push(mark)?;
    Ok(next)
}

/// Puts a mark behind the others for each match of the word.
fn gather<X: Lists, L: Ledger>(
    alloc: Global,
    root: &Root,
    word: &Word,
    bit: u32,
    marks: &mut Items<Mark>,
    lists: &mut X,
    steps: &mut Steps<L>,
) -> Result<(), Fault>
    ensures value { (f : Trees Labelled) (t : Tree Labelled) (query : List (List ℕ)) → X.stands lists.old f → IsAsked f root.now.label.now t root.now.answers.now query
        → OnOk result (marks.new ≡ marks.old ++ marks_of bit (open_holders word.now query (named_in t))) }
    ensures leaves { Leaves X.stands X.same_ground X.blames X.fault_count X.spent lists.old lists.new result }
    ensures cost { (f : Trees Labelled) (t : Tree Labelled) (query : List (List ℕ)) → X.stands lists.old f → IsAsked f root.now.label.now t root.now.answers.now query
        → steps.new ≤ steps.old + (holders word.now (open_nodes query (named_in t)) + (full_count query (named_in t).1 + 1)) }
{
    let mut at = lists.right(word, root.label, steps)?;
    // The range ends the loop also over lists that stand for no forest; memory holds no forest of so many
    // nodes.
    for _ in 0..u64::MAX {
        let Some(label) = at_or_below(root.label, at) else {
            return Ok(());
        };
        let mark = Mark { label, mask: bit };
        at = pass(alloc, root, word, mark, marks, lists, steps)?;
    }
    Err(Fault::Memory)
}

/// The next bit. After the last bit there is none.
pub fn doubled(bit: u32) -> u32
    ensures { bit < 2 ^ 31 → result ≡ bit + bit }
{
    bit.wrapping_add(bit)
}

/// The matches of all words of a query, those of its first word first, each word as the bit of its place.
pub fn matches<X: Lists, L: Ledger>(
    alloc: Global,
    root: &Root,
    words: &[Word],
    lists: &mut X,
    steps: &mut Steps<L>,
) -> Result<Items<Mark>, Fault>
    requires { length words.now ≤ 32 }
    ensures value { (f : Trees Labelled) (t : Tree Labelled) → X.stands lists.old f → IsAsked f root.now.label.now t root.now.answers.now words.now
        → IfOk result (λ r. r ≡ matches_of 1 words.now (open_nodes words.now (named_in t))) }
    ensures leaves { Leaves X.stands X.same_ground X.blames X.fault_count X.spent lists.old lists.new result }
    ensures cost { (f : Trees Labelled) (t : Tree Labelled) → X.stands lists.old f → IsAsked f root.now.label.now t root.now.answers.now words.now
        → steps.new ≤ steps.old + cost_of words.now (named_in t) }
{
    let mut marks = Items::new(alloc);
    let mut bit = 1;
    for word in words {
        gather(alloc, root, word, bit, &mut marks, lists, steps)?;
        bit = doubled(bit);
    }
    Ok(marks)
}
