// The call that makes a fragment of an answer.
ghost use Rattle.std.specs.Prelude.{◌≡◌, ◌+◌, ◌≤◌, Some, IfOk, AllPairs, IsTrue};
ghost use Rattle.mm_label.specs.Label.{IsBefore};
ghost use Rattle.mm_tree.specs.Trees.{Tree, Trees};
ghost use Rattle.mm_tree.specs.Numbering.{Labelled, forest_of};
ghost use Rattle.mm_tree.specs.Forests.{is_well_formed};
ghost use Rattle.mm_tree.specs.Edits.{found};
ghost use Rattle.mm_tree.specs.Fragments.{fragment, fragment_tree};
ghost use Rattle.mm_lists.specs.Leaves.{Leaves};
ghost use Rattle.mm_fragment.specs.Bound.{cost_of};
ghost use Rattle.mm_fragment.specs.Matching.{Tells, matches_of, open_nodes};
ghost use Rattle.mm_fragment.specs.Showing.{named_in};

use crate::children::Root;
use crate::gathering::matches;
use crate::pruning::kept_nodes;
use crate::rebuilding::rebuild;
use crate::showing::{show, show_all};
use mm_host::Fault;
use mm_label::Label;
use mm_lists::Lists;
use mm_match::Mark;
use mm_steps::Steps;
use mm_tree::{Forest, Fragment};
use mm_words::{Query, Word};
use std::alloc::{AllocError, Global};
use std::sync::ledger::Ledger;

/// The fragment of the root, by the matches below it.
fn assembled(
    alloc: Global,
    forest: &Forest,
    root: &Label,
    matches: &[Mark],
    words: &[Word],
) -> Result<Fragment, AllocError>
    ensures { (t : Tree Labelled) → IsTrue (is_well_formed (forest_of forest.now)) → found root.now (forest_of forest.now) ≡ Some t → matches.now ≡ matches_of 1 words.now (open_nodes words.now (named_in t))
        → IfOk result (λ r. fragment_tree r ≡ fragment words.now (named_in t)) }
{
    let kept = kept_nodes(alloc, root, matches)?;
    let shown = show_all(alloc, forest, kept, words)?;
    match rebuild(alloc, shown)? {
        Some(fragment) => Ok(fragment),
        None => show(alloc, forest, root.copy(alloc)?, words),
    }
}

/// The fragment of an answer: the root, and below it the contributors among the children, each with its
/// fragment. Each node is shown with its name and the words of the query that it holds itself. The lists
/// stand for the forest; the answers are those of the search that found the root, in document order, and
/// so tell which children of the root hold every word of the query: these and all below them are left out.
///
/// The lists are looked into once for each match, and for each word of the query once more than the root
/// has full children.
///
/// # Errors
///
/// `Memory` where there was none, and else what the lists refuse: `DiskFault` only where their count of
/// faults rose in this call, `Spent` only where they were spent before, `Damaged` only with what is damaged
/// there, and never where they stand for a forest.
pub fn fragment<X: Lists, L: Ledger>(
    alloc: Global,
    forest: &Forest,
    root: &Label,
    answers: &[Label],
    query: &Query,
    lists: &mut X,
    steps: &mut Steps<L>,
) -> Result<Fragment, Fault>
    ensures value { (t : Tree Labelled) → X.stands lists.old (forest_of forest.now) → found root.now (forest_of forest.now) ≡ Some t → AllPairs IsBefore answers.now → Tells answers.now query.now (named_in t)
        → IfOk result (λ r. fragment_tree r ≡ fragment query.now (named_in t)) }
    ensures leaves { Leaves X.stands X.same_ground X.blames X.fault_count X.spent lists.old lists.new result }
    ensures cost { (t : Tree Labelled) → X.stands lists.old (forest_of forest.now) → found root.now (forest_of forest.now) ≡ Some t → AllPairs IsBefore answers.now → Tells answers.now query.now (named_in t)
        → steps.new ≤ steps.old + cost_of query.now (named_in t) }
{
    // A forest is well formed.
    let _ = forest.trees();
    let words = query.words();
    let at = Root {
        label: root,
        answers,
    };
    let found = matches(alloc, &at, words, lists, steps)?;
    let shown = assembled(alloc, forest, root, found.as_slice(), words)?;
    Ok(shown)
}
