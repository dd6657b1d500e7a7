//! The call that makes a fragment of an answer out of a keeper's entries.

ghost use Rattle.std.specs.Prelude.{◌≡◌, ◌+◌, ◌≤◌, Some, IfOk, IfErr, AllPairs, length};
ghost use Rattle.mm_fragment.specs.Bound.{cost_of};
ghost use Rattle.mm_fragment.specs.Inside.Gathering.{IsAsked};
ghost use Rattle.mm_fragment.specs.Matching.{Tells, matches_of, open_nodes};
ghost use Rattle.mm_fragment.specs.Showing.{named_in};
ghost use Rattle.mm_fragment.specs.Stored.{IsDamageBelow};
ghost use Rattle.mm_image.specs.Ground.{HoldsImage, SameGround};
ghost use Rattle.mm_label.specs.Label.{IsBefore};
ghost use Rattle.mm_lists.specs.Causes.{BlamesOnly, Caused, IsSound};
ghost use Rattle.mm_tree.specs.Edits.{found};
ghost use Rattle.mm_tree.specs.Fragments.{fragment, fragment_tree};
ghost use Rattle.mm_tree.specs.Numbering.{Labelled};
ghost use Rattle.mm_tree.specs.Trees.{Tree, Trees, nodes, one};

use crate::children::Root;
use crate::gathering::matches;
use crate::pruning::kept_nodes;
use crate::rebuilding::rebuild;
use crate::stored::{show, show_all};
use mm_host::Fault;
use mm_image::laws::values_tell;
use mm_keeper::Keeper;
use mm_keeper_lists::KeeperLists;
use mm_label::Label;
use mm_list::Items;
use mm_match::Mark;
use mm_steps::Steps;
use mm_tree::Fragment;
use mm_words::{Query, Word};
use std::alloc::Global;
use std::sync::ledger::Ledger;

/// The matches below a root, by the lists over a keeper's entries.
fn stored_matches<K: Keeper, L: Ledger>(
    alloc: Global,
    root: &Root,
    words: &[Word],
    keeper: &mut K,
    steps: &mut Steps<L>,
) -> Result<Items<Mark>, Fault>
    requires sound { K.is_sound keeper.old }
    requires words { length words.now ≤ 32 }
    ensures value { (f : Trees Labelled) (t : Tree Labelled) → HoldsImage K.has_maps K.seen keeper.old f → IsAsked f root.now.label.now t root.now.answers.now words.now
        → IfOk result (λ r. r ≡ matches_of 1 words.now (open_nodes words.now (named_in t))) }
    ensures blame { K.has_maps keeper.old → IfErr result (BlamesOnly (IsDamageBelow root.now.label.now (K.seen keeper.old).now)) }
    ensures undamaged { (f : Trees Labelled) → HoldsImage K.has_maps K.seen keeper.old f → IfErr result IsSound }
    ensures sound { K.is_sound keeper.new }
    ensures ground { SameGround K.over K.has_maps K.tells K.seen K.written K.changes K.moment K.left_since keeper.old keeper.new }
    ensures cause { Caused (K.fault_count keeper.old) (K.fault_count keeper.new) (K.is_spent keeper.old) (K.is_spent keeper.new) result }
    ensures cost { (f : Trees Labelled) (t : Tree Labelled) → HoldsImage K.has_maps K.seen keeper.old f → IsAsked f root.now.label.now t root.now.answers.now words.now
        → steps.new ≤ steps.old + cost_of words.now (named_in t) }
{
    let mut lists = KeeperLists::new(alloc, keeper);
    matches(alloc, root, words, &mut lists, steps)
}

/// The fragment of the root, by the matches below it.
fn stored_assembled<K: Keeper, L: Ledger>(
    alloc: Global,
    root: &Label,
    matches: &[Mark],
    words: &[Word],
    keeper: &mut K,
    steps: &mut Steps<L>,
) -> Result<Fragment, Fault>
    requires sound { K.is_sound keeper.old }
    requires words { length words.now ≤ 32 }
    ensures value { (f : Trees Labelled) (t : Tree Labelled) → HoldsImage K.has_maps K.seen keeper.old f → found root.now f ≡ Some t → matches.now ≡ matches_of 1 words.now (open_nodes words.now (named_in t))
        → IfOk result (λ r. fragment_tree r ≡ fragment words.now (named_in t)) }
    ensures blame { K.has_maps keeper.old → IfErr result (BlamesOnly (IsDamageBelow root.now (K.seen keeper.old).now)) }
    ensures undamaged { (f : Trees Labelled) (t : Tree Labelled) → HoldsImage K.has_maps K.seen keeper.old f → found root.now f ≡ Some t → matches.now ≡ matches_of 1 words.now (open_nodes words.now (named_in t))
        → IfErr result IsSound }
    ensures sound { K.is_sound keeper.new }
    ensures ground { SameGround K.over K.has_maps K.tells K.seen K.written K.changes K.moment K.left_since keeper.old keeper.new }
    ensures cause { Caused (K.fault_count keeper.old) (K.fault_count keeper.new) (K.is_spent keeper.old) (K.is_spent keeper.new) result }
    ensures cost { (f : Trees Labelled) (t : Tree Labelled) → HoldsImage K.has_maps K.seen keeper.old f → found root.now f ≡ Some t → matches.now ≡ matches_of 1 words.now (open_nodes words.now (named_in t))
        → steps.new ≤ steps.old + nodes (one (fragment words.now (named_in t))) }
{
    values_tell();
    let kept = kept_nodes(alloc, root, matches)?;
    let shown = show_all(alloc, keeper, kept, words, matches, steps)?;
    match rebuild(alloc, shown)? {
        Some(fragment) => Ok(fragment),
        None => show(alloc, keeper, root.copy(alloc)?, words, matches, steps),
    }
}

/// The fragment of an answer, as `fragment` makes it, read out of a keeper's entries: the matches by
/// its keyword lists, each node's name out of its first piece.
///
/// A step is a call of the keeper: one for each match, for each word of the query one more than the root has
/// full children, and one for each node of the fragment.
///
/// # Errors
///
/// `Memory` where there was none, and else what the keeper refuses: `DiskFault` only where its count of faults rose
/// in this call, `Spent` only where it was spent before. `Damaged` only with the key of an entry of a keyword list that
/// can't be read, or of the first piece of a node at or below the root that has no name there; never where the map is
/// the image of a forest in which a node has the root's label, and the answers are those of the search.
pub fn stored_fragment<K: Keeper, L: Ledger>(
    alloc: Global,
    root: &Label,
    answers: &[Label],
    query: &Query,
    keeper: &mut K,
    steps: &mut Steps<L>,
) -> Result<Fragment, Fault>
    requires { K.is_sound keeper.old }
    ensures value { (f : Trees Labelled) (t : Tree Labelled) → HoldsImage K.has_maps K.seen keeper.old f → found root.now f ≡ Some t → AllPairs IsBefore answers.now → Tells answers.now query.now (named_in t)
        → IfOk result (λ r. fragment_tree r ≡ fragment query.now (named_in t)) }
    // The key that damage tells is that of an entry that can't be read, over any map.
    ensures blame { K.has_maps keeper.old → IfErr result (BlamesOnly (IsDamageBelow root.now (K.seen keeper.old).now)) }
    ensures undamaged { (f : Trees Labelled) (t : Tree Labelled) → HoldsImage K.has_maps K.seen keeper.old f → found root.now f ≡ Some t → AllPairs IsBefore answers.now → Tells answers.now query.now (named_in t)
        → IfErr result IsSound }
    ensures sound { K.is_sound keeper.new }
    ensures ground { SameGround K.over K.has_maps K.tells K.seen K.written K.changes K.moment K.left_since keeper.old keeper.new }
    ensures cause { Caused (K.fault_count keeper.old) (K.fault_count keeper.new) (K.is_spent keeper.old) (K.is_spent keeper.new) result }
    ensures cost { (f : Trees Labelled) (t : Tree Labelled) → HoldsImage K.has_maps K.seen keeper.old f → found root.now f ≡ Some t → AllPairs IsBefore answers.now → Tells answers.now query.now (named_in t)
        → steps.new ≤ steps.old + cost_of query.now (named_in t) + nodes (one (fragment query.now (named_in t))) }
{
    let words = query.words();
    let at = Root {
        label: root,
        answers,
    };
    let found = stored_matches(alloc, &at, words, keeper, steps)?;
    stored_assembled(alloc, root, found.as_slice(), words, keeper, steps)
}
