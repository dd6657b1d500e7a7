//! What a fragment shows of nodes, read through a keeper: the node's name, and the words of the query that it
//! holds itself out of the matches.

ghost use Rattle.std.specs.Prelude.{◌≡◌, ◌+◌, ◌≤◌, ◌<◌, ◌∷◌, [], Some, IfOk, IfErr, length, map, slice_get};
ghost use Rattle.mm_fragment.specs.Inside.Owning.{Precedes};
ghost use Rattle.mm_fragment.specs.Inside.Piling.{roots};
ghost use Rattle.mm_fragment.specs.Inside.Stored.{BlamesNames, stored_shown};
ghost use Rattle.mm_image.specs.Ground.{SameGround};
ghost use Rattle.mm_label.specs.Fronts.{Ordered};
ghost use Rattle.mm_lists.specs.Causes.{Caused};
ghost use Rattle.mm_match.specs.Marks.{labels};
ghost use Rattle.mm_tree.specs.Fragments.{fragment_tree};
ghost use Rattle.mm_tree.specs.Trees.{none};

use crate::owning::own_words;
use mm_host::Fault;
use mm_image::node_name;
use mm_keeper::Keeper;
use mm_label::Label;
use mm_list::Items;
use mm_match::Mark;
use mm_steps::Steps;
use mm_tree::Fragment;
use mm_words::Word;
use std::alloc::Global;
use std::sync::ledger::Ledger;

/// What a fragment shows of the node with the label, without its children.
pub fn show<K: Keeper, L: Ledger>(
    alloc: Global,
    keeper: &mut K,
    label: Label,
    words: &[Word],
    marks: &[Mark],
    steps: &mut Steps<L>,
) -> Result<Fragment, Fault>
    requires sound { K.is_sound keeper.old }
    requires words { length words.now ≤ 32 }
    ensures shown { K.has_maps keeper.old → Ordered Precedes marks.now → IfOk result (λ f. fragment_tree f ≡ (stored_shown (K.seen keeper.old).now words.now marks.now label, none)) }
    ensures blame { K.has_maps keeper.old → IfErr result (BlamesNames (K.seen keeper.old).now (label ∷ [])) }
    ensures sound { K.is_sound keeper.new }
    ensures ground { SameGround K.over K.has_maps K.tells K.seen K.written K.changes K.moment K.left_since keeper.old keeper.new }
    ensures cause { Caused (K.fault_count keeper.old) (K.fault_count keeper.new) (K.is_spent keeper.old) (K.is_spent keeper.new) result }
    ensures most { steps.new ≤ steps.old + 1 }
{
    let name = node_name(alloc, &label, keeper, steps)?;
    let matches = own_words(alloc, words, marks, &label)?;
    Ok(Fragment {
        label,
        name,
        matches,
        children: Items::new(alloc),
    })
}

/// What a fragment shows of each of these nodes, without their children.
pub fn show_all<K: Keeper, L: Ledger>(
    alloc: Global,
    keeper: &mut K,
    nodes: Items<Mark>,
    words: &[Word],
    marks: &[Mark],
    steps: &mut Steps<L>,
) -> Result<Items<Fragment>, Fault>
    requires sound { K.is_sound keeper.old }
    requires words { length words.now ≤ 32 }
    ensures shown { K.has_maps keeper.old → Ordered Precedes marks.now → IfOk result (λ shown. roots shown ≡ map (λ m. stored_shown (K.seen keeper.old).now words.now marks.now m.label) nodes) }
    ensures blame { K.has_maps keeper.old → IfErr result (BlamesNames (K.seen keeper.old).now (labels nodes)) }
    ensures sound { K.is_sound keeper.new }
    ensures ground { SameGround K.over K.has_maps K.tells K.seen K.written K.changes K.moment K.left_since keeper.old keeper.new }
    ensures cause { Caused (K.fault_count keeper.old) (K.fault_count keeper.new) (K.is_spent keeper.old) (K.is_spent keeper.new) result }
    ensures most { steps.new ≤ steps.old + length nodes }
{
    let mut shown = Items::new(alloc);
    let mut left = nodes;
    while let Some(Mark { label, .. }) = left.pop() {
        shown.push(show(alloc, keeper, label, words, marks, steps)?)?;
    }
    shown.reverse();
    Ok(shown)
}
