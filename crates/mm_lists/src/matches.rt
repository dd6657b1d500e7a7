//! The deepest node above a given one at which every list is met, by left and right matches (Indexed
//! Lookup Eager: Xu and Papakonstantinou, SIGMOD 2005).

ghost use Rattle.std.specs.Prelude.{ℕ, drop, ◌≡◌, ◌+◌, ◌*◌, ◌≤◌, ◌<◌, List, [], ◌∷◌, ◌++◌, IfOk, IsTrue, true, length, get_or};
ghost use Rattle.mm_tree.specs.Trees.{Trees};
ghost use Rattle.mm_tree.specs.Numbering.{Labelled};
ghost use Rattle.mm_tree.specs.Forests.{is_well_formed};
ghost use Rattle.mm_tree.specs.Search.{list_of, lists_of, worded};
ghost use Rattle.mm_lists.specs.Leaves.{Leaves};
ghost use Rattle.mm_label.specs.Fronts.{Label, Within, Meets, or_empty};
ghost use Rattle.mm_lists.specs.Full.{MeetsAll, IsCandidate};
ghost use Rattle.mm_lists.specs.Lists.{head_of};
ghost use Rattle.mm_lists.specs.Advancing.{Advances};
ghost use Rattle.mm_lists.specs.Inside.Narrowing.{deeper, narrowed, ancestor_with};

use crate::lists::Lists;
use mm_host::Fault;
use mm_label::{Label, lca};
use mm_steps::Steps;
use mm_words::Word;
use std::alloc::{AllocError, Global};
use std::sync::ledger::Ledger;

/// The lowest common ancestor with a match, if there is one.
fn reached(alloc: Global, x: &Label, of: &Option<Label>) -> Result<Option<Label>, AllocError>
    ensures { IfOk result (λ o. or_empty o ≡ ancestor_with x.now of.now) }
{
    match of {
        None => Ok(None),
        Some(m) => lca(alloc, x, m),
    }
}

/// The deeper of two on one path.
#[tactic(auto, using(crate::specs::Facts::Candidates::deeper_none))]
fn deeper_of(a: Option<Label>, b: Option<Label>) -> Option<Label>
    ensures { or_empty result ≡ deeper (or_empty a) (or_empty b) }
{
    match (a, b) {
        (None, b) => b,
        (Some(a), None) => Some(a),
        (Some(a), Some(b)) => { if a.is_prefix(&b) { Some(b) } else { Some(a) } }
    }
}

/// The deeper of the lowest common ancestors with the two matches.
fn narrow(
    alloc: Global,
    at: &Option<Label>,
    left: &Option<Label>,
    right: &Option<Label>,
) -> Result<Option<Label>, AllocError>
    ensures { IfOk result (λ o. or_empty o ≡ narrowed (or_empty at.now) left.now right.now) }
{
    match at {
        None => Ok(None),
        Some(x) => {
            let a = reached(alloc, x, left)?;
            let b = reached(alloc, x, right)?;
            Ok(deeper_of(a, b))
        }
    }
}

/// The candidate over one list more.
fn narrow_by<X: Lists, L: Ledger>(
    alloc: Global,
    x: Option<Label>,
    word: &Word,
    v: &Label,
    lists: &mut X,
    steps: &mut Steps<L>,
) -> Result<Option<Label>, Fault>
    ensures value { (f : Trees Labelled) (ls : List (List Label)) → X.stands lists.old f → Meets [] (list_of word.now (worded f)) → IsCandidate ls v.now (or_empty x)
        → IfOk result (λ y. IsCandidate (ls ++ list_of word.now (worded f) ∷ []) v.now (or_empty y)) }
    ensures leaves { Leaves X.stands X.same_ground X.blames X.fault_count X.spent lists.old lists.new result }
    ensures cost { steps.new ≤ steps.old + 2 }
{
    let left = lists.left(word, v, steps)?;
    let right = lists.right(word, v, steps)?;
    let narrower = narrow(alloc, &x, &left, &right)?;
    Ok(narrower)
}

/// The same, where the list is not to be skipped.
fn narrow_at<X: Lists, L: Ledger>(
    alloc: Global,
    x: Option<Label>,
    skip: bool,
    word: &Word,
    v: &Label,
    lists: &mut X,
    steps: &mut Steps<L>,
) -> Result<Option<Label>, Fault>
    ensures value { (f : Trees Labelled) (ls : List (List Label)) → X.stands lists.old f → Meets [] (list_of word.now (worded f)) → (skip ≡ true → Within v.now (list_of word.now (worded f))) → IsCandidate ls v.now (or_empty x)
        → IfOk result (λ y. IsCandidate (ls ++ list_of word.now (worded f) ∷ []) v.now (or_empty y)) }
    ensures leaves { Leaves X.stands X.same_ground X.blames X.fault_count X.spent lists.old lists.new result }
    ensures cost { steps.new ≤ steps.old + 2 }
    ensures skipped { skip ≡ true → steps.new ≡ steps.old }
{
    if skip {
        return Ok(x);
    }
    narrow_by(alloc, x, word, v, lists, steps)
}

/// The deepest node at or above v at which every list is met, or None where there is none. v is a node
/// of the list of the word at `own`, which costs no step; each other list costs two.
pub fn candidate<X: Lists, L: Ledger>(
    alloc: Global,
    words: &[Word],
    own: usize,
    v: &Label,
    lists: &mut X,
    steps: &mut Steps<L>,
) -> Result<Option<Label>, Fault>
    requires { own < length words.now }
    ensures value { (f : Trees Labelled) → IsTrue (is_well_formed f) → X.stands lists.old f → MeetsAll [] (lists_of words.now (worded f)) → Within v.now (list_of (get_or words.now own []) (worded f))
        → IfOk result (λ c. IsCandidate (lists_of words.now (worded f)) v.now (or_empty c)) }
    ensures leaves { Leaves X.stands X.same_ground X.blames X.fault_count X.spent lists.old lists.new result }
    ensures cost { steps.new + 2 ≤ steps.old + 2 * length words.now }
{
    let mut x = Some(v.copy(alloc)?);
    for (i, word) in words.iter().enumerate() {
        x = narrow_at(alloc, x, i == own, word, v, lists, steps)?;
    }
    Ok(x)
}

/// The candidate of the node at which a walk along the list of the word at `own` stands, and None past its
/// end. The walk then stands at the next node. The candidate costs two steps for each other list, the
/// next node one.
pub fn next_candidate<X: Lists, L: Ledger>(
    alloc: Global,
    words: &[Word],
    own: usize,
    at: &mut Option<Label>,
    lists: &mut X,
    steps: &mut Steps<L>,
) -> Result<Option<Label>, Fault>
    requires { own < length words.now }
    ensures value { (f : Trees Labelled) (i : ℕ) → IsTrue (is_well_formed f) → X.stands lists.old f → MeetsAll [] (lists_of words.now (worded f)) → at.old ≡ head_of (drop i (list_of (get_or words.now own []) (worded f)))
        → IfOk result (Advances (lists_of words.now (worded f)) (list_of (get_or words.now own []) (worded f)) i at.old at.new) }
    ensures leaves { Leaves X.stands X.same_ground X.blames X.fault_count X.spent lists.old lists.new result }
    ensures cost { steps.new + 1 ≤ steps.old + 2 * length words.now }
{
    let Some(v) = at.take() else {
        return Ok(None);
    };
    let found = candidate(alloc, words, own, &v, lists, steps)?;
    *at = lists.next(&words[own], &v, steps)?;
    Ok(found)
}
