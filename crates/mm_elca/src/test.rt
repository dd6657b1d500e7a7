//! The test of one candidate: whether each word occurs at or below it outside its full children.

ghost use Rattle.std.specs.Prelude.{◌&&◌, ◌≡◌, ◌+◌, ◌*◌, ◌≤◌, List, ◌∷◌, ◌++◌, [], IfOk, length};
ghost use Rattle.mm_tree.specs.Trees.{Trees};
ghost use Rattle.mm_tree.specs.Numbering.{Labelled};
ghost use Rattle.mm_tree.specs.Search.{list_of, lists_of, worded};
ghost use Rattle.mm_lists.specs.Leaves.{Leaves};
ghost use Rattle.mm_label.specs.Fronts.{Label};
ghost use Rattle.mm_elca.specs.Inside.Children.{AreChildren, IsNextChild};
ghost use Rattle.mm_elca.specs.Inside.Clear.{IsFirstClear, HasClear, HaveClear, is_under};

use mm_host::Fault;
use mm_label::Label;
use mm_lists::Lists;
use mm_steps::Steps;
use mm_words::Word;
use std::sync::ledger::Ledger;

/// The first node of the word's list that is outside one child more.
fn skip<X: Lists, L: Ledger>(
    kid: &Label,
    found: Option<Label>,
    word: &Word,
    lists: &mut X,
    steps: &mut Steps<L>,
) -> Result<Option<Label>, Fault>
    ensures value { (f : Trees Labelled) (x : Label) (ks : List Label) → X.stands lists.old f → IsNextChild x kid.now ks → IsFirstClear (list_of word.now (worded f)) x ks found
        → IfOk result (λ o. IsFirstClear (list_of word.now (worded f)) x (ks ++ kid.now ∷ []) o) }
    ensures leaves { Leaves X.stands X.same_ground X.blames X.fault_count X.spent lists.old lists.new result }
    ensures cost { steps.new ≤ steps.old + 1 }
{
    let Some(p) = found else {
        return Ok(None);
    };
    if kid.is_prefix(&p) {
        return lists.right_past(word, kid, steps);
    }
    Ok(Some(p))
}

fn is_below(x: &Label, found: &Option<Label>) -> bool
    ensures { result ≡ is_under x.now found.now }
{
    match found {
        None => false,
        Some(p) => x.is_prefix(p),
    }
}

/// Whether the word occurs at or below x outside these children.
fn own_match<X: Lists, L: Ledger>(
    x: &Label,
    kids: &[Label],
    word: &Word,
    lists: &mut X,
    steps: &mut Steps<L>,
) -> Result<bool, Fault>
    ensures value { (f : Trees Labelled) → X.stands lists.old f → AreChildren x.now kids.now → IfOk result (λ b. HasClear (list_of word.now (worded f)) x.now kids.now b) }
    ensures leaves { Leaves X.stands X.same_ground X.blames X.fault_count X.spent lists.old lists.new result }
    ensures cost { steps.new ≤ steps.old + 1 + length kids.now }
{
    let mut found = lists.right(word, x, steps)?;
    for kid in kids {
        found = skip(kid, found, word, lists, steps)?;
    }
    Ok(is_below(x, &found))
}

fn both(a: bool, b: bool) -> bool
    ensures { result ≡ (a && b) }
{
    a && b
}

/// Whether every word occurs at or below x outside these children. Takes, for each word, at most one step
/// and one more for each child.
pub fn owns_each<X: Lists, L: Ledger>(
    x: &Label,
    kids: &[Label],
    words: &[Word],
    lists: &mut X,
    steps: &mut Steps<L>,
) -> Result<bool, Fault>
    ensures value { (f : Trees Labelled) → X.stands lists.old f → AreChildren x.now kids.now → IfOk result (λ b. HaveClear (lists_of words.now (worded f)) x.now kids.now b) }
    ensures leaves { Leaves X.stands X.same_ground X.blames X.fault_count X.spent lists.old lists.new result }
    ensures cost { steps.new ≤ steps.old + length words.now * (1 + length kids.now) }
{
    let mut so_far = true;
    for word in words {
        let here = own_match(x, kids, word, lists, steps)?;
        so_far = both(so_far, here);
    }
    Ok(so_far)
}
