// The trait of keyword lists: for each word the nodes whose own it is, and the look-ups in them.
ghost use Rattle.std.specs.Prelude.{◌≡◌, ◌+◌, ◌↔◌, ℕ, Bool, IfOk, length};
ghost use Rattle.mm_host.specs.declared.damage.Damage.{Damage};
ghost use Rattle.mm_tree.specs.Trees.{Trees};
ghost use Rattle.mm_tree.specs.Numbering.{Labelled};
ghost use Rattle.mm_tree.specs.Search.{list_of, worded};
ghost use Rattle.mm_lists.specs.Leaves.{Leaves};
ghost use Rattle.mm_lists.specs.Lists.{IsLeft, IsNext, IsRight, IsRightPast, head_of};

use mm_host::Fault;
use mm_label::Label;
use mm_steps::Steps;
use mm_words::Word;
use std::sync::ledger::Ledger;

/// The keyword lists of a forest: for each word the nodes whose own word it is, in document order.
///
/// A call may be refused for want of memory at any time, and otherwise only for what the lists stand
/// over: `DiskFault` only where its count of faults rose in this call, `Spent` only where the lists
/// were spent before, `Damaged` only with what is damaged there, and never where they stand for a forest.
/// No call, refused or not, changes what the lists stand for or what they stand over. Each but `faults`
/// ticks once.
pub trait Lists {
    /// The lists are those of this forest.
    ghost stands: { Self → Trees Labelled → Type 0 };

    /// What both stand over is the same.
    ghost same_ground: { Self → Self → Type 0 };

    /// The damage is one of what they stand over.
    ghost blames: { Self → Damage → Type 0 };

    /// How often what they stand over has failed.
    ghost fault_count: { Self → ℕ };

    /// An earlier failure made them useless.
    ghost spent: { Self → Bool };

    /// How many nodes the list of the word has.
    fn count<L: Ledger>(&mut self, word: &Word, steps: &mut Steps<L>) -> Result<u64, Fault>
        ensures value { (f : Trees Labelled) → stands self.old f → IfOk result (λ n. n ≡ length (list_of word.now (worded f))) }
        ensures leaves { Leaves stands same_ground blames fault_count spent self.old self.new result }
        ensures ticks { steps.new ≡ steps.old + 1 };

    /// Its first node.
    fn first<L: Ledger>(
        &mut self,
        word: &Word,
        steps: &mut Steps<L>,
    ) -> Result<Option<Label>, Fault>
        ensures value { (f : Trees Labelled) → stands self.old f → IfOk result (λ o. o ≡ head_of (list_of word.now (worded f))) }
        ensures leaves { Leaves stands same_ground blames fault_count spent self.old self.new result }
        ensures ticks { steps.new ≡ steps.old + 1 };

    /// Its first node after the label.
    fn next<L: Ledger>(
        &mut self,
        word: &Word,
        at: &Label,
        steps: &mut Steps<L>,
    ) -> Result<Option<Label>, Fault>
        ensures value { (f : Trees Labelled) → stands self.old f → IfOk result (λ o. IsNext (list_of word.now (worded f)) at.now o) }
        ensures leaves { Leaves stands same_ground blames fault_count spent self.old self.new result }
        ensures ticks { steps.new ≡ steps.old + 1 };

    /// Its last node at or before the label.
    fn left<L: Ledger>(
        &mut self,
        word: &Word,
        at: &Label,
        steps: &mut Steps<L>,
    ) -> Result<Option<Label>, Fault>
        ensures value { (f : Trees Labelled) → stands self.old f → IfOk result (λ o. IsLeft (list_of word.now (worded f)) at.now o) }
        ensures leaves { Leaves stands same_ground blames fault_count spent self.old self.new result }
        ensures ticks { steps.new ≡ steps.old + 1 };

    /// Its first node at or after the label.
    fn right<L: Ledger>(
        &mut self,
        word: &Word,
        at: &Label,
        steps: &mut Steps<L>,
    ) -> Result<Option<Label>, Fault>
        ensures value { (f : Trees Labelled) → stands self.old f → IfOk result (λ o. IsRight (list_of word.now (worded f)) at.now o) }
        ensures leaves { Leaves stands same_ground blames fault_count spent self.old self.new result }
        ensures ticks { steps.new ≡ steps.old + 1 };

    /// Its first node after the whole subtree of the label.
    fn right_past<L: Ledger>(
        &mut self,
        word: &Word,
        at: &Label,
        steps: &mut Steps<L>,
    ) -> Result<Option<Label>, Fault>
        ensures value { (f : Trees Labelled) → stands self.old f → IfOk result (λ o. IsRightPast (list_of word.now (worded f)) at.now o) }
        ensures leaves { Leaves stands same_ground blames fault_count spent self.old self.new result }
        ensures ticks { steps.new ≡ steps.old + 1 };

    /// How often what they stand over has failed. It never falls.
    fn faults(&self) -> u64
        ensures { result ≡ fault_count self.now };

    ghost same_itself: { (x : Self) → same_ground x x };

    ghost same_along: { (x y z : Self) → same_ground x y → same_ground y z → same_ground x z };

    ghost same_blames: { (x y : Self) (d : Damage) → same_ground x y → blames x d ↔ blames y d };
}
