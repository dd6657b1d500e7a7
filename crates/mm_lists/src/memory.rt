//! Keyword lists in memory.

ghost use Rattle.std.specs.Prelude.{◌≡◌, ◌≤◌, refl, AllPairs, IfOk, length, slice_get};
ghost use Rattle.std.proofs.Common.{◌∙◌};
ghost use Rattle.std.specs.List.Sorted.{IsPartitionPoint};
ghost use Rattle.mm_label.specs.Label.{IsBefore};
ghost use Rattle.mm_tree.specs.Numbering.{forest_of};
ghost use Rattle.mm_label.specs.Fronts.{IsAtOrBefore, IsPast};
ghost use Rattle.mm_tree.specs.KeywordLists.{list_in};
ghost use Rattle.mm_lists.specs.Memory.{is_through};

use crate::lists::Lists;
use mm_host::Fault;
use mm_label::Label;
use mm_list::Items;
use mm_steps::Steps;
use mm_tree::{Forest, KeywordLists, keyword_lists};
use mm_words::Word;
use std::alloc::{AllocError, Global};
use std::sync::ledger::Ledger;

/// How many of the labels come at or before the one.
fn count_up_to(list: &[Label], at: &Label) -> usize
    ensures within { result ≤ length list.now }
    ensures point { AllPairs IsBefore list.now → IsPartitionPoint (λ m. IsAtOrBefore m at.now) (λ m. IsBefore at.now m) list.now result }
{
    list.partition_point(|m| m <= at)
}

/// How many of the labels, which stand in document order, come before the one.
pub fn count_before(list: &[Label], at: &Label) -> usize
    ensures { AllPairs IsBefore list.now → IsPartitionPoint (λ m. IsBefore m at.now) (λ m. IsAtOrBefore at.now m) list.now result }
{
    list.partition_point(|m| m < at)
}

/// Whether the label comes before the end of the other's subtree.
fn is_through(at: &Label, m: &Label) -> bool
    ensures { result ≡ is_through at.now m.now }
{
    m <= at || at.is_prefix(m)
}

/// How many of the labels come before the end of the one's subtree.
fn count_through(list: &[Label], at: &Label) -> usize
    ensures { AllPairs IsBefore list.now → IsPartitionPoint (λ m. IsPast at.now m → ⊥) (λ m. IsPast at.now m) list.now result }
{
    list.partition_point(|m| is_through(at, m))
}

/// The label at this place.
fn copied(alloc: Global, list: &[Label], at: usize) -> Result<Option<Label>, AllocError>
    ensures { IfOk result (λ o. o ≡ slice_get list.now at) }
{
    match list.get(at) {
        Some(label) => Ok(Some(label.copy(alloc)?)),
        None => Ok(None),
    }
}

/// The keyword lists of a forest, held in memory. Their calls are refused for want of memory alone.
#[derive(Drop)]
pub struct MemLists {
    alloc: Global,
    lists: KeywordLists,
}

impl MemLists {
    /// The lists of the forest. The work is near linear in the words of its nodes.
    pub fn of(alloc: Global, forest: &Forest) -> Result<MemLists, AllocError>
        ensures { IfOk result (λ l. ⟦<MemLists as Lists>⟧.stands l (forest_of forest.now)) }
    {
        let lists = keyword_lists(alloc, forest.trees())?;
        Ok(MemLists { alloc, lists })
    }

    fn list(&self, word: &Word) -> &[Label]
        ensures { result.now ≡ list_in self.now.lists word.now }
    {
        match self.lists.get(word) {
            Some(list) => list.as_slice(),
            None => &[],
        }
    }
}

impl Lists for MemLists {
    ghost use Rattle.std.specs.Prelude.{false};
    ghost use Rattle.mm_lists.specs.Memory.{AreOf};
    ghost use Rattle.mm_lists.specs.Facts.Keeping.{kept_same};

    ghost stands = { λ l f. AreOf l.lists f };

    ghost same_ground = { λ k l. l.lists ≡ k.lists };

    ghost blames = { λ _ _. ⊥ };

    ghost fault_count = { λ _. 0 };

    ghost spent = { λ _. false };

    fn count<L: Ledger>(&mut self, word: &Word, steps: &mut Steps<L>) -> Result<u64, Fault> {
        steps.tick();
        Ok(self.list(word).len() as u64)
    }

    fn first<L: Ledger>(
        &mut self,
        word: &Word,
        steps: &mut Steps<L>,
    ) -> Result<Option<Label>, Fault> {
        steps.tick();
        Ok(copied(self.alloc, self.list(word), 0)?)
    }

    fn next<L: Ledger>(
        &mut self,
        word: &Word,
        at: &Label,
        steps: &mut Steps<L>,
    ) -> Result<Option<Label>, Fault> {
        steps.tick();
        let list = self.list(word);
        Ok(copied(self.alloc, list, count_up_to(list, at))?)
    }

    fn left<L: Ledger>(
        &mut self,
        word: &Word,
        at: &Label,
        steps: &mut Steps<L>,
    ) -> Result<Option<Label>, Fault> {
        steps.tick();
        let list = self.list(word);
        let count = count_up_to(list, at);
        if count == 0 {
            return Ok(None);
        }
        Ok(copied(self.alloc, list, count - 1)?)
    }

    fn right<L: Ledger>(
        &mut self,
        word: &Word,
        at: &Label,
        steps: &mut Steps<L>,
    ) -> Result<Option<Label>, Fault> {
        steps.tick();
        let list = self.list(word);
        Ok(copied(self.alloc, list, count_before(list, at))?)
    }

    fn right_past<L: Ledger>(
        &mut self,
        word: &Word,
        at: &Label,
        steps: &mut Steps<L>,
    ) -> Result<Option<Label>, Fault> {
        steps.tick();
        let list = self.list(word);
        Ok(copied(self.alloc, list, count_through(list, at))?)
    }

    fn faults(&self) -> u64 {
        0
    }

    ghost same_itself = { λ x. refl };

    ghost same_along = { λ x y z p q. q ∙ p };

    ghost same_blames = { λ _ _ _ _. kept_same ⊥ };
}
