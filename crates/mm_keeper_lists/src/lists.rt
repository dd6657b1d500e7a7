//! Keyword lists over a keeper's entries.

ghost use Rattle.std.specs.Prelude.{◌≡◌, ◌+◌, ◌∷◌, ◌++◌, [], refl, IfOk, IsTrue, length};
ghost use Rattle.std.proofs.Common.{◌∙◌};
ghost use Rattle.mm_image.specs.Looking.{entry_at};
ghost use Rattle.mm_keeper.specs.Entries.{first_from, index_of, last_to};
ghost use Rattle.mm_keeper_lists.specs.Found.{IsDamageOf, ReadsLabel, ReadsCount};
ghost use Rattle.mm_keeper_lists.specs.Inside.Finding.{TellsDown, TellsUp};
ghost use Rattle.mm_keeper_lists.specs.Ranges.{range_key};
ghost use Rattle.mm_label.specs.Bytes.{bytes_of};
ghost use Rattle.mm_image.specs.Keys.{count_key, occurrence_key};
ghost use Rattle.mm_lists.specs.Leaves.{Leaves};
ghost use Rattle.mm_lists.specs.Lists.{IsLeft, IsNext, IsRight, IsRightPast, head_of};
ghost use Rattle.mm_tree.specs.Search.{list_of, worded};
ghost use Rattle.mm_image.specs.Ground.{SameGround, HoldsImage};
ghost use Rattle.mm_lists.specs.Causes.{Caused};
ghost use Rattle.mm_tree.specs.Numbering.{Labelled};
ghost use Rattle.mm_tree.specs.Trees.{Trees};
ghost use Rattle.mm_words.specs.Words.{is_word};

use crate::key::range_key;
use crate::looking::{count_at, label_at};
use mm_host::Fault;
use mm_image::count_key;
use mm_image::laws::values_tell;
use mm_keeper::Keeper;
use mm_label::Label;
use mm_label::laws::{ancestry, byte_order};
use mm_lists::Lists;
use mm_steps::Steps;
use mm_words::Word;
use std::alloc::Global;
use std::sync::ledger::Ledger;

/// Keyword lists that are read through a keeper. Over a map that is no image they stand for no forest, and a
/// call may answer `Damaged` with a key. It does so exactly where it finds an entry of the word's range whose
/// key spells no label, or the word's count without eight bytes: damage is blamed on such an entry alone, and
/// over one no call answers Ok, since Ok tells what the entry says.
pub struct KeeperLists<'a, K: Keeper> {
    alloc: Global,
    keeper: &'a mut K,
    ghost sound: { K.is_sound keeper.now } by { K.sound_prop keeper.now },
}

impl<K: Keeper> Drop for KeeperLists<'_, K> {
    fn drop(self)
        ensures { self.exit.1.0.now ≡ self.entry.keeper.now }
    {
        let KeeperLists {
            alloc: _alloc,
            keeper: _keeper,
        } = self;
    }
}

impl<'a, K: Keeper> KeeperLists<'a, K> {
    /// Lists over the entries of the keeper, which is held for writing as long as they live.
    pub fn new(alloc: Global, keeper: &'a mut K) -> KeeperLists<'a, K>
        requires { K.is_sound keeper.old }
        ensures same_reference { result.keeper.ghost_name ≡ keeper.entry.ghost_name }
        ensures same { result.keeper.now ≡ keeper.old }
    {
        KeeperLists { alloc, keeper }
    }

    /// The label in the first key at or above this one, if that is of the word's range.
    fn label_up<L: Ledger>(
        &mut self,
        word: &Word,
        key: &[u8],
        steps: &mut Steps<L>,
    ) -> Result<Option<Label>, Fault>
        ensures reads { K.has_maps self.old.keeper.now → ReadsLabel word.now (entry_at (K.seen self.old.keeper.now).now (first_from (K.seen self.old.keeper.now).now key.now)) result }
        ensures same_reference { self.new.keeper.ghost_name ≡ self.old.keeper.ghost_name }
        ensures ground { SameGround K.over K.has_maps K.tells K.seen K.written K.changes K.moment K.left_since self.old.keeper.now self.new.keeper.now }
        ensures cause { Caused (K.fault_count self.old.keeper.now) (K.fault_count self.new.keeper.now) (K.is_spent self.old.keeper.now) (K.is_spent self.new.keeper.now) result }
        ensures ticks { steps.new ≡ steps.old + 1 }
    {
        match self.keeper.up(key, steps) {
            Ok(Some(spot)) => label_at(self.alloc, self.keeper, word, spot),
            Ok(None) => Ok(None),
            Err(fault) => Err(fault),
        }
    }

    /// The label in the last key at or below this one, if that is of the word's range.
    #[tactic(auto, using(mm_keeper::specs::Facts::InRange::last_in_range))]
    fn label_down<L: Ledger>(
        &mut self,
        word: &Word,
        key: &[u8],
        steps: &mut Steps<L>,
    ) -> Result<Option<Label>, Fault>
        ensures reads { K.has_maps self.old.keeper.now → ReadsLabel word.now (entry_at (K.seen self.old.keeper.now).now (last_to (K.seen self.old.keeper.now).now key.now)) result }
        ensures same_reference { self.new.keeper.ghost_name ≡ self.old.keeper.ghost_name }
        ensures ground { SameGround K.over K.has_maps K.tells K.seen K.written K.changes K.moment K.left_since self.old.keeper.now self.new.keeper.now }
        ensures cause { Caused (K.fault_count self.old.keeper.now) (K.fault_count self.new.keeper.now) (K.is_spent self.old.keeper.now) (K.is_spent self.new.keeper.now) result }
        ensures ticks { steps.new ≡ steps.old + 1 }
    {
        match self.keeper.down(key, steps) {
            Ok(Some(spot)) => label_at(self.alloc, self.keeper, word, spot),
            Ok(None) => Ok(None),
            Err(fault) => Err(fault),
        }
    }

    /// The label in the first key at or above that of the word and these bytes, if that is of the word's range.
    fn look_up<L: Ledger>(
        &mut self,
        word: &Word,
        front: &[u8],
        behind: &[u8],
        steps: &mut Steps<L>,
    ) -> Result<Option<Label>, Fault>
        ensures word { IsTrue (is_word word.now) }
        ensures value { (f : Trees Labelled) → HoldsImage K.has_maps K.seen self.old.keeper.now f → IfOk result (TellsUp f word.now (range_key word.now (front.now ++ behind.now))) }
        ensures leaves { Leaves (λ k f. HoldsImage K.has_maps K.seen k.keeper.now f) (λ k l. (l.keeper.ghost_name ≡ k.keeper.ghost_name) × SameGround K.over K.has_maps K.tells K.seen K.written K.changes K.moment K.left_since k.keeper.now l.keeper.now) (λ k d. K.has_maps k.keeper.now → IsDamageOf (K.seen k.keeper.now).now d) (λ k. K.fault_count k.keeper.now) (λ k. K.is_spent k.keeper.now) self.old self.new result }
        ensures ticks { steps.new ≡ steps.old + 1 }
        ensures reads { K.has_maps self.old.keeper.now → ReadsLabel word.now (entry_at (K.seen self.old.keeper.now).now (first_from (K.seen self.old.keeper.now).now (range_key word.now (front.now ++ behind.now)))) result }
    {
        match range_key(self.alloc, word, front, behind) {
            Ok(key) => self.label_up(word, key.as_slice(), steps),
            Err(error) => {
                steps.tick();
                Err(error.into())
            }
        }
    }

    /// The label in the last key at or below that of the word and these bytes, if that is of the word's range.
    fn look_down<L: Ledger>(
        &mut self,
        word: &Word,
        front: &[u8],
        steps: &mut Steps<L>,
    ) -> Result<Option<Label>, Fault>
        ensures word { IsTrue (is_word word.now) }
        ensures value { (f : Trees Labelled) → HoldsImage K.has_maps K.seen self.old.keeper.now f → IfOk result (TellsDown f word.now (range_key word.now (front.now ++ []))) }
        ensures leaves { Leaves (λ k f. HoldsImage K.has_maps K.seen k.keeper.now f) (λ k l. (l.keeper.ghost_name ≡ k.keeper.ghost_name) × SameGround K.over K.has_maps K.tells K.seen K.written K.changes K.moment K.left_since k.keeper.now l.keeper.now) (λ k d. K.has_maps k.keeper.now → IsDamageOf (K.seen k.keeper.now).now d) (λ k. K.fault_count k.keeper.now) (λ k. K.is_spent k.keeper.now) self.old self.new result }
        ensures ticks { steps.new ≡ steps.old + 1 }
        ensures reads { K.has_maps self.old.keeper.now → ReadsLabel word.now (entry_at (K.seen self.old.keeper.now).now (last_to (K.seen self.old.keeper.now).now (range_key word.now (front.now ++ [])))) result }
    {
        match range_key(self.alloc, word, front, b"") {
            Ok(key) => self.label_down(word, key.as_slice(), steps),
            Err(error) => {
                steps.tick();
                Err(error.into())
            }
        }
    }

    /// The number in the entry of a count's key, 0 without one.
    #[tactic(auto, using(mm_keeper::specs::Facts::InRange::index_in_range))]
    fn look_at<L: Ledger>(&mut self, key: &[u8], steps: &mut Steps<L>) -> Result<u64, Fault>
        ensures reads { K.has_maps self.old.keeper.now → ReadsCount (entry_at (K.seen self.old.keeper.now).now (index_of (K.seen self.old.keeper.now).now key.now)) result }
        ensures same_reference { self.new.keeper.ghost_name ≡ self.old.keeper.ghost_name }
        ensures ground { SameGround K.over K.has_maps K.tells K.seen K.written K.changes K.moment K.left_since self.old.keeper.now self.new.keeper.now }
        ensures cause { Caused (K.fault_count self.old.keeper.now) (K.fault_count self.new.keeper.now) (K.is_spent self.old.keeper.now) (K.is_spent self.new.keeper.now) result }
        ensures ticks { steps.new ≡ steps.old + 1 }
    {
        match self.keeper.get(key, steps) {
            Ok(Some(spot)) => count_at(self.alloc, self.keeper, spot),
            Ok(None) => Ok(0),
            Err(fault) => Err(fault),
        }
    }
}

impl<K: Keeper> Lists for KeeperLists<'_, K> {
    ghost use Rattle.mm_image.specs.Facts.Grounds.{ground_itself, ground_along};
    ghost use Rattle.mm_keeper_lists.specs.Facts.Blaming.{same_damage};

    ghost stands = { λ k f. HoldsImage K.has_maps K.seen k.keeper.now f };

    ghost same_ground = { λ k l. (l.keeper.ghost_name ≡ k.keeper.ghost_name) × SameGround K.over K.has_maps K.tells K.seen K.written K.changes K.moment K.left_since k.keeper.now l.keeper.now };

    ghost blames = { λ k d. K.has_maps k.keeper.now → IsDamageOf (K.seen k.keeper.now).now d };

    ghost fault_count = { λ k. K.fault_count k.keeper.now };

    ghost spent = { λ k. K.is_spent k.keeper.now };

    fn count<L: Ledger>(&mut self, word: &Word, steps: &mut Steps<L>) -> Result<u64, Fault>
        ensures value { (f : Trees Labelled) → HoldsImage K.has_maps K.seen self.old.keeper.now f → IfOk result (λ n. n ≡ length (list_of word.now (worded f))) }
        ensures leaves { Leaves (λ k f. HoldsImage K.has_maps K.seen k.keeper.now f) (λ k l. (l.keeper.ghost_name ≡ k.keeper.ghost_name) × SameGround K.over K.has_maps K.tells K.seen K.written K.changes K.moment K.left_since k.keeper.now l.keeper.now) (λ k d. K.has_maps k.keeper.now → IsDamageOf (K.seen k.keeper.now).now d) (λ k. K.fault_count k.keeper.now) (λ k. K.is_spent k.keeper.now) self.old self.new result }
        ensures ticks { steps.new ≡ steps.old + 1 }
        // Over any map: what the entry that was found tells.
        ensures reads { K.has_maps self.old.keeper.now → ReadsCount (entry_at (K.seen self.old.keeper.now).now (index_of (K.seen self.old.keeper.now).now (count_key word.now))) result }
    {
        values_tell();
        // A word is one by its type.
        let _ = word.as_bytes();
        // The map's weight bounds its number of entries.
        let _weight = self.keeper.weight();
        match count_key(self.alloc, word) {
            Ok(key) => self.look_at(key.as_slice(), steps),
            Err(error) => {
                steps.tick();
                Err(error.into())
            }
        }
    }

    fn first<L: Ledger>(
        &mut self,
        word: &Word,
        steps: &mut Steps<L>,
    ) -> Result<Option<Label>, Fault>
        ensures value { (f : Trees Labelled) → HoldsImage K.has_maps K.seen self.old.keeper.now f → IfOk result (λ o. o ≡ head_of (list_of word.now (worded f))) }
        ensures leaves { Leaves (λ k f. HoldsImage K.has_maps K.seen k.keeper.now f) (λ k l. (l.keeper.ghost_name ≡ k.keeper.ghost_name) × SameGround K.over K.has_maps K.tells K.seen K.written K.changes K.moment K.left_since k.keeper.now l.keeper.now) (λ k d. K.has_maps k.keeper.now → IsDamageOf (K.seen k.keeper.now).now d) (λ k. K.fault_count k.keeper.now) (λ k. K.is_spent k.keeper.now) self.old self.new result }
        ensures ticks { steps.new ≡ steps.old + 1 }
        // Over any map: what the entry that was found tells.
        ensures reads { K.has_maps self.old.keeper.now → ReadsLabel word.now (entry_at (K.seen self.old.keeper.now).now (first_from (K.seen self.old.keeper.now).now (range_key word.now []))) result }
    {
        byte_order();
        self.look_up(word, b"", b"", steps)
    }

    fn next<L: Ledger>(
        &mut self,
        word: &Word,
        at: &Label,
        steps: &mut Steps<L>,
    ) -> Result<Option<Label>, Fault>
        ensures value { (f : Trees Labelled) → HoldsImage K.has_maps K.seen self.old.keeper.now f → IfOk result (λ o. IsNext (list_of word.now (worded f)) at.now o) }
        ensures leaves { Leaves (λ k f. HoldsImage K.has_maps K.seen k.keeper.now f) (λ k l. (l.keeper.ghost_name ≡ k.keeper.ghost_name) × SameGround K.over K.has_maps K.tells K.seen K.written K.changes K.moment K.left_since k.keeper.now l.keeper.now) (λ k d. K.has_maps k.keeper.now → IsDamageOf (K.seen k.keeper.now).now d) (λ k. K.fault_count k.keeper.now) (λ k. K.is_spent k.keeper.now) self.old self.new result }
        ensures ticks { steps.new ≡ steps.old + 1 }
        // Over any map: what the entry that was found tells.
        ensures reads { K.has_maps self.old.keeper.now → ReadsLabel word.now (entry_at (K.seen self.old.keeper.now).now (first_from (K.seen self.old.keeper.now).now (range_key word.now (bytes_of at.now ++ 0 ∷ [])))) result }
    {
        byte_order();
        self.look_up(word, at.as_bytes(), &[0], steps)
    }

    fn left<L: Ledger>(
        &mut self,
        word: &Word,
        at: &Label,
        steps: &mut Steps<L>,
    ) -> Result<Option<Label>, Fault>
        ensures value { (f : Trees Labelled) → HoldsImage K.has_maps K.seen self.old.keeper.now f → IfOk result (λ o. IsLeft (list_of word.now (worded f)) at.now o) }
        ensures leaves { Leaves (λ k f. HoldsImage K.has_maps K.seen k.keeper.now f) (λ k l. (l.keeper.ghost_name ≡ k.keeper.ghost_name) × SameGround K.over K.has_maps K.tells K.seen K.written K.changes K.moment K.left_since k.keeper.now l.keeper.now) (λ k d. K.has_maps k.keeper.now → IsDamageOf (K.seen k.keeper.now).now d) (λ k. K.fault_count k.keeper.now) (λ k. K.is_spent k.keeper.now) self.old self.new result }
        ensures ticks { steps.new ≡ steps.old + 1 }
        // Over any map: what the entry that was found tells.
        ensures reads { K.has_maps self.old.keeper.now → ReadsLabel word.now (entry_at (K.seen self.old.keeper.now).now (last_to (K.seen self.old.keeper.now).now (occurrence_key word.now at.now))) result }
    {
        byte_order();
        self.look_down(word, at.as_bytes(), steps)
    }

    fn right<L: Ledger>(
        &mut self,
        word: &Word,
        at: &Label,
        steps: &mut Steps<L>,
    ) -> Result<Option<Label>, Fault>
        ensures value { (f : Trees Labelled) → HoldsImage K.has_maps K.seen self.old.keeper.now f → IfOk result (λ o. IsRight (list_of word.now (worded f)) at.now o) }
        ensures leaves { Leaves (λ k f. HoldsImage K.has_maps K.seen k.keeper.now f) (λ k l. (l.keeper.ghost_name ≡ k.keeper.ghost_name) × SameGround K.over K.has_maps K.tells K.seen K.written K.changes K.moment K.left_since k.keeper.now l.keeper.now) (λ k d. K.has_maps k.keeper.now → IsDamageOf (K.seen k.keeper.now).now d) (λ k. K.fault_count k.keeper.now) (λ k. K.is_spent k.keeper.now) self.old self.new result }
        ensures ticks { steps.new ≡ steps.old + 1 }
        // Over any map: what the entry that was found tells.
        ensures reads { K.has_maps self.old.keeper.now → ReadsLabel word.now (entry_at (K.seen self.old.keeper.now).now (first_from (K.seen self.old.keeper.now).now (occurrence_key word.now at.now))) result }
    {
        byte_order();
        self.look_up(word, at.as_bytes(), b"", steps)
    }

    fn right_past<L: Ledger>(
        &mut self,
        word: &Word,
        at: &Label,
        steps: &mut Steps<L>,
    ) -> Result<Option<Label>, Fault>
        ensures value { (f : Trees Labelled) → HoldsImage K.has_maps K.seen self.old.keeper.now f → IfOk result (λ o. IsRightPast (list_of word.now (worded f)) at.now o) }
        ensures leaves { Leaves (λ k f. HoldsImage K.has_maps K.seen k.keeper.now f) (λ k l. (l.keeper.ghost_name ≡ k.keeper.ghost_name) × SameGround K.over K.has_maps K.tells K.seen K.written K.changes K.moment K.left_since k.keeper.now l.keeper.now) (λ k d. K.has_maps k.keeper.now → IsDamageOf (K.seen k.keeper.now).now d) (λ k. K.fault_count k.keeper.now) (λ k. K.is_spent k.keeper.now) self.old self.new result }
        ensures ticks { steps.new ≡ steps.old + 1 }
        // Over any map: what the entry that was found tells.
        ensures reads { K.has_maps self.old.keeper.now → ReadsLabel word.now (entry_at (K.seen self.old.keeper.now).now (first_from (K.seen self.old.keeper.now).now (range_key word.now (bytes_of at.now ++ 255 ∷ [])))) result }
    {
        byte_order();
        ancestry();
        self.look_up(word, at.as_bytes(), &[255], steps)
    }

    fn faults(&self) -> u64 {
        self.keeper.faults()
    }

    ghost same_itself = { λ k. (refl, ground_itself K.over K.has_maps K.tells K.seen K.written K.changes K.moment K.left_since k.keeper.now) };

    ghost same_along = { λ k l m p q. (q.0 ∙ p.0, ground_along K.over K.has_maps K.tells K.seen K.written K.changes K.moment K.left_since k.keeper.now l.keeper.now m.keeper.now K.counts_now p.1 q.1) };

    ghost same_blames = { λ k l d g. same_damage K.over K.has_maps K.tells K.seen K.written K.changes K.moment K.left_since k.keeper.now l.keeper.now g.1 d };
}
