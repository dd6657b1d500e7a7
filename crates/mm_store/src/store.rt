//! The store: a keeper and a limit on its weight.

ghost use Rattle.std.specs.Prelude.{◌≡◌, ◌+◌, ◌*◌, ◌≤◌, ◌^◌, ◌⊎◌, Some, None, [], false, true, IfOk, IfErr, IsErrOf, OnOk, OnErr, length, map};
ghost use Rattle.mm_check.specs.Verdicts.{Judges};
ghost use Rattle.mm_check.specs.declared.verdict.Verdict.TheVariants.{Sound};
ghost use Rattle.mm_elca.specs.Bound as elca;
ghost use Rattle.mm_fragment.specs.Stored.{IsDamageBelow};
ghost use Rattle.mm_host.specs.Causes.{Rose};
ghost use Rattle.mm_host.specs.Moments.{LeavesOnly};
ghost use Rattle.mm_host.specs.declared.damage.Fault.TheVariants as fault;
ghost use Rattle.mm_image.specs.Ground.{Accounts, HoldsImage, SameGround};
ghost use Rattle.mm_image.specs.Image.{image};
ghost use Rattle.mm_image.specs.Subtrees.{IsUndamaged, NamesKey, at_or_below, run_of};
ghost use Rattle.mm_keeper.specs.Entries.{weight_of};
ghost use Rattle.mm_keeper.specs.Keeping.{Keeps, fault_of};
ghost use Rattle.mm_lists.specs.Causes.{BlamesOnly, Caused, IsSound};
ghost use Rattle.mm_slca.specs.Bound as slca;
ghost use Rattle.mm_store.specs.Answers.{IsAbsent, IsRefusedWith, OnFault, OnRefusal, store_fault};
ghost use Rattle.mm_store.specs.Applying.{Performs, differing};
ghost use Rattle.mm_store.specs.Editing.{EditBlames, IsValidEdit, early_refusal, edit_refusal, edited, edited_label, edited_nodes};
ghost use Rattle.mm_fragment.specs.Showing.{fragments_of};
ghost use Rattle.mm_store.specs.Shown.{fragments_cost};
ghost use Rattle.mm_tree.specs.Edits.{found};
ghost use Rattle.mm_tree.specs.Elca.{elca};
ghost use Rattle.mm_tree.specs.Fragments.{fragment_tree};
ghost use Rattle.mm_tree.specs.Hits.{hits_of};
ghost use Rattle.mm_tree.specs.Numbering.{Labelled, node_of};
ghost use Rattle.mm_tree.specs.Search.{lists_of, slca, worded};
ghost use Rattle.mm_tree.specs.Trees.{Trees, nodes};

use crate::applying::{done_of, perform};
use crate::edit::{Edit, plan};
use crate::fragments::fragments_of;
use crate::hits::hits_of;
use crate::roots::{exclusive, smallest};
use mm_check::Verdict;
use mm_check::laws::sound_is_image;
use mm_edit::EditError;
use mm_fragment::laws::answers_tell;
use mm_host::Fault;
use mm_image::laws::{images_rise, images_tell_forests};
use mm_image::subtree;
use mm_keeper::Keeper;
use mm_label::Label;
use mm_steps::Steps;
use mm_tree::laws::{answers_are_smallest, edits_stay_formed, exclusive_answers};
use mm_tree::{Done, Fragments, Hits, Node, Refusal};
use mm_words::Query;
use std::alloc::Global;
use std::sync::ledger::Ledger;

/// Why a store doesn't answer.
#[derive(Drop)]
pub enum StoreError {
    /// The command is refused.
    Refused(Refusal),
    /// The keeper failed, or its map is no image.
    Fault(Fault),
}

/// A store of XML documents: a keeper, whose map is the image of their forest, and the limit of its weight.
pub struct Store<K: Keeper> {
    alloc: Global,
    keeper: K,
    limit: u64,
    ghost sound: { K.is_sound keeper } by { K.sound_prop keeper },
    ghost least: { 1024 ≤ limit },
    ghost most: { limit ≤ 2 ^ 40 },
}

impl<K: Keeper> Store<K> {
    /// The store over a keeper, with a limit of 1,024 to 2^40 bytes.
    pub fn over(alloc: Global, keeper: K, limit: u64) -> Store<K>
        requires sound { K.is_sound keeper }
        requires limit { (1024 ≤ limit) × (limit ≤ 2 ^ 40) }
        ensures keeper { result.keeper ≡ keeper }
        ensures limit { result.limit ≡ limit }
    {
        Store {
            alloc,
            keeper,
            limit,
        }
    }

    /// Plans the edit, carries it out and commits it. It is refused by the first cause against it, and then nothing
    /// is changed; after a fault of its plan neither. After a later fault the keeper is spent, and a crash leaves the
    /// forest before it or after it.
    pub fn apply<L: Ledger>(&mut self, edit: Edit, steps: &mut Steps<L>) -> Result<Done, StoreError>
        requires { IsValidEdit edit }

        // Whether it is refused.
        ensures accepted { (f : Trees Labelled) → HoldsImage K.has_maps K.seen self.old.keeper f → OnOk result (edit_refusal self.old.limit edit f ≡ None) }
        ensures refused { (f : Trees Labelled) → HoldsImage K.has_maps K.seen self.old.keeper f → IfErr result (IsRefusedWith (edit_refusal self.old.limit edit f)) }
        ensures damaged { K.has_maps self.old.keeper → IfErr result (OnFault (EditBlames edit (K.seen self.old.keeper).now)) }

        // Where nothing is changed.
        ensures unchanged { IfErr result (OnRefusal (SameGround K.over K.has_maps K.tells K.seen K.written K.changes K.moment K.left_since self.old.keeper self.new.keeper)) }
        ensures stays { (f : Trees Labelled) → HoldsImage K.has_maps K.seen self.old.keeper f → (edit_refusal self.old.limit edit f ≡ None → ⊥)
            → SameGround K.over K.has_maps K.tells K.seen K.written K.changes K.moment K.left_since self.old.keeper self.new.keeper }
        ensures broke_off { K.has_maps self.old.keeper → OnErr result (SameGround K.over K.has_maps K.tells K.seen K.written K.changes K.moment K.left_since self.old.keeper self.new.keeper ⊎ (K.is_spent self.new.keeper ≡ true)) }

        // What it did.
        ensures label { (f : Trees Labelled) → HoldsImage K.has_maps K.seen self.old.keeper f → IfOk result (λ d. d.label ≡ edited_label edit f) }
        ensures nodes { (f : Trees Labelled) → HoldsImage K.has_maps K.seen self.old.keeper f → IfOk result (λ d. d.nodes ≡ edited_nodes edit f) }
        ensures now { (f : Trees Labelled) → HoldsImage K.has_maps K.seen self.old.keeper f → OnOk result (HoldsImage K.has_maps K.seen self.new.keeper (edited edit f)) }
        ensures kept { (f : Trees Labelled) → HoldsImage K.has_maps K.seen self.old.keeper f → OnOk result ((K.seen self.new.keeper).kept ≡ image (edited edit f)) }
        ensures any_moment { (f : Trees Labelled) → HoldsImage K.has_maps K.seen self.old.keeper f → K.is_spent self.old.keeper ≡ false → (K.seen self.old.keeper).kept ≡ image f
            → LeavesOnly K.moment K.left_since self.old.keeper self.new.keeper (λ m. (m ≡ Some (image f)) ⊎ (m ≡ Some (image (edited edit f)))) }
        ensures journal { (f : Trees Labelled) → HoldsImage K.has_maps K.seen self.old.keeper f → K.tells
            → (K.written self.new.keeper).journal ≤ (K.written self.old.keeper).journal + 4200 * (8 * (K.changes self.old.keeper + differing (image f) (image (edited edit f))) + 2) }
        ensures none_left { K.tells → OnOk result (K.changes self.new.keeper ≡ 0) }

        // Whatever it answers.
        ensures performs { Performs K.over K.has_maps K.is_sound K.is_spent K.fault_count K.want_count self.old.keeper self.new.keeper (store_fault result) }
        ensures unspent { OnOk result (K.is_spent self.old.keeper ≡ false) }
        ensures limit { self.new.limit ≡ self.old.limit }
        ensures cost { (f : Trees Labelled) → HoldsImage K.has_maps K.seen self.old.keeper f → steps.new ≤ steps.old + 8 * (length (image f) + length (image (edited edit f)) + 1) }
        ensures early { (f : Trees Labelled) → HoldsImage K.has_maps K.seen self.old.keeper f → (early_refusal edit f ≡ None → ⊥) → steps.new ≤ steps.old + length (image f) + 2 }
    {
        edits_stay_formed();
        images_rise();
        match plan(self.alloc, edit, self.limit, &mut self.keeper, steps) {
            Ok(plan) => match done_of(self.alloc, &plan) {
                Ok(done) => match perform(&plan, &mut self.keeper, steps) {
                    Ok(()) => Ok(done),
                    Err(fault) => Err(StoreError::Fault(fault)),
                },
                Err(_) => Err(StoreError::Fault(Fault::Memory)),
            },
            Err(EditError::Refused(refusal)) => Err(StoreError::Refused(refusal)),
            Err(EditError::Fault(fault)) => Err(StoreError::Fault(fault)),
        }
    }

    /// The smallest lowest common ancestors of the query, in document order, with their names.
    pub fn slca<L: Ledger>(&mut self, query: &Query, steps: &mut Steps<L>) -> Result<Hits, Fault>
        ensures value { (f : Trees Labelled) → HoldsImage K.has_maps K.seen self.old.keeper f → IfOk result (λ hits. hits ≡ hits_of f (slca query.now (worded f))) }
        ensures undamaged { (f : Trees Labelled) → HoldsImage K.has_maps K.seen self.old.keeper f → IfErr result IsSound }
        ensures blame { K.has_maps self.old.keeper → IfErr result (BlamesOnly (IsDamageBelow [] (K.seen self.old.keeper).now)) }
        ensures ground { SameGround K.over K.has_maps K.tells K.seen K.written K.changes K.moment K.left_since self.old.keeper self.new.keeper }
        ensures cause { Caused (K.fault_count self.old.keeper) (K.fault_count self.new.keeper) (K.is_spent self.old.keeper) (K.is_spent self.new.keeper) result }
        ensures limit { self.new.limit ≡ self.old.limit }
        ensures cost { (f : Trees Labelled) → HoldsImage K.has_maps K.seen self.old.keeper f → steps.new ≤ steps.old + slca.cost_of (lists_of query.now (worded f)) + length (slca query.now (worded f)) }
    {
        answers_are_smallest();
        let labels = smallest(self.alloc, query, &mut self.keeper, steps)?;
        hits_of(self.alloc, labels.as_slice(), &mut self.keeper, steps)
    }

    /// The exclusive lowest common ancestors of the query, in document order, with their names.
    pub fn elca<L: Ledger>(&mut self, query: &Query, steps: &mut Steps<L>) -> Result<Hits, Fault>
        ensures value { (f : Trees Labelled) → HoldsImage K.has_maps K.seen self.old.keeper f → IfOk result (λ hits. hits ≡ hits_of f (elca query.now (worded f))) }
        ensures undamaged { (f : Trees Labelled) → HoldsImage K.has_maps K.seen self.old.keeper f → IfErr result IsSound }
        ensures blame { K.has_maps self.old.keeper → IfErr result (BlamesOnly (IsDamageBelow [] (K.seen self.old.keeper).now)) }
        ensures ground { SameGround K.over K.has_maps K.tells K.seen K.written K.changes K.moment K.left_since self.old.keeper self.new.keeper }
        ensures cause { Caused (K.fault_count self.old.keeper) (K.fault_count self.new.keeper) (K.is_spent self.old.keeper) (K.is_spent self.new.keeper) result }
        ensures limit { self.new.limit ≡ self.old.limit }
        ensures cost { (f : Trees Labelled) → HoldsImage K.has_maps K.seen self.old.keeper f → steps.new ≤ steps.old + elca.cost_of (lists_of query.now (worded f)) + length (elca query.now (worded f)) }
    {
        exclusive_answers();
        let labels = exclusive(self.alloc, query, &mut self.keeper, steps)?;
        hits_of(self.alloc, labels.as_slice(), &mut self.keeper, steps)
    }

    /// The fragments of the smallest lowest common ancestors of the query, in document order.
    pub fn maxmatch<L: Ledger>(
        &mut self,
        query: &Query,
        steps: &mut Steps<L>,
    ) -> Result<Fragments, Fault>
        ensures value { (f : Trees Labelled) → HoldsImage K.has_maps K.seen self.old.keeper f → IfOk result (λ fs. map fragment_tree fs ≡ fragments_of query.now f (slca query.now (worded f))) }
        ensures undamaged { (f : Trees Labelled) → HoldsImage K.has_maps K.seen self.old.keeper f → IfErr result IsSound }
        ensures blame { K.has_maps self.old.keeper → IfErr result (BlamesOnly (IsDamageBelow [] (K.seen self.old.keeper).now)) }
        ensures ground { SameGround K.over K.has_maps K.tells K.seen K.written K.changes K.moment K.left_since self.old.keeper self.new.keeper }
        ensures cause { Caused (K.fault_count self.old.keeper) (K.fault_count self.new.keeper) (K.is_spent self.old.keeper) (K.is_spent self.new.keeper) result }
        ensures limit { self.new.limit ≡ self.old.limit }
        ensures cost { (f : Trees Labelled) → HoldsImage K.has_maps K.seen self.old.keeper f → steps.new ≤ steps.old + slca.cost_of (lists_of query.now (worded f)) + fragments_cost query.now f (slca query.now (worded f)) }
    {
        answers_are_smallest();
        answers_tell();
        let labels = smallest(self.alloc, query, &mut self.keeper, steps)?;
        fragments_of(
            self.alloc,
            labels.as_slice(),
            query,
            &mut self.keeper,
            steps,
        )
    }

    /// The fragments of the exclusive lowest common ancestors of the query, in document order.
    pub fn maxmatch_elca<L: Ledger>(
        &mut self,
        query: &Query,
        steps: &mut Steps<L>,
    ) -> Result<Fragments, Fault>
        ensures value { (f : Trees Labelled) → HoldsImage K.has_maps K.seen self.old.keeper f → IfOk result (λ fs. map fragment_tree fs ≡ fragments_of query.now f (elca query.now (worded f))) }
        ensures undamaged { (f : Trees Labelled) → HoldsImage K.has_maps K.seen self.old.keeper f → IfErr result IsSound }
        ensures blame { K.has_maps self.old.keeper → IfErr result (BlamesOnly (IsDamageBelow [] (K.seen self.old.keeper).now)) }
        ensures ground { SameGround K.over K.has_maps K.tells K.seen K.written K.changes K.moment K.left_since self.old.keeper self.new.keeper }
        ensures cause { Caused (K.fault_count self.old.keeper) (K.fault_count self.new.keeper) (K.is_spent self.old.keeper) (K.is_spent self.new.keeper) result }
        ensures limit { self.new.limit ≡ self.old.limit }
        ensures cost { (f : Trees Labelled) → HoldsImage K.has_maps K.seen self.old.keeper f → steps.new ≤ steps.old + elca.cost_of (lists_of query.now (worded f)) + fragments_cost query.now f (elca query.now (worded f)) }
    {
        exclusive_answers();
        answers_tell();
        let labels = exclusive(self.alloc, query, &mut self.keeper, steps)?;
        fragments_of(
            self.alloc,
            labels.as_slice(),
            query,
            &mut self.keeper,
            steps,
        )
    }

    /// The subtree of the node with the label; it is refused where no node has it.
    pub fn show<L: Ledger>(
        &mut self,
        label: &Label,
        steps: &mut Steps<L>,
    ) -> Result<Node, StoreError>
        ensures shown { (f : Trees Labelled) → HoldsImage K.has_maps K.seen self.old.keeper f → IfOk result (λ node. found label.now f ≡ Some (node_of node)) }
        ensures damaged { K.has_maps self.old.keeper → IfErr result (OnFault (NamesKey label.now (at_or_below label.now (K.seen self.old.keeper).now))) }
        ensures absent { (f : Trees Labelled) → HoldsImage K.has_maps K.seen self.old.keeper f → IfErr result (IsAbsent (found label.now f)) }
        ensures ground { SameGround K.over K.has_maps K.tells K.seen K.written K.changes K.moment K.left_since self.old.keeper self.new.keeper }
        ensures accounts { Accounts K.is_sound K.is_spent K.fault_count K.want_count self.old.keeper self.new.keeper (store_fault result) }
        ensures limit { self.new.limit ≡ self.old.limit }
        ensures cost { K.has_maps self.old.keeper → steps.new ≤ steps.old + 1 + length (run_of label.now (K.seen self.old.keeper).now) }
    {
        match subtree(self.alloc, label, &mut self.keeper, steps) {
            Ok(Some(node)) => Ok(node),
            Ok(None) => Err(StoreError::Refused(Refusal::Absent)),
            Err(fault) => Err(StoreError::Fault(fault)),
        }
    }

    /// Whether the map is the image of a forest, with its number of nodes, and if not, a key that doesn't fit: the first
    /// one that chunks of nodes can't go on with, or else the least one at which the map differs from the image of their
    /// forest. It changes nothing.
    pub fn check<L: Ledger>(&mut self, steps: &mut Steps<L>) -> Result<Verdict, Fault>
        ensures verdict { K.has_maps self.old.keeper → IfOk result (Judges (K.seen self.old.keeper).now) }
        ensures sound { (f : Trees Labelled) → HoldsImage K.has_maps K.seen self.old.keeper f → IfOk result (λ v. v ≡ Sound (nodes f)) }
        ensures undamaged { K.has_maps self.old.keeper → IfErr result IsUndamaged }
        ensures ground { SameGround K.over K.has_maps K.tells K.seen K.written K.changes K.moment K.left_since self.old.keeper self.new.keeper }
        ensures accounts { Accounts K.is_sound K.is_spent K.fault_count K.want_count self.old.keeper self.new.keeper (fault_of result) }
        ensures limit { self.new.limit ≡ self.old.limit }
        ensures cost { K.has_maps self.old.keeper → steps.new ≤ steps.old + (length (K.seen self.old.keeper).now + 2) }
    {
        images_tell_forests();
        sound_is_image();
        mm_check::check(self.alloc, &mut self.keeper, steps)
    }

    /// Does the checkpoint work of at most so many pages. It takes no memory.
    pub fn tick(&mut self, pages: u32) -> Result<(), Fault>
        ensures same { K.has_maps self.old.keeper → K.seen self.new.keeper ≡ K.seen self.old.keeper }
        ensures any_moment { K.has_maps self.old.keeper → K.is_spent self.old.keeper ≡ false → LeavesOnly K.moment K.left_since self.old.keeper self.new.keeper (λ m. m ≡ Some (K.seen self.old.keeper).kept) }
        ensures pages { K.tells → (K.written self.new.keeper).pages ≤ (K.written self.old.keeper).pages + 4096 * pages }
        ensures journal { K.tells → (K.written self.new.keeper).journal ≤ (K.written self.old.keeper).journal + 1 }
        ensures changes { K.tells → K.changes self.new.keeper ≤ K.changes self.old.keeper }
        ensures causes { OnErr result (Rose (K.fault_count self.old.keeper) (K.fault_count self.new.keeper) ⊎ Rose (K.want_count self.old.keeper) (K.want_count self.new.keeper) ⊎ (K.is_spent self.old.keeper ≡ true)) }
        ensures memory { IsErrOf result fault.Memory → Rose (K.want_count self.old.keeper) (K.want_count self.new.keeper) }
        ensures keeps { Keeps K.over K.has_maps K.is_sound K.is_spent K.fault_count K.want_count true self.old.keeper self.new.keeper (fault_of result) }
        ensures limit { self.new.limit ≡ self.old.limit }
    {
        self.keeper.tick(pages)
    }

    /// Gives the keeper back.
    pub fn into_keeper(self) -> K
        ensures { result ≡ self.keeper }
    {
        let Store {
            alloc: _alloc,
            keeper,
            limit: _limit,
        } = self;
        keeper
    }

    /// The lengths of all keys and values together.
    pub fn weight(&self) -> u64
        ensures { K.has_maps self.now.keeper → result ≡ weight_of (K.seen self.now.keeper).now }
    {
        self.keeper.weight()
    }

    /// How often the disk below has failed; without a disk, how often the keeper has.
    pub fn faults(&self) -> u64
        ensures { result ≡ K.fault_count self.now.keeper }
    {
        self.keeper.faults()
    }
}
