// Edits.
ghost use Rattle.std.specs.Prelude.{◌≡◌, ◌≤◌, ◌+◌, IfOk, IfErr};
ghost use Rattle.mm_command.specs.Replies.{reply_text};
ghost use Rattle.mm_host.specs.Moments.{LeavesOnly};
ghost use Rattle.mm_image.specs.Ground.{Accounts, HoldsImage, SameGround};
ghost use Rattle.mm_image.specs.Subtrees.{IsUndamaged};
ghost use Rattle.mm_keeper.specs.Keeping.{fault_of};
ghost use Rattle.mm_store.specs.Editing.{IsValidEdit, edit_refusal, edited, edited_label, edited_nodes};
ghost use Rattle.mm_tree.specs.Edits.{delete_refusal, is_inside};
ghost use Rattle.mm_tree.specs.Numbering.{Labelled};
ghost use Rattle.mm_tree.specs.Trees.{Trees};
ghost use Rattle.mm_tree.specs.Validity.{is_element};
ghost use Rattle.mm_run.specs.Answers.{AnswersBytes, AnswersEdit, RefusesFirst, target_refusal};
ghost use Rattle.mm_run.specs.Inside.Carrying.{Carried, Stands, Takes};
ghost use Rattle.mm_run.specs.Inside.Edits.{look_cost, planned, with_tree};
ghost use Rattle.mm_run.specs.Steps.{AllowsBytes, edit_cost, node_cost, weighed};
ghost use Rattle.mm_run.specs.Stores.{Rests};
ghost use Rattle.mm_options.specs.declared.options.Options.{Options};

use crate::command::Body;
use mm_command::Reply;
use mm_host::Fault;
use mm_keeper::Keeper;
use mm_label::Label;
use mm_steps::Steps;
use mm_store::{Edit, Store, StoreError};
use mm_tree::{Kind, Place, Plain, Refusal};
use mm_xml::{XmlError, read};
use std::alloc::Global;
use std::sync::ledger::Ledger;

/// An edit that takes a tree, without it.
#[derive(Drop)]
pub enum TreeEdit {
    Load,
    Insert { place: Place, target: Label },
    Replace { target: Label },
}

/// The edit with its tree.
fn with_tree(edit: TreeEdit, tree: Plain) -> Edit
    ensures { result ≡ with_tree edit tree }
{
    match edit {
        TreeEdit::Load => Edit::Load { tree },
        TreeEdit::Insert { place, target } => Edit::Insert {
            place,
            target,
            tree,
        },
        TreeEdit::Replace { target } => Edit::Replace { target, tree },
    }
}

/// What an edit is answered.
pub fn apply<K: Keeper, L: Ledger>(
    store: &mut Store<K>,
    edit: Edit,
    steps: &mut Steps<L>,
) -> Result<Reply, Fault>
    requires { IsValidEdit edit }
    ensures answer { (f : Trees Labelled) → Rests K.has_maps K.seen store.old.keeper f
        → Carried K.has_maps K.seen K.is_spent K.moment K.left_since reply_text (AnswersEdit (edit_refusal store.old.limit edit f) (edited_label edit f) (edited_nodes edit f) (edited edit f) f) (λ n. n ≤ edit_cost f (weighed (edit_refusal store.old.limit edit f) (edited edit f) f)) f store.old.keeper store.new.keeper steps.old steps.new result }
    ensures stands { Stands K.over K.has_maps K.is_spent K.fault_count store.old.keeper store.new.keeper (fault_of result) }
    ensures kept_limit { store.new.limit ≡ store.old.limit }
{
    match store.apply(edit, steps) {
        Ok(done) => Ok(Reply::Done(done)),
        Err(StoreError::Refused(refusal)) => Ok(Reply::Refused(refusal)),
        Err(StoreError::Fault(fault)) => Err(fault),
    }
}

fn is_inside(place: Place) -> bool
    ensures { result ≡ is_inside place }
{
    match place {
        Place::First | Place::Last => true,
        Place::Before | Place::After => false,
    }
}

fn is_element(kind: &Kind) -> bool
    ensures { result ≡ is_element kind.now }
{
    match kind {
        Kind::Element { .. } => true,
        Kind::Words { .. } => false,
    }
}

/// Why no tree can be put there.
fn target_refusal<K: Keeper, L: Ledger>(
    store: &mut Store<K>,
    place: Place,
    target: &Label,
    steps: &mut Steps<L>,
) -> Result<Option<Refusal>, Fault>
    ensures value { (f : Trees Labelled) → HoldsImage K.has_maps K.seen store.old.keeper f → IfOk result (λ r. r ≡ target_refusal place target.now f) }
    ensures undamaged { (f : Trees Labelled) → HoldsImage K.has_maps K.seen store.old.keeper f → IfErr result IsUndamaged }
    ensures cost { (f : Trees Labelled) → HoldsImage K.has_maps K.seen store.old.keeper f → steps.new ≤ steps.old + node_cost target.now f }
    ensures ground { SameGround K.over K.has_maps K.tells K.seen K.written K.changes K.moment K.left_since store.old.keeper store.new.keeper }
    ensures accounts { Accounts K.is_sound K.is_spent K.fault_count K.want_count store.old.keeper store.new.keeper (fault_of result) }
    ensures kept_limit { store.new.limit ≡ store.old.limit }
{
    match store.show(target, steps) {
        Ok(node) => {
            if is_inside(place) && !is_element(&node.kind) {
                Ok(Some(Refusal::Leaf))
            } else {
                Ok(None)
            }
        }
        Err(StoreError::Refused(refusal)) => Ok(Some(refusal)),
        Err(StoreError::Fault(fault)) => Err(fault),
    }
}

/// Why nothing can be put in the place of the node with the label.
fn replace_target_refusal<K: Keeper, L: Ledger>(
    store: &mut Store<K>,
    target: &Label,
    steps: &mut Steps<L>,
) -> Result<Option<Refusal>, Fault>
    ensures value { (f : Trees Labelled) → HoldsImage K.has_maps K.seen store.old.keeper f → IfOk result (λ r. r ≡ delete_refusal target.now f) }
    ensures undamaged { (f : Trees Labelled) → HoldsImage K.has_maps K.seen store.old.keeper f → IfErr result IsUndamaged }
    ensures cost { (f : Trees Labelled) → HoldsImage K.has_maps K.seen store.old.keeper f → steps.new ≤ steps.old + node_cost target.now f }
    ensures ground { SameGround K.over K.has_maps K.tells K.seen K.written K.changes K.moment K.left_since store.old.keeper store.new.keeper }
    ensures accounts { Accounts K.is_sound K.is_spent K.fault_count K.want_count store.old.keeper store.new.keeper (fault_of result) }
    ensures kept_limit { store.new.limit ≡ store.old.limit }
{
    match store.show(target, steps) {
        Ok(_) => Ok(None),
        Err(StoreError::Refused(refusal)) => Ok(Some(refusal)),
        Err(StoreError::Fault(fault)) => Err(fault),
    }
}

/// Why the edit is refused whatever tree it has.
fn refusal_at<K: Keeper, L: Ledger>(
    store: &mut Store<K>,
    edit: &TreeEdit,
    steps: &mut Steps<L>,
) -> Result<Option<Refusal>, Fault>
    ensures value { (options : Options) (f : Trees Labelled) → HoldsImage K.has_maps K.seen store.old.keeper f → IfOk result (λ r. r ≡ (planned options edit.now f).target) }
    ensures undamaged { (f : Trees Labelled) → HoldsImage K.has_maps K.seen store.old.keeper f → IfErr result IsUndamaged }
    ensures cost { (f : Trees Labelled) → HoldsImage K.has_maps K.seen store.old.keeper f → steps.new ≤ steps.old + look_cost edit.now f }
    ensures ground { SameGround K.over K.has_maps K.tells K.seen K.written K.changes K.moment K.left_since store.old.keeper store.new.keeper }
    ensures accounts { Accounts K.is_sound K.is_spent K.fault_count K.want_count store.old.keeper store.new.keeper (fault_of result) }
    ensures kept_limit { store.new.limit ≡ store.old.limit }
{
    match edit {
        TreeEdit::Load => Ok(None),
        TreeEdit::Insert { place, target } => target_refusal(store, *place, target, steps),
        TreeEdit::Replace { target } => replace_target_refusal(store, target, steps),
    }
}

/// The reply where there is no tree to put there.
fn refuse_at<K: Keeper, L: Ledger>(
    store: &mut Store<K>,
    edit: &TreeEdit,
    otherwise: Refusal,
    steps: &mut Steps<L>,
) -> Result<Reply, Fault>
    ensures answer { (options : Options) (f : Trees Labelled) → Rests K.has_maps K.seen store.old.keeper f
        → Carried K.has_maps K.seen K.is_spent K.moment K.left_since reply_text (RefusesFirst (planned options edit.now f).target otherwise f) (λ n. n ≤ look_cost edit.now f) f store.old.keeper store.new.keeper steps.old steps.new result }
    ensures stands { Stands K.over K.has_maps K.is_spent K.fault_count store.old.keeper store.new.keeper (fault_of result) }
    ensures kept_limit { store.new.limit ≡ store.old.limit }
{
    match refusal_at(store, edit, steps)? {
        None => Ok(Reply::Refused(otherwise)),
        Some(refusal) => Ok(Reply::Refused(refusal)),
    }
}

/// What an edit with these bytes is answered. The bytes are let go before the tree is planned.
pub fn answer_bytes<K: Keeper, L: Ledger>(
    alloc: Global,
    store: &mut Store<K>,
    edit: TreeEdit,
    bytes: Body,
    steps: &mut Steps<L>,
) -> Result<Reply, Fault>
    ensures answer { (options : Options) → options.limit ≡ store.old.limit → (f : Trees Labelled) → Rests K.has_maps K.seen store.old.keeper f
        → Carried K.has_maps K.seen K.is_spent K.moment K.left_since reply_text (AnswersBytes (planned options edit f) bytes f) (AllowsBytes (look_cost edit f) (planned options edit f) bytes f) f store.old.keeper store.new.keeper steps.old steps.new result }
    ensures stands { Stands K.over K.has_maps K.is_spent K.fault_count store.old.keeper store.new.keeper (fault_of result) }
    ensures kept_limit { store.new.limit ≡ store.old.limit }
{
    match read(alloc, bytes.as_slice()) {
        Ok(tree) => {
            drop(bytes);
            apply(store, with_tree(edit, tree), steps)
        }
        Err(XmlError::NotXml) => refuse_at(store, &edit, Refusal::Xml, steps),
        Err(XmlError::TooDeep) => refuse_at(store, &edit, Refusal::Deep, steps),
        Err(XmlError::Memory) => Err(Fault::Memory),
    }
}
