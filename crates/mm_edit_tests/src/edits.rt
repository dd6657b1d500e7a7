//! Edits over a keeper, by their plans, and their replies.

ghost use Rattle.std.specs.Prelude.{◌≤◌, ◌^◌, ◌↔◌, IfOk, IsTrue};
ghost use Rattle.mm_edit.specs.Plans.{HasRoomFor};
ghost use Rattle.mm_tree.specs.Trees.{tree_of};
ghost use Rattle.mm_tree.specs.Validity.{is_valid_tree};

use mm_edit::{EditError, Plan, carry_out, plan_delete, plan_insert, plan_load, plan_replace};
use mm_keeper::Keeper;
use mm_label::Label;
use mm_steps::Steps;
use mm_tree::{Done, Place, Plain, Refusal, TreeError};
use mm_xml::{XmlError, read};
use std::alloc::{AllocError, Global};
use std::sync::ledger::Ledger;

/// An edit: what is done, at which label, and with which tree.
#[derive(Clone, Copy)]
pub enum Edit<'a> {
    Load(&'a str),
    Insert(Place, &'a str, &'a str),
    Delete(&'a str),
    Replace(&'a str, &'a str),
}

/// A limit that no test comes near.
pub const WIDE: u64 = 1 << 40;

/// The tree of a text; refused where it is none.
pub fn tree(alloc: Global, text: &str) -> Result<Plain, TreeError>
    ensures { IfOk result (λ t. IsTrue (is_valid_tree (tree_of t))) }
{
    let bytes = text.as_bytes();
    if bytes.len() > 1_000_000 {
        return Err(TreeError::Refused(Refusal::Size));
    }
    match read(alloc, bytes) {
        Ok(tree) => Ok(tree),
        Err(XmlError::NotXml) => Err(TreeError::Refused(Refusal::Xml)),
        Err(XmlError::TooDeep) => Err(TreeError::Refused(Refusal::Deep)),
        Err(XmlError::Memory) => Err(TreeError::Memory),
    }
}

pub fn label(alloc: Global, text: &str) -> Result<Label, TreeError> {
    match Label::parse(alloc, text) {
        Ok(label) => Ok(label),
        Err(_) => Err(TreeError::Refused(Refusal::Label)),
    }
}

/// The reply to an edit that is done: its root's label, and how many nodes it has.
pub fn accepted(alloc: Global, done: &Done) -> Result<String, AllocError> {
    let label = done.label.text(alloc)?;
    format!(in alloc; "ok {label} {}", done.nodes)
}

/// The reply to an edit that isn't done.
pub fn refused(alloc: Global, error: &EditError) -> Result<String, AllocError> {
    match error {
        EditError::Refused(refusal) => format!(in alloc; "no {}", refusal.number()),
        EditError::Fault(_) => String::from_str(alloc, "fault"),
    }
}

/// Carries out a plan where there is one, and replies.
fn carried<K: Keeper, L: Ledger>(
    alloc: Global,
    planned: Result<Plan, EditError>,
    keeper: &mut K,
    steps: &mut Steps<L>,
) -> Result<String, AllocError>
    requires sound { K.is_sound keeper.old }
    requires room { K.has_maps keeper.old → IfOk planned (λ p. HasRoomFor (K.seen keeper.old).now p) }
    ensures sound { K.is_sound keeper.new }
    ensures maps { K.has_maps keeper.old ↔ K.has_maps keeper.new }
{
    match planned {
        Ok(plan) => match carry_out(&plan, keeper, steps) {
            Ok(()) => accepted(alloc, plan.done()),
            Err(fault) => refused(alloc, &EditError::Fault(fault)),
        },
        Err(error) => refused(alloc, &error),
    }
}

fn load<K: Keeper, L: Ledger>(
    alloc: Global,
    text: &str,
    limit: u64,
    keeper: &mut K,
    steps: &mut Steps<L>,
) -> Result<String, AllocError>
    requires sound { K.is_sound keeper.old }
    requires limit { limit ≤ 2 ^ 40 }
    ensures sound { K.is_sound keeper.new }
    ensures maps { K.has_maps keeper.old ↔ K.has_maps keeper.new }
{
    match tree(alloc, text) {
        Ok(tree) => {
            let planned = plan_load(alloc, keeper, tree, limit, steps);
            carried(alloc, planned, keeper, steps)
        }
        Err(error) => refused(alloc, &EditError::from(error)),
    }
}

fn insert<K: Keeper, L: Ledger>(
    alloc: Global,
    place: Place,
    target: &Label,
    text: &str,
    limit: u64,
    keeper: &mut K,
    steps: &mut Steps<L>,
) -> Result<String, AllocError>
    requires sound { K.is_sound keeper.old }
    requires limit { limit ≤ 2 ^ 40 }
    ensures sound { K.is_sound keeper.new }
    ensures maps { K.has_maps keeper.old ↔ K.has_maps keeper.new }
{
    match tree(alloc, text) {
        Ok(tree) => {
            let planned = plan_insert(alloc, keeper, place, target, tree, limit, steps);
            carried(alloc, planned, keeper, steps)
        }
        Err(error) => refused(alloc, &EditError::from(error)),
    }
}

fn delete<K: Keeper, L: Ledger>(
    alloc: Global,
    target: &Label,
    keeper: &mut K,
    steps: &mut Steps<L>,
) -> Result<String, AllocError>
    requires { K.is_sound keeper.old }
    ensures sound { K.is_sound keeper.new }
    ensures maps { K.has_maps keeper.old ↔ K.has_maps keeper.new }
{
    let planned = plan_delete(alloc, keeper, target, steps);
    carried(alloc, planned, keeper, steps)
}

fn replace<K: Keeper, L: Ledger>(
    alloc: Global,
    target: &Label,
    text: &str,
    limit: u64,
    keeper: &mut K,
    steps: &mut Steps<L>,
) -> Result<String, AllocError>
    requires sound { K.is_sound keeper.old }
    requires limit { limit ≤ 2 ^ 40 }
    ensures sound { K.is_sound keeper.new }
    ensures maps { K.has_maps keeper.old ↔ K.has_maps keeper.new }
{
    match tree(alloc, text) {
        Ok(tree) => {
            let planned = plan_replace(alloc, keeper, target, tree, limit, steps);
            carried(alloc, planned, keeper, steps)
        }
        Err(error) => refused(alloc, &EditError::from(error)),
    }
}

/// Does the edit at the target, and replies.
fn perform_at<K: Keeper, L: Ledger>(
    alloc: Global,
    edit: Edit<'_>,
    target: &Label,
    limit: u64,
    keeper: &mut K,
    steps: &mut Steps<L>,
) -> Result<String, AllocError>
    requires sound { K.is_sound keeper.old }
    requires limit { limit ≤ 2 ^ 40 }
    ensures sound { K.is_sound keeper.new }
    ensures maps { K.has_maps keeper.old ↔ K.has_maps keeper.new }
{
    match edit {
        Edit::Load(text) => load(alloc, text, limit, keeper, steps),
        Edit::Insert(place, _, text) => insert(alloc, place, target, text, limit, keeper, steps),
        Edit::Delete(_) => delete(alloc, target, keeper, steps),
        Edit::Replace(_, text) => replace(alloc, target, text, limit, keeper, steps),
    }
}

/// The text of the target; 1 where a load has none.
fn target_of<'a>(edit: Edit<'a>) -> &'a str {
    match edit {
        Edit::Load(_) => "1",
        Edit::Insert(_, target, _) => target,
        Edit::Delete(target) => target,
        Edit::Replace(target, _) => target,
    }
}

/// Does the edit, and replies.
pub fn perform<K: Keeper, L: Ledger>(
    alloc: Global,
    edit: Edit<'_>,
    limit: u64,
    keeper: &mut K,
    steps: &mut Steps<L>,
) -> Result<String, AllocError>
    requires sound { K.is_sound keeper.old }
    requires limit { limit ≤ 2 ^ 40 }
    ensures sound { K.is_sound keeper.new }
    ensures maps { K.has_maps keeper.old ↔ K.has_maps keeper.new }
{
    match label(alloc, target_of(edit)) {
        Ok(target) => perform_at(alloc, edit, &target, limit, keeper, steps),
        Err(error) => refused(alloc, &EditError::from(error)),
    }
}

/// Whether the edit gets this reply.
pub fn replies<K: Keeper, L: Ledger>(
    alloc: Global,
    edit: Edit<'_>,
    due: &str,
    keeper: &mut K,
    steps: &mut Steps<L>,
) -> Result<bool, AllocError>
    requires { K.is_sound keeper.old }
    ensures sound { K.is_sound keeper.new }
    ensures maps { K.has_maps keeper.old ↔ K.has_maps keeper.new }
{
    let reply = perform(alloc, edit, WIDE, keeper, steps)?;
    Ok(reply.as_str() == due)
}
