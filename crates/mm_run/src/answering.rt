// What a command is answered.
ghost use Rattle.std.specs.Prelude.{◌≡◌, ◌≤◌, IfOk, MatchOption};
ghost use Rattle.mm_command.specs.Replies.{reply_text, sound_text};
ghost use Rattle.mm_keeper.specs.Keeping.{fault_of};
ghost use Rattle.mm_label.specs.Label.{IsLabel};
ghost use Rattle.mm_label.specs.Text.{text_of, IsNoLabelText};
ghost use Rattle.mm_tree.specs.Edits.{found};
ghost use Rattle.mm_tree.specs.Numbering.{Labelled};
ghost use Rattle.mm_tree.specs.Trees.{Trees, nodes};
ghost use Rattle.mm_run.specs.Answers.{taken, AnswersLoad, AnswersInsert, AnswersReplace, AnswersDelete, AnswersFound, AnswersShow, AnswersLine, Answers, Shows};
ghost use Rattle.mm_run.specs.Inside.Carrying.{Carried, Stands, said, told};
ghost use Rattle.mm_run.specs.Steps.{AllowsLoad, AllowsInsert, AllowsReplace, AllowsDelete, AllowsShow, AllowsLine, Allows, check_cost, node_cost};
ghost use Rattle.mm_run.specs.Stores.{Rests};

use crate::command::{Body, Command, Payload};
use crate::editing::{TreeEdit, answer_bytes, apply};
use crate::searching::answer_search;
use mm_command::{Line, Reply};
use mm_host::Fault;
use mm_keeper::Keeper;
use mm_label::{Label, LabelError};
use mm_options::Options;
use mm_steps::Steps;
use mm_store::{Edit, Store, StoreError};
use mm_tree::{Place, Refusal, Text};
use std::alloc::{AllocError, Global};
use std::sync::ledger::Ledger;

/// The label of this text, or None where it is no label's.
fn read_label(alloc: Global, text: &Text) -> Result<Option<Label>, AllocError>
    ensures { IfOk result (λ found. MatchOption found (IsNoLabelText text.now) (λ x. IsLabel x × (text_of x ≡ text.now))) }
{
    match Label::parse(alloc, text.as_str()) {
        Ok(label) => Ok(Some(label)),
        Err(LabelError::NotALabel) => Ok(None),
        Err(_) => Err(AllocError),
    }
}

/// The bytes of an edit's payload, or why the edit is refused whatever they are.
fn taken(payload: Payload, options: &Options) -> Result<Body, Refusal>
    ensures { result ≡ taken options.now payload }
{
    match payload {
        Payload::Whole(bytes) => {
            if options.read_only {
                Err(Refusal::Readonly)
            } else {
                Ok(bytes)
            }
        }
        Payload::Long => Err(Refusal::Size),
        Payload::Cut | Payload::Nothing => Err(Refusal::Command),
    }
}

fn answer_load<K: Keeper, L: Ledger>(
    alloc: Global,
    store: &mut Store<K>,
    options: &Options,
    payload: Payload,
    steps: &mut Steps<L>,
) -> Result<Reply, Fault>
    requires limit { options.now.limit ≡ store.old.limit }
    ensures answer { (f : Trees Labelled) → Rests K.has_maps K.seen store.old.keeper f
        → Carried K.has_maps K.seen K.is_spent K.moment K.left_since reply_text (AnswersLoad options.now payload f) (AllowsLoad options.now payload f) f store.old.keeper store.new.keeper steps.old steps.new result }
    ensures stands { Stands K.over K.has_maps K.is_spent K.fault_count store.old.keeper store.new.keeper (fault_of result) }
    ensures kept_limit { store.new.limit ≡ store.old.limit }
{
    match taken(payload, options) {
        Err(refusal) => Ok(Reply::Refused(refusal)),
        Ok(bytes) => answer_bytes(alloc, store, TreeEdit::Load, bytes, steps),
    }
}

fn answer_insert<K: Keeper, L: Ledger>(
    alloc: Global,
    store: &mut Store<K>,
    options: &Options,
    place: Place,
    text: &Text,
    payload: Payload,
    steps: &mut Steps<L>,
) -> Result<Reply, Fault>
    requires limit { options.now.limit ≡ store.old.limit }
    ensures answer { (f : Trees Labelled) → Rests K.has_maps K.seen store.old.keeper f
        → Carried K.has_maps K.seen K.is_spent K.moment K.left_since reply_text (AnswersInsert options.now place text.now payload f) (AllowsInsert options.now place text.now payload f) f store.old.keeper store.new.keeper steps.old steps.new result }
    ensures stands { Stands K.over K.has_maps K.is_spent K.fault_count store.old.keeper store.new.keeper (fault_of result) }
    ensures kept_limit { store.new.limit ≡ store.old.limit }
{
    match taken(payload, options) {
        Err(refusal) => Ok(Reply::Refused(refusal)),
        Ok(bytes) => match read_label(alloc, text)? {
            None => Ok(Reply::Refused(Refusal::Label)),
            Some(target) => {
                answer_bytes(
                    alloc,
                    store,
                    TreeEdit::Insert { place, target },
                    bytes,
                    steps,
                )
            }
        },
    }
}

fn answer_replace<K: Keeper, L: Ledger>(
    alloc: Global,
    store: &mut Store<K>,
    options: &Options,
    text: &Text,
    payload: Payload,
    steps: &mut Steps<L>,
) -> Result<Reply, Fault>
    requires limit { options.now.limit ≡ store.old.limit }
    ensures answer { (f : Trees Labelled) → Rests K.has_maps K.seen store.old.keeper f
        → Carried K.has_maps K.seen K.is_spent K.moment K.left_since reply_text (AnswersReplace options.now text.now payload f) (AllowsReplace options.now text.now payload f) f store.old.keeper store.new.keeper steps.old steps.new result }
    ensures stands { Stands K.over K.has_maps K.is_spent K.fault_count store.old.keeper store.new.keeper (fault_of result) }
    ensures kept_limit { store.new.limit ≡ store.old.limit }
{
    match taken(payload, options) {
        Err(refusal) => Ok(Reply::Refused(refusal)),
        Ok(bytes) => match read_label(alloc, text)? {
            None => Ok(Reply::Refused(Refusal::Label)),
            Some(target) => answer_bytes(alloc, store, TreeEdit::Replace { target }, bytes, steps),
        },
    }
}

fn answer_delete<K: Keeper, L: Ledger>(
    alloc: Global,
    store: &mut Store<K>,
    options: &Options,
    text: &Text,
    steps: &mut Steps<L>,
) -> Result<Reply, Fault>
    requires limit { options.now.limit ≡ store.old.limit }
    ensures answer { (f : Trees Labelled) → Rests K.has_maps K.seen store.old.keeper f
        → Carried K.has_maps K.seen K.is_spent K.moment K.left_since reply_text (AnswersDelete options.now text.now f) (AllowsDelete options.now text.now f) f store.old.keeper store.new.keeper steps.old steps.new result }
    ensures stands { Stands K.over K.has_maps K.is_spent K.fault_count store.old.keeper store.new.keeper (fault_of result) }
    ensures kept_limit { store.new.limit ≡ store.old.limit }
{
    if options.read_only {
        return Ok(Reply::Refused(Refusal::Readonly));
    }
    match read_label(alloc, text)? {
        None => Ok(Reply::Refused(Refusal::Label)),
        Some(target) => apply(store, Edit::Delete { target }, steps),
    }
}

fn answer_found<K: Keeper, L: Ledger>(
    store: &mut Store<K>,
    label: &Label,
    steps: &mut Steps<L>,
) -> Result<Reply, Fault>
    ensures answer { (f : Trees Labelled) → Rests K.has_maps K.seen store.old.keeper f
        → Carried K.has_maps K.seen K.is_spent K.moment K.left_since reply_text (AnswersFound (found label.now f) f) (λ n. n ≤ node_cost label.now f) f store.old.keeper store.new.keeper steps.old steps.new result }
    ensures stands { Stands K.over K.has_maps K.is_spent K.fault_count store.old.keeper store.new.keeper (fault_of result) }
    ensures kept_limit { store.new.limit ≡ store.old.limit }
{
    match store.show(label, steps) {
        Ok(node) => Ok(Reply::Tree(node)),
        Err(StoreError::Refused(refusal)) => Ok(Reply::Refused(refusal)),
        Err(StoreError::Fault(fault)) => Err(fault),
    }
}

fn answer_show<K: Keeper, L: Ledger>(
    alloc: Global,
    store: &mut Store<K>,
    text: &Text,
    steps: &mut Steps<L>,
) -> Result<Reply, Fault>
    ensures answer { (f : Trees Labelled) → Rests K.has_maps K.seen store.old.keeper f
        → Carried K.has_maps K.seen K.is_spent K.moment K.left_since reply_text (AnswersShow text.now f) (AllowsShow text.now f) f store.old.keeper store.new.keeper steps.old steps.new result }
    ensures stands { Stands K.over K.has_maps K.is_spent K.fault_count store.old.keeper store.new.keeper (fault_of result) }
    ensures kept_limit { store.new.limit ≡ store.old.limit }
{
    match read_label(alloc, text)? {
        None => Ok(Reply::Refused(Refusal::Label)),
        Some(label) => answer_found(store, &label, steps),
    }
}

fn answer_check<K: Keeper, L: Ledger>(
    store: &mut Store<K>,
    steps: &mut Steps<L>,
) -> Result<Reply, Fault>
    ensures answer { (f : Trees Labelled) → Rests K.has_maps K.seen store.old.keeper f
        → Carried K.has_maps K.seen K.is_spent K.moment K.left_since reply_text (Shows f (sound_text (nodes f))) (λ n. n ≤ check_cost f) f store.old.keeper store.new.keeper steps.old steps.new result }
    ensures stands { Stands K.over K.has_maps K.is_spent K.fault_count store.old.keeper store.new.keeper (fault_of result) }
    ensures kept_limit { store.new.limit ≡ store.old.limit }
{
    match store.check(steps) {
        Ok(verdict) => Ok(Reply::Checked(verdict)),
        Err(fault) => Err(fault),
    }
}

/// The reply as one that is written.
fn told(reply: Result<Reply, Fault>) -> Result<Option<Reply>, Fault>
    ensures { result ≡ told reply }
{
    Ok(Some(reply?))
}

/// Carries out what a line asks for. A line without words and the one that ends the run have no reply.
fn answer_line<K: Keeper, L: Ledger>(
    alloc: Global,
    store: &mut Store<K>,
    options: &Options,
    line: &Line,
    payload: Payload,
    steps: &mut Steps<L>,
) -> Result<Option<Reply>, Fault>
    requires limit { options.now.limit ≡ store.old.limit }
    ensures answer { (f : Trees Labelled) → Rests K.has_maps K.seen store.old.keeper f
        → Carried K.has_maps K.seen K.is_spent K.moment K.left_since said (AnswersLine options.now line.now payload f) (AllowsLine options.now line.now payload f) f store.old.keeper store.new.keeper steps.old steps.new result }
    ensures stands { Stands K.over K.has_maps K.is_spent K.fault_count store.old.keeper store.new.keeper (fault_of result) }
    ensures kept_limit { store.new.limit ≡ store.old.limit }
{
    match line {
        Line::Blank | Line::Quit => Ok(None),
        Line::Load => told(answer_load(alloc, store, options, payload, steps)),
        Line::Insert { place, label } => told(answer_insert(
            alloc, store, options, *place, label, payload, steps,
        )),
        Line::Delete { label } => told(answer_delete(alloc, store, options, label, steps)),
        Line::Replace { label } => {
            told(answer_replace(alloc, store, options, label, payload, steps))
        }
        Line::Search { find, text } => told(answer_search(alloc, store, *find, text, steps)),
        Line::Show { label } => told(answer_show(alloc, store, label, steps)),
        Line::Check => told(answer_check(store, steps)),
    }
}

/// Carries a command out.
pub fn answer<K: Keeper, L: Ledger>(
    alloc: Global,
    store: &mut Store<K>,
    options: &Options,
    command: Command,
    steps: &mut Steps<L>,
) -> Result<Option<Reply>, Fault>
    requires limit { options.now.limit ≡ store.old.limit }
    ensures answer { (f : Trees Labelled) → Rests K.has_maps K.seen store.old.keeper f
        → Carried K.has_maps K.seen K.is_spent K.moment K.left_since said (Answers options.now f command) (Allows options.now f command) f store.old.keeper store.new.keeper steps.old steps.new result }
    ensures stands { Stands K.over K.has_maps K.is_spent K.fault_count store.old.keeper store.new.keeper (fault_of result) }
    ensures kept_limit { store.new.limit ≡ store.old.limit }
{
    let Command { form, payload } = command;
    match form {
        None => Ok(Some(Reply::Refused(Refusal::Command))),
        Some(line) => answer_line(alloc, store, options, &line, payload, steps),
    }
}
