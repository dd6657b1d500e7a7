// Turns and runs.
ghost use Rattle.std.specs.Prelude.{◌≡◌, ◌<◌, [], Err, Ok, Some, ℕ, List, IfErr, false};
ghost use Rattle.mm_command.specs.Replies.{reply_text};
ghost use Rattle.mm_host.specs.Moments.{LeavesOnly};
ghost use Rattle.mm_image.specs.Image.{image};
ghost use Rattle.mm_tree.specs.Numbering.{Labelled};
ghost use Rattle.mm_tree.specs.Trees.{Trees};
ghost use Rattle.mm_run.specs.Answers.{Answers};
ghost use Rattle.mm_run.specs.Commands.{all_commands};
ghost use Rattle.mm_run.specs.Inside.Carrying.{IsLeft, Stands, Takes, said};
ghost use Rattle.mm_run.specs.Inside.Input.{rest, reach};
ghost use Rattle.mm_run.specs.Inside.Turning.{Finishes, GivesAnswer, GivesTurn, IsAnswerFault, IsBroken, IsStoreFault, IsTurnFault, Served, Tells, fault_in};
ghost use Rattle.mm_run.specs.Statuses.{source_faults_after, sink_faults_after, status_of};
ghost use Rattle.mm_run.specs.Steps.{Allows};
ghost use Rattle.mm_run.specs.Stores.{IsLeftBy, Rests};
ghost use Rattle.mm_run.specs.Turns.{State};
ghost use Rattle.mm_run.specs.declared.serving.Turned.TheVariants as turned;
ghost use Rattle.mm_run.specs.declared.status.Status.TheVariants as status;

use crate::answering::answer;
use crate::buffer::Buffer;
use crate::command::Command;
use crate::forms::quits;
use crate::line::ReadError;
use crate::reading::{Next, next_command};
use crate::status::{Status, status_at};
use mm_command::{Reply, write_reply};
use mm_host::{Sink, Source, write_all};
use mm_keeper::Keeper;
use mm_options::Options;
use mm_steps::Steps;
use mm_store::Store;
use std::alloc::Global;
use std::sync::ledger::Ledger;

/// What a turn did with the rest of the input.
#[derive(Clone, Copy, Debug)]
pub enum Turned {
    /// A command was answered.
    Answered,
    /// The last command was answered, which the end of the input ends.
    Last,
    /// No command is left, or the last one was `quit`.
    Ended,
}

/// Writes a reply whole.
fn tell<W: Sink>(alloc: Global, sink: &mut W, reply: &Reply) -> Result<(), Status>
    ensures told { Tells (W.written sink.old) (W.written sink.new) (reply_text reply.now) result }
    ensures sink_faults { W.fault_count sink.new ≡ sink_faults_after (status_of result) (W.fault_count sink.old) }
{
    match write_reply(alloc, reply) {
        Err(_) => Err(Status::Memory),
        Ok(bytes) => match write_all(sink, bytes.as_slice()) {
            Err(_) => Err(Status::SinkFault),
            Ok(()) => Ok(()),
        },
    }
}

/// Does the checkpoint work that follows an accepted edit.
fn slice_after<K: Keeper>(store: &mut Store<K>, reply: &Reply, slice: u32) -> Result<(), Status>
    requires unspent { K.is_spent store.old.keeper ≡ false }
    ensures same { K.has_maps store.old.keeper → K.seen store.new.keeper ≡ K.seen store.old.keeper }
    ensures any_moment { (f : Trees Labelled) → Rests K.has_maps K.seen store.old.keeper f → LeavesOnly K.moment K.left_since store.old.keeper store.new.keeper (λ m. m ≡ Some (image f)) }
    ensures broke { K.has_maps store.old.keeper → IfErr result IsBroken }
    ensures stands { Stands K.over K.has_maps K.is_spent K.fault_count store.old.keeper store.new.keeper (fault_in (status_of result)) }
    ensures kept_limit { store.new.limit ≡ store.old.limit }
    ensures sort { IfErr result IsStoreFault }
{
    match reply {
        Reply::Done(_) => match store.tick(slice) {
            Ok(()) => Ok(()),
            Err(fault) => Err(status_at(fault)),
        },
        Reply::Hits(_)
        | Reply::Fragments(_)
        | Reply::Tree(_)
        | Reply::Checked(_)
        | Reply::Refused(_) => Ok(()),
    }
}

/// Writes the reply of a command whole, and does the work that follows it.
fn finish<W: Sink, K: Keeper>(
    alloc: Global,
    reply: Option<Reply>,
    sink: &mut W,
    store: &mut Store<K>,
    slice: u32,
) -> Result<(), Status>
    requires unspent { K.is_spent store.old.keeper ≡ false }
    ensures told { K.has_maps store.old.keeper → Finishes (W.written sink.old) (W.written sink.new) (said reply) result }
    ensures same { K.has_maps store.old.keeper → K.seen store.new.keeper ≡ K.seen store.old.keeper }
    ensures any_moment { (f : Trees Labelled) → Rests K.has_maps K.seen store.old.keeper f → LeavesOnly K.moment K.left_since store.old.keeper store.new.keeper (λ m. m ≡ Some (image f)) }
    ensures stands { Stands K.over K.has_maps K.is_spent K.fault_count store.old.keeper store.new.keeper (fault_in (status_of result)) }
    ensures kept_limit { store.new.limit ≡ store.old.limit }
    ensures sink_faults { W.fault_count sink.new ≡ sink_faults_after (status_of result) (W.fault_count sink.old) }
    ensures sort { IfErr result IsAnswerFault }
{
    match reply {
        None => Ok(()),
        Some(reply) => match tell(alloc, sink, &reply) {
            Err(status) => Err(status),
            Ok(()) => slice_after(store, &reply, slice),
        },
    }
}

/// Carries a command out, and writes its reply whole.
fn reply<W: Sink, K: Keeper, L: Ledger>(
    alloc: Global,
    command: Command,
    sink: &mut W,
    store: &mut Store<K>,
    options: &Options,
    steps: &mut Steps<L>,
) -> Result<(), Status>
    requires unspent { K.is_spent store.old.keeper ≡ false }
    requires limit { options.now.limit ≡ store.old.limit }
    ensures answer { (f : Trees Labelled) → Rests K.has_maps K.seen store.old.keeper f → GivesAnswer K.has_maps K.seen K.moment K.left_since options.now command (W.written sink.old) (W.written sink.new) f store.new.keeper result }
    ensures any_moment { (f : Trees Labelled) → Rests K.has_maps K.seen store.old.keeper f → LeavesOnly K.moment K.left_since store.old.keeper store.new.keeper (IsLeft (Answers options.now f command) f) }
    ensures steps { (f : Trees Labelled) → Rests K.has_maps K.seen store.old.keeper f → Takes (Allows options.now f command) steps.old steps.new }
    ensures stands { Stands K.over K.has_maps K.is_spent K.fault_count store.old.keeper store.new.keeper (fault_in (status_of result)) }
    ensures kept_limit { store.new.limit ≡ store.old.limit }
    ensures sink_faults { W.fault_count sink.new ≡ sink_faults_after (status_of result) (W.fault_count sink.old) }
    ensures sort { IfErr result IsAnswerFault }
{
    match answer(alloc, store, options, command, steps) {
        Err(fault) => Err(status_at(fault)),
        Ok(reply) => finish(alloc, reply, sink, store, options.slice),
    }
}

/// Reads a command and answers it.
pub fn next_turn<S: Source, W: Sink, K: Keeper, L: Ledger>(
    alloc: Global,
    source: &mut S,
    buffer: &mut Buffer,
    sink: &mut W,
    store: &mut Store<K>,
    options: &Options,
    steps: &mut Steps<L>,
) -> Result<Turned, Status>
    requires unspent { K.is_spent store.old.keeper ≡ false }
    requires limit { options.now.limit ≡ store.old.limit }
    ensures turn { (f : Trees Labelled) → Rests K.has_maps K.seen store.old.keeper f → GivesTurn K.has_maps K.seen K.moment K.left_since options.now
        (record { rest = rest (S.left source.old) buffer.old; reach = reach buffer.old; written = W.written sink.old; forest = f; steps = steps.old })
        (λ g. record { rest = rest (S.left source.new) buffer.new; reach = reach buffer.new; written = W.written sink.new; forest = g; steps = steps.new })
        store.new.keeper result }
    ensures any_moment { (f : Trees Labelled) → Rests K.has_maps K.seen store.old.keeper f → (bytes : List ℕ) → rest (S.left source.old) buffer.old ≡ Some bytes
        → LeavesOnly K.moment K.left_since store.old.keeper store.new.keeper (IsLeftBy options.now f (all_commands (reach buffer.old) bytes)) }
    ensures none { result ≡ Err status.SourceFault → buffer.new.held ≡ [] }
    ensures smaller { result ≡ Ok turned.Answered → reach buffer.new < reach buffer.old }
    ensures last_smaller { result ≡ Ok turned.Last → reach buffer.new < reach buffer.old }
    ensures sort { IfErr result IsTurnFault }
    ensures source_faults { S.fault_count source.new ≡ source_faults_after (status_of result) (S.fault_count source.old) }
    ensures sink_faults { W.fault_count sink.new ≡ sink_faults_after (status_of result) (W.fault_count sink.old) }
    ensures stands { Stands K.over K.has_maps K.is_spent K.fault_count store.old.keeper store.new.keeper (fault_in (status_of result)) }
    ensures kept_limit { store.new.limit ≡ store.old.limit }
{
    match next_command(alloc, source, buffer) {
        Err(ReadError::Source) => Err(Status::SourceFault),
        Err(ReadError::Memory) => Err(Status::Memory),
        Ok(Next::Full) => Err(Status::TooMuchInput),
        Ok(Next::End) => Ok(Turned::Ended),
        Ok(Next::Quit) => Ok(Turned::Ended),
        Ok(Next::Last(command)) => {
            if quits(&command.form) {
                return Ok(Turned::Ended);
            }
            match reply(alloc, command, sink, store, options, steps) {
                Ok(()) => Ok(Turned::Last),
                Err(status) => Err(status),
            }
        }
        Ok(Next::Command(command)) => match reply(alloc, command, sink, store, options, steps) {
            Ok(()) => Ok(Turned::Answered),
            Err(status) => Err(status),
        },
    }
}

/// Answers commands until the input ends or something fails.
pub fn serve<S: Source, W: Sink, K: Keeper, L: Ledger>(
    alloc: Global,
    source: &mut S,
    buffer: &mut Buffer,
    sink: &mut W,
    store: &mut Store<K>,
    options: &Options,
    steps: &mut Steps<L>,
) -> Status
    requires unspent { K.is_spent store.old.keeper ≡ false }
    requires limit { options.now.limit ≡ store.old.limit }
    ensures served { (f : Trees Labelled) → Rests K.has_maps K.seen store.old.keeper f → (g : Trees Labelled) × (result ≡ status.Ok → Rests K.has_maps K.seen store.new.keeper g) × Served options.now
        (record { rest = rest (S.left source.old) buffer.old; reach = reach buffer.old; written = W.written sink.old; forest = f; steps = steps.old })
        (record { rest = rest (S.left source.new) buffer.new; reach = reach buffer.new; written = W.written sink.new; forest = g; steps = steps.new })
        result }
    ensures none { result ≡ status.SourceFault → buffer.new.held ≡ [] }
    ensures source_faults { S.fault_count source.new ≡ source_faults_after result (S.fault_count source.old) }
    ensures sink_faults { W.fault_count sink.new ≡ sink_faults_after result (W.fault_count sink.old) }
    ensures sound { K.is_sound store.new.keeper }
    ensures stands { Stands K.over K.has_maps K.is_spent K.fault_count store.old.keeper store.new.keeper (fault_in result) }
    ensures kept_limit { store.new.limit ≡ store.old.limit }
{
    'turns: loop {
        match next_turn(alloc, source, buffer, sink, store, options, steps) {
            Ok(Turned::Answered) => {}
            Ok(Turned::Last) => return Status::Ok,
            Ok(Turned::Ended) => return Status::Ok,
            Err(status) => return status,
        }
    }
}
