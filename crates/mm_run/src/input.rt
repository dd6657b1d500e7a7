//! One turn of a run over an input.

ghost use Rattle.std.specs.Prelude.{◌≡◌, ◌≢◌, ◌<◌, ◌≤◌, ◌^◌, ◌↔◌, false, true, List, [], ℕ, Err, IfOk, Ok, OnErr, OnOk, Some};
ghost use Rattle.mm_host.specs.Causes.{Rose};
ghost use Rattle.mm_host.specs.Moments.{LeavesOnly};
ghost use Rattle.mm_tree.specs.Numbering.{Labelled};
ghost use Rattle.mm_tree.specs.Trees.{Trees};
ghost use Rattle.mm_run.specs.Statuses.{sink_faults_after, source_faults_after, status_of};
ghost use Rattle.mm_run.specs.Stores.{IsLeftBy, Rests};
ghost use Rattle.mm_run.specs.Turns.{State, Turns, commands_left, reach_of, rest_of};
ghost use Rattle.mm_run.specs.declared.status.Status.TheVariants as status;
ghost use Rattle.mm_run.specs.declared.status.Went.TheVariants as went;

use crate::buffer::{Buffer, INPUT_LIMIT};
use crate::serving::{Turned, next_turn};
use crate::status::{Status, Went};
use mm_host::{Sink, Source};
use mm_keeper::Keeper;
use mm_options::Options;
use mm_steps::Steps;
use mm_store::Store;
use std::alloc::{AllocError, Global};
use std::marker::Model;
use std::sync::ledger::Ledger;

/// A source, and the bytes that were taken from it and not yet cut into commands.
#[derive(Drop)]
pub struct Input<S: Source> {
    source: S,
    buffer: Buffer,
    // The end or the line `quit` was met.
    over: bool,
    // A turn ended with an `Err`.
    failed: bool,
}

impl<S: Source> Model for Input<S> {
    ghost use Rattle.mm_run.specs.Turns.{Reading};

    ghost Value = { Reading S };

    ghost view = { λ input. record { source = input.source; held = input.buffer.held; room = input.buffer.room; over = input.over; failed = input.failed } };
}

impl<S: Source + Drop> Input<S> {
    /// The input that a source holds, of which 2^40 bytes count.
    pub fn new(alloc: Global, source: S) -> Result<Input<S>, AllocError>
        ensures source { IfOk result (λ input. input.source ≡ source) }
        ensures held { IfOk result (λ input. input.held ≡ []) }
        ensures room { IfOk result (λ input. input.room ≡ 2 ^ 40) }
        ensures goes_on { IfOk result (λ input. input.over ≡ false) }
        ensures unfailed { IfOk result (λ input. input.failed ≡ false) }
    {
        let buffer = Buffer::new(alloc, INPUT_LIMIT)?;
        Ok(Input {
            source,
            buffer,
            over: false,
            failed: false,
        })
    }
}

/// Reads a command, answers it, writes the reply, and after an accepted edit does one slice of checkpoint work.
/// The last command may be without its line feed, and then the next turn is the first that answers `Ended`.
pub fn turn<S: Source, W: Sink, K: Keeper, L: Ledger>(
    alloc: Global,
    input: &mut Input<S>,
    sink: &mut W,
    store: &mut Store<K>,
    options: &Options,
    steps: &mut Steps<L>,
) -> Result<Went, Status>
    requires going { input.old.failed ≡ false }
    requires unspent { K.is_spent store.old.keeper ≡ false }
    requires limit { options.now.limit ≡ store.old.limit }

    // What was read, answered, written and spent, over a store that holds a forest.
    ensures turn { (f : Trees Labelled) → Rests K.has_maps K.seen store.old.keeper f → Turns K.has_maps K.seen K.moment K.left_since options.now input.old.over input.new.over
        (record { rest = rest_of S.left input.old; reach = reach_of input.old; written = W.written sink.old; forest = f; steps = steps.old })
        (λ g. record { rest = rest_of S.left input.new; reach = reach_of input.new; written = W.written sink.new; forest = g; steps = steps.new })
        store.new.keeper result }
    ensures any_moment { (f : Trees Labelled) → Rests K.has_maps K.seen store.old.keeper f → (bytes : List ℕ) → rest_of S.left input.old ≡ Some bytes
        → LeavesOnly K.moment K.left_since store.old.keeper store.new.keeper (IsLeftBy options.now f (commands_left input.old.over (reach_of input.old) bytes)) }

    // Each status has its cause.
    ensures source_faults { S.fault_count input.new.source ≡ source_faults_after (status_of result) (S.fault_count input.old.source) }
    ensures sink_faults { W.fault_count sink.new ≡ sink_faults_after (status_of result) (W.fault_count sink.old) }
    ensures disk_fault { result ≡ Err status.DiskFault → Rose (K.fault_count store.old.keeper) (K.fault_count store.new.keeper) }
    ensures disk_faults_later { K.fault_count store.old.keeper ≤ K.fault_count store.new.keeper }
    ensures no_usage { result ≢ Err status.Usage }
    ensures no_ok { result ≢ Err status.Ok }

    // How the input and the store go on.
    ensures failed { OnErr result (input.new.failed ≡ true) }
    ensures unfailed { OnOk result (input.new.failed ≡ false) }
    ensures smaller { result ≡ Ok went.Answered → reach_of input.new < reach_of input.old }
    ensures nothing_held { result ≡ Err status.SourceFault → input.new.held ≡ [] }
    ensures device { K.over store.new.keeper ≡ K.over store.old.keeper }
    ensures maps { K.has_maps store.old.keeper ↔ K.has_maps store.new.keeper }
    ensures unspent { OnOk result (K.is_spent store.new.keeper ≡ false) }
    ensures kept_limit { store.new.limit ≡ store.old.limit }
{
    if input.over {
        return Ok(Went::Ended);
    }
    match next_turn(
        alloc,
        &mut input.source,
        &mut input.buffer,
        sink,
        store,
        options,
        steps,
    ) {
        Ok(Turned::Answered) => Ok(Went::Answered),
        Ok(Turned::Last) => {
            input.over = true;
            Ok(Went::Answered)
        }
        Ok(Turned::Ended) => {
            input.over = true;
            Ok(Went::Ended)
        }
        Err(status) => {
            input.failed = true;
            Err(status)
        }
    }
}
