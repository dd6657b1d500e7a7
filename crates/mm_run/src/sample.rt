// The sample: the commands of a script over a store of their own, and what their replies come to.
ghost use Rattle.std.specs.Prelude.{◌≡◌, ◌≤◌, ◌^◌, IfOk};
ghost use Rattle.mm_run.specs.Inside.Telling.{TellsSample};
ghost use Rattle.mm_run.specs.Sample.{Spends, Summarizes};
ghost use Rattle.mm_run.specs.Statuses.{sink_faults_after};

use crate::fresh::run_commands;
use crate::status::Status;
use mm_host::{MemSink, MemSource, Sink, write_all};
use mm_options::Options;
use mm_sample::{Summary, script, summarize, write_summary};
use mm_steps::Steps;
use std::alloc::{AllocError, Global};
use std::sync::ledger::Ledger;

/// How many bytes the replies to a script may have.
const ROOM: usize = 1 << 24;

/// What the replies to a script come to, from the empty forest.
fn sample<L: Ledger>(
    alloc: Global,
    seed: u64,
    options: &Options,
    steps: &mut Steps<L>,
) -> Result<Summary, AllocError>
    requires least { 1024 ≤ options.now.limit }
    requires most { options.now.limit ≤ 2 ^ 40 }
    ensures summary { IfOk result (Summarizes options.now seed) }
    ensures spends { Spends options.now seed steps.old steps.new }
{
    let script = script(alloc, seed)?;
    let mut sink = MemSink::new(alloc, ROOM, Vec::new(alloc))?;
    let mut source = MemSource::new(script, Vec::new(alloc));
    let (status, weight) = run_commands(alloc, options, &mut source, &mut sink, steps);
    if status.number() != 0 {
        return Err(AllocError);
    }
    match str::from_utf8(sink.bytes()) {
        Ok(replies) => Ok(summarize(replies, weight)),
        Err(_) => Err(AllocError),
    }
}

/// Writes what the replies to a script come to.
pub fn write_sample<W: Sink, L: Ledger>(
    alloc: Global,
    seed: u64,
    options: &Options,
    sink: &mut W,
    steps: &mut Steps<L>,
) -> Status
    requires least { 1024 ≤ options.now.limit }
    requires most { options.now.limit ≤ 2 ^ 40 }
    ensures tells { TellsSample options.now seed (W.written sink.old) (W.written sink.new) result }
    ensures sink_faults { W.fault_count sink.new ≡ sink_faults_after result (W.fault_count sink.old) }
    ensures spends { Spends options.now seed steps.old steps.new }
{
    match sample(alloc, seed, options, steps) {
        Err(_) => Status::Memory,
        Ok(summary) => match write_summary(alloc, seed, &summary) {
            Err(_) => Status::Memory,
            Ok(text) => match write_all(sink, text.as_slice()) {
                Err(_) => Status::SinkFault,
                Ok(()) => Status::Ok,
            },
        },
    }
}
