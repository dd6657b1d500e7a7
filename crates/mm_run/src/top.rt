// The top call.
ghost use Rattle.std.specs.Prelude.{◌≡◌, ◌≢◌, ◌≤◌, ◌^◌, ℕ, List, None, Some, [], map, string_bytes};
ghost use Rattle.mm_host.specs.declared.damage.Damage.{Damage};
ghost use Rattle.mm_options.specs.Options.{IsTaken, options_of};
ghost use Rattle.mm_run.specs.Statuses.{fault_line, source_faults_after, sink_faults_after, HasSinkFaults};
ghost use Rattle.mm_run.specs.Run.{Streams, Runs};
ghost use Rattle.mm_run.specs.Sample.{Samples, Spends};
ghost use Rattle.mm_run.specs.Inside.Telling.{TellsSample};
ghost use Rattle.mm_run.specs.Inside.Turning.{EndsWith};
ghost use Rattle.mm_run.specs.declared.status.Status.TheVariants as status;

use crate::fresh::run_commands;
use crate::sample::write_sample;
use crate::status::Status;
use mm_host::{Disk, Sink, Source, write_all};
use mm_options::{Options, WordsError, read_options};
use mm_steps::Steps;
use std::alloc::Global;
use std::sync::ledger::Ledger;

/// Writes the line of a fault, and hands the status on. If the write fails, the status stays the first fault's.
fn end<W: Sink>(sink: &mut W, status: Status) -> Status
    ensures line { EndsWith (W.written sink.old) (W.written sink.new) (fault_line status) (W.fault_count sink.old) (W.fault_count sink.new) }
    ensures same { result ≡ status }
{
    let line = status.fault_line();
    let _ = write_all(sink, line.as_bytes());
    status
}

/// Answers the commands of a source, or runs the sample where the options name one.
fn run_with<S: Source, W: Sink, L: Ledger>(
    alloc: Global,
    options: &Options,
    source: &mut S,
    sink: &mut W,
    steps: &mut Steps<L>,
) -> Status
    requires least { 1024 ≤ options.now.limit }
    requires most { options.now.limit ≤ 2 ^ 40 }
    ensures runs { options.now.sample ≡ None → (bytes : List ℕ) → S.left source.old ≡ Some bytes → Runs options.now []
        (record { left = S.left source.old; written = W.written sink.old; sink_faults = W.fault_count sink.old; steps = steps.old })
        (record { left = S.left source.new; written = W.written sink.new; sink_faults = W.fault_count sink.new; steps = steps.new })
        bytes result }
    ensures tells { (seed : ℕ) → options.now.sample ≡ Some seed → TellsSample options.now seed (W.written sink.old) (W.written sink.new) result }
    ensures spends { (seed : ℕ) → options.now.sample ≡ Some seed → Spends options.now seed steps.old steps.new }
    ensures untouched { (seed : ℕ) → options.now.sample ≡ Some seed → source.new ≡ source.old }
    ensures usage { result ≢ status.Usage }
    ensures disk { result ≢ status.DiskFault }
    ensures damage { (damage : Damage) → result ≢ status.Damaged damage }
    ensures source_faults { S.fault_count source.new ≡ source_faults_after result (S.fault_count source.old) }
    ensures sink_faults { W.fault_count sink.new ≡ sink_faults_after result (W.fault_count sink.old) }
{
    match options.sample {
        None => run_commands(alloc, options, source, sink, steps).0,
        Some(seed) => write_sample(alloc, seed, options, sink, steps),
    }
}

/// Answers the commands of a source until its end, the line `quit` or the first fault, and writes the
/// replies and the fault's line. `words` are the words that the program was called with, its name first. Where they
/// name a sample, its commands are answered instead, and what the replies come to is written in place of the replies.
pub fn run<S: Source, W: Sink, D: Disk, L: Ledger>(
    alloc: Global,
    words: &[String],
    source: &mut S,
    sink: &mut W,
    disk: &mut D,
    steps: &mut Steps<L>,
) -> Status
    // What was read, answered, written and spent, where the source tells what it holds.
    ensures runs { (options_of (map string_bytes words.now)).sample ≡ None → (bytes : List ℕ) → S.left source.old ≡ Some bytes → Runs (options_of (map string_bytes words.now)) (fault_line result)
        (record { left = S.left source.old; written = W.written sink.old; sink_faults = W.fault_count sink.old; steps = steps.old })
        (record { left = S.left source.new; written = W.written sink.new; sink_faults = W.fault_count sink.new; steps = steps.new })
        bytes result }

    // What was written and spent with a sample.
    ensures samples { (seed : ℕ) → (options_of (map string_bytes words.now)).sample ≡ Some seed
        → Samples (options_of (map string_bytes words.now)) seed (W.written sink.old) (W.written sink.new) (W.fault_count sink.old) (W.fault_count sink.new) result }
    ensures spends { (seed : ℕ) → (options_of (map string_bytes words.now)).sample ≡ Some seed → Spends (options_of (map string_bytes words.now)) seed steps.old steps.new }
    ensures untouched { (seed : ℕ) → (options_of (map string_bytes words.now)).sample ≡ Some seed → source.new ≡ source.old }

    // Each status has its cause, and the run ends at the first fault.
    ensures usage { result ≡ status.Usage → IsTaken (map string_bytes words.now) → ⊥ }
    ensures taken { result ≢ status.Usage → result ≢ status.Memory → IsTaken (map string_bytes words.now) }
    ensures source_faults { S.fault_count source.new ≡ source_faults_after result (S.fault_count source.old) }
    ensures sink_faults { HasSinkFaults result (W.fault_count sink.old) (W.fault_count sink.new) }
    ensures no_disk_fault { result ≢ status.DiskFault }
    ensures no_damage { (damage : Damage) → result ≢ status.Damaged damage }

    // The disk isn't called.
    ensures disk { disk.new ≡ disk.old }
{
    match read_options(alloc, words) {
        Err(WordsError::Usage) => end(sink, Status::Usage),
        Err(WordsError::Memory) => end(sink, Status::Memory),
        Ok(options) => {
            let status = run_with(alloc, &options, source, sink, steps);
            end(sink, status)
        }
    }
}
