// kwstore: answers the commands on standard input.
#![tactic(auto)]

mod adapters;

ghost use Rattle.std.specs.Prelude.{◌≡◌, ◌≢◌, ◌<◌, ℕ, List, None, Some, map, string_bytes};
ghost use Rattle.mm_host.specs.declared.damage.Damage.{Damage};
ghost use Rattle.mm_options.specs.Options.{IsTaken, options_of};
ghost use Rattle.mm_run.specs.Statuses.{fault_line, source_faults_after, HasSinkFaults};
ghost use Rattle.mm_run.specs.Run.{Streams, Runs};
ghost use Rattle.mm_run.specs.Sample.{Samples, Spends};
ghost use Rattle.mm_run.specs.declared.status.Status.TheVariants as status;

use crate::adapters::{ReadSource, WriteSink};
use mm_host::{Disk, NoDisk, Sink, Source, write_all};
use mm_run::{Status, run};
use mm_steps::Steps;
use std::alloc::Global;
use std::marker::Brand;
use std::process::ExitCode;
use std::sync::ledger::{Blank, Ledger};
use std::{env, io};

/// `run`, with a counter of steps of its own.
fn run_uncounted<S: Source, W: Sink, D: Disk, L: Ledger>(
    alloc: Global,
    words: &[String],
    source: &mut S,
    sink: &mut W,
    disk: &mut D,
    blank: Blank,
) -> Status
    requires name { blank.name ≡ L.name }
    requires parts { blank.parts ≡ L.parts }
    requires some { 0 < blank.parts }
    ensures runs { (options_of (map string_bytes words.now)).sample ≡ None → (bytes : List ℕ) → S.left source.old ≡ Some bytes → (taken : ℕ) × Runs (options_of (map string_bytes words.now)) (fault_line result)
        (record { left = S.left source.old; written = W.written sink.old; sink_faults = W.fault_count sink.old; steps = 0 })
        (record { left = S.left source.new; written = W.written sink.new; sink_faults = W.fault_count sink.new; steps = taken })
        bytes result }
    ensures samples { (seed : ℕ) → (options_of (map string_bytes words.now)).sample ≡ Some seed → Samples (options_of (map string_bytes words.now)) seed (W.written sink.old) (W.written sink.new) (W.fault_count sink.old) (W.fault_count sink.new) result }
    ensures spends { (seed : ℕ) → (options_of (map string_bytes words.now)).sample ≡ Some seed → (taken : ℕ) × Spends (options_of (map string_bytes words.now)) seed 0 taken }
    ensures untouched { (seed : ℕ) → (options_of (map string_bytes words.now)).sample ≡ Some seed → source.new ≡ source.old }
    ensures usage { result ≡ status.Usage → IsTaken (map string_bytes words.now) → ⊥ }
    ensures taken { result ≢ status.Usage → result ≢ status.Memory → IsTaken (map string_bytes words.now) }
    ensures source_faults { S.fault_count source.new ≡ source_faults_after result (S.fault_count source.old) }
    ensures sink_faults { HasSinkFaults result (W.fault_count sink.old) (W.fault_count sink.new) }
    ensures no_disk_fault { result ≢ status.DiskFault }
    ensures no_damage { (damage : Damage) → result ≢ status.Damaged damage }
    ensures disk { disk.new ≡ disk.old }
{
    let mut steps = Steps::<L>::new(blank);
    run(alloc, words, source, sink, disk, &mut steps)
}

/// The words that the program was called with, its name first.
fn words(rt: &HostRuntime) -> io::Result<Vec<String>> {
    Ok(env::args(rt)?.collect(rt.alloc())?)
}

fn main(rt: HostRuntime) -> ExitCode {
    let mut source = ReadSource::new(rt.stdin());
    let mut sink = WriteSink::new(rt.stdout());
    let mut disk = NoDisk::new();
    let words = match words(&rt) {
        Ok(words) => words,
        Err(error) if error.kind() == io::ErrorKind::OutOfMemory => {
            let _ = write_all(&mut sink, b"fault 6 memory\n");
            return ExitCode::from(Status::Memory.number());
        }
        // Words that can't be read aren't taken.
        Err(_) => {
            let _ = write_all(&mut sink, b"fault 1 usage\n");
            return ExitCode::from(Status::Usage.number());
        }
    };
    let status = run_uncounted::<_, _, _, Brand>(
        rt.alloc(),
        &words,
        &mut source,
        &mut sink,
        &mut disk,
        Blank::new(1),
    );
    ExitCode::from(status.number())
}
