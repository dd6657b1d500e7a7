// Commands from the empty forest.
ghost use Rattle.std.specs.Prelude.{◌≡◌, ◌≢◌, ◌≤◌, ◌^◌, ℕ, List, Some, []};
ghost use Rattle.mm_host.specs.declared.damage.Damage.{Damage};
ghost use Rattle.mm_image.specs.Image.{image};
ghost use Rattle.mm_keeper.specs.Entries.{weight_of};
ghost use Rattle.mm_run.specs.Statuses.{source_faults_after, sink_faults_after};
ghost use Rattle.mm_run.specs.Run.{Streams, Runs};
ghost use Rattle.mm_run.specs.declared.status.Status.TheVariants as status;

use crate::buffer::{Buffer, INPUT_LIMIT};
use crate::serving::serve;
use crate::status::Status;
use mm_host::{Sink, Source};
use mm_keeper::VecKeeper;
use mm_options::Options;
use mm_steps::Steps;
use mm_store::Store;
use std::alloc::Global;
use std::sync::ledger::Ledger;

/// Answers the commands of a source, from the empty forest; and how many bytes the keys and values of the store have
/// in the end.
pub fn run_commands<S: Source, W: Sink, L: Ledger>(
    alloc: Global,
    options: &Options,
    source: &mut S,
    sink: &mut W,
    steps: &mut Steps<L>,
) -> (Status, u64)
    requires least { 1024 ≤ options.now.limit }
    requires most { options.now.limit ≤ 2 ^ 40 }
    ensures runs { (bytes : List ℕ) → S.left source.old ≡ Some bytes → (r : Runs options.now []
        (record { left = S.left source.old; written = W.written sink.old; sink_faults = W.fault_count sink.old; steps = steps.old })
        (record { left = S.left source.new; written = W.written sink.new; sink_faults = W.fault_count sink.new; steps = steps.new })
        bytes result.0) × (result.0 ≡ status.Ok → result.1 ≡ weight_of (image r.after)) }
    ensures usage { result.0 ≢ status.Usage }
    ensures disk { result.0 ≢ status.DiskFault }
    ensures damage { (damage : Damage) → result.0 ≢ status.Damaged damage }
    ensures source_faults { S.fault_count source.new ≡ source_faults_after result.0 (S.fault_count source.old) }
    ensures sink_faults { W.fault_count sink.new ≡ sink_faults_after result.0 (W.fault_count sink.old) }
{
    match Buffer::new(alloc, INPUT_LIMIT) {
        Err(_) => (Status::Memory, 0),
        Ok(mut buffer) => {
            let keeper = VecKeeper::new(Vec::new(alloc));
            let mut store = Store::over(alloc, keeper, options.limit);
            let status = serve(alloc, source, &mut buffer, sink, &mut store, options, steps);
            let weight = store.weight();
            let _ = store.into_keeper();
            (status, weight)
        }
    }
}
