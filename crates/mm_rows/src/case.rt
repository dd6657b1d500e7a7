//! A case: what one run is given, and what it came to.

ghost use Rattle.std.specs.Prelude.{◌≡◌, ◌<◌, false};

use crate::pieces::{PieceSink, PieceSource};
use mm_host::{MemSink, MemSource, NoDisk};
use mm_keeper::VecKeeper;
use mm_run::{Input, Options, Status, Went, run, turn};
use mm_steps::Steps;
use mm_store::Store;
use std::alloc::{AllocError, Global};
use std::io;
use std::marker::Brand;
use std::sync::ledger::{Blank, Ledger};

/// How many bytes a run may write here.
const ROOM: usize = 1 << 20;

/// What one run is given.
#[derive(Drop)]
pub struct Case {
    pub words: Vec<String>,
    pub input: Vec<u8>,
    pub failing_reads: Vec<u64>,
    pub failing_writes: Vec<u64>,
    /// How many bytes a read or a write moves at most; at least one.
    pub most: usize,
    /// How many bytes the keys and values of the store may have together, 1,024 to 2^40. Where it is told, the
    /// commands are answered turn by turn over such a store.
    pub limit: Option<u64>,
}

/// What one run came to.
#[derive(Drop)]
pub struct Outcome {
    sink: MemSink,
    status: Status,
}

fn run_counted<L: Ledger>(
    alloc: Global,
    words: &[String],
    source: &mut PieceSource<MemSource>,
    sink: &mut PieceSink<MemSink>,
    blank: Blank,
) -> Status
    requires name { blank.name ≡ L.name }
    requires parts { blank.parts ≡ L.parts }
    requires some { 0 < blank.parts }
{
    let mut steps = Steps::<L>::new(blank);
    let mut disk = NoDisk::new();
    run(alloc, words, source, sink, &mut disk, &mut steps)
}

/// A run whose steps nobody asks for.
fn run_uncounted(
    alloc: Global,
    words: &[String],
    source: &mut PieceSource<MemSource>,
    sink: &mut PieceSink<MemSink>,
) -> Status {
    run_counted::<Brand>(alloc, words, source, sink, Blank::new(1))
}

/// Answers commands one by one, until no command is left or a turn fails.
fn turns<L: Ledger>(
    alloc: Global,
    input: &mut Input<PieceSource<MemSource>>,
    sink: &mut PieceSink<MemSink>,
    store: &mut Store<VecKeeper>,
    options: &Options,
    steps: &mut Steps<L>,
) -> Result<(), Status>
    requires going { input.old.failed ≡ false }
    requires unspent { store.old.keeper.spent ≡ false }
    requires limit { options.now.limit ≡ store.old.limit }
{
    'turns: loop {
        match turn(alloc, input, sink, store, options, steps)? {
            Went::Answered => {}
            Went::Ended => return Ok(()),
        }
    }
}

fn within_counted<L: Ledger>(
    alloc: Global,
    limit: u64,
    source: PieceSource<MemSource>,
    sink: &mut PieceSink<MemSink>,
    blank: Blank,
) -> Status
    requires name { blank.name ≡ L.name }
    requires parts { blank.parts ≡ L.parts }
    requires some { 0 < blank.parts }
{
    let mut steps = Steps::<L>::new(blank);
    let mut options = Options::new();
    options.limit = limit.clamp(1024, 1 << 40);
    let Ok(mut input) = Input::new(alloc, source) else {
        return Status::Memory;
    };
    let keeper = VecKeeper::new(Vec::new(alloc));
    let mut store = Store::over(alloc, keeper, options.limit);
    let ended = turns(alloc, &mut input, sink, &mut store, &options, &mut steps);
    let _ = store.into_keeper();
    match ended {
        Ok(()) => Status::Ok,
        Err(status) => status,
    }
}

/// The turns over a store in memory with this limit, whose steps nobody asks for. No line of a fault is written.
fn run_within(
    alloc: Global,
    limit: u64,
    source: PieceSource<MemSource>,
    sink: &mut PieceSink<MemSink>,
) -> Status {
    within_counted::<Brand>(alloc, limit, source, sink, Blank::new(1))
}

impl Case {
    /// A run without words or input, over devices that don't fail.
    pub fn new(alloc: Global) -> Case {
        Case {
            words: Vec::new(alloc),
            input: Vec::new(alloc),
            failing_reads: Vec::new(alloc),
            failing_writes: Vec::new(alloc),
            most: usize::MAX,
            limit: None,
        }
    }

    /// Runs the case. Where it names no words, they are the program's name alone.
    pub fn outcome(self, alloc: Global) -> Result<Outcome, AllocError> {
        let Case {
            mut words,
            input,
            failing_reads,
            failing_writes,
            most,
            limit,
        } = self;
        if words.is_empty() {
            words.push(String::from_str(alloc, "kwstore")?)?;
        }
        let mut source = PieceSource {
            source: MemSource::new(input, failing_reads),
            most,
        };
        let mut sink = PieceSink {
            sink: MemSink::new(alloc, ROOM, failing_writes)?,
            most,
        };
        let status = match limit {
            None => run_uncounted(alloc, &words, &mut source, &mut sink),
            Some(limit) => run_within(alloc, limit, source, &mut sink),
        };
        Ok(Outcome {
            sink: sink.sink,
            status,
        })
    }
}

impl Outcome {
    /// Writes each line that the run wrote behind a bar, and the number of its status.
    pub fn report<W: io::Write>(&self, alloc: Global, out: &mut W) -> anyhow::Result<()> {
        for line in self.sink.bytes().split_inclusive(|byte| *byte == b'\n') {
            match line.strip_suffix(b"\n") {
                Some(whole) => {
                    out.write_all(b"| ")?;
                    out.write_all(whole)?;
                }
                None => {
                    out.write_all(b"|1 ")?;
                    out.write_all(line)?;
                }
            }
            out.write_all(b"\n")?;
        }
        let number = self.status.number();
        out.write_all(format!(in alloc; "status {number}\n\n")?.as_bytes())?;
        Ok(())
    }
}
