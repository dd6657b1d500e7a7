//! Whether a map is the image of a forest.

ghost use Rattle.std.specs.Prelude.{◌≡◌, ◌≤◌, ◌+◌, IfErr, IfOk, length};
ghost use Rattle.mm_keeper.specs.Keeping.{fault_of};
ghost use Rattle.mm_image.specs.Ground.{Accounts, SameGround};
ghost use Rattle.mm_image.specs.Subtrees.{IsUndamaged};
ghost use Rattle.mm_check.specs.Inside.Stopping.{Decides, fault_in};
ghost use Rattle.mm_check.specs.Verdicts.{Judges};

use crate::behind::{expect_counts, expect_none, expect_occurrences};
use crate::chunks::read_chunks;
use crate::front::expect_none_before;
use crate::reader::Reader;
use crate::stop::Stop;
use crate::verdict::{Named, Verdict};
use mm_host::Fault;
use mm_image::laws::{contents_read_back, key_order};
use mm_keeper::Keeper;
use mm_steps::Steps;
use std::alloc::Global;
use std::sync::ledger::Ledger;

/// How many nodes the forest has of which the map is the image.
fn sound_nodes<K: Keeper, L: Ledger>(
    alloc: Global,
    keeper: &mut K,
    steps: &mut Steps<L>,
) -> Result<u64, Stop>
    requires { K.is_sound keeper.old }
    ensures decides { K.has_maps keeper.old → Decides (K.seen keeper.old).now result }
    ensures cost { K.has_maps keeper.old → steps.new ≤ steps.old + (length (K.seen keeper.old).now + 2) }
    ensures ground { SameGround K.over K.has_maps K.tells K.seen K.written K.changes K.moment K.left_since keeper.old keeper.new }
    ensures accounts { Accounts K.is_sound K.is_spent K.fault_count K.want_count keeper.old keeper.new (fault_in result) }
{
    key_order();
    contents_read_back();
    let mut reader = Reader::new(alloc);
    let at = read_chunks(keeper, &mut reader, steps)?;
    expect_none_before(alloc, keeper, steps)?;
    let at = expect_occurrences(alloc, keeper, at, &reader.lists, steps)?;
    let at = expect_counts(alloc, keeper, at, &reader.lists, steps)?;
    expect_none(alloc, keeper, at)?;
    Ok(reader.nodes)
}

/// Whether the keeper's map is the image of a well-formed forest, and if not, a key that doesn't fit: the first one that
/// chunks of nodes can't go on with, or else the least one at which the map differs from the image of their forest. It
/// takes two steps more than the map has entries at most, and changes nothing.
pub fn check<K: Keeper, L: Ledger>(
    alloc: Global,
    keeper: &mut K,
    steps: &mut Steps<L>,
) -> Result<Verdict, Fault>
    requires { K.is_sound keeper.old }
    ensures verdict { K.has_maps keeper.old → IfOk result (Judges (K.seen keeper.old).now) }
    ensures undamaged { K.has_maps keeper.old → IfErr result IsUndamaged }
    ensures cost { K.has_maps keeper.old → steps.new ≤ steps.old + (length (K.seen keeper.old).now + 2) }
    ensures ground { SameGround K.over K.has_maps K.tells K.seen K.written K.changes K.moment K.left_since keeper.old keeper.new }
    ensures accounts { Accounts K.is_sound K.is_spent K.fault_count K.want_count keeper.old keeper.new (fault_of result) }
{
    match sound_nodes(alloc, keeper, steps) {
        Ok(nodes) => Ok(Verdict::Sound { nodes }),
        Err(Stop::Named(Named { key, stored, due })) => Ok(Verdict::Unsound { key, stored, due }),
        Err(Stop::Fault(fault)) => Err(fault),
    }
}
