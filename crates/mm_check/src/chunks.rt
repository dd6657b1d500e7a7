//! The chunk entries of a map, gone over in order.

ghost use Rattle.std.specs.Prelude.{◌≡◌, ◌≤◌, ◌<◌, ◌+◌, ◌∷◌, ◌^◌, [], IfErr, IfOk, IfSome, None, Some, length, option_map, slice_get};
ghost use Rattle.mm_keeper.specs.Entries.{Entry};
ghost use Rattle.mm_image.specs.Ground.{Accounts, SameGround};
ghost use Rattle.mm_check.specs.Inside.Chunks.{Passes, Reached, Reads, Runs, Spells, Weighs};
ghost use Rattle.mm_check.specs.Inside.Reader.{Stands};
ghost use Rattle.mm_check.specs.Inside.Stopping.{WantsAlone, fault_in, from};

use crate::reader::Reader;
use crate::stop::Stop;
use mm_keeper::Keeper;
use mm_steps::Steps;
use std::sync::ledger::Ledger;

/// The first byte of a chunk's key.
const CHUNK: u8 = 1;

/// Reads the entry, where its key begins with 01; false where it doesn't.
fn read(key: &[u8], value: &[u8], reader: &mut Reader) -> Result<bool, Stop>
    requires { reader.old.nodes + 1 < 2 ^ 64 }
    ensures reads { Reads (key.now, value.now) reader.old reader.new result }
    ensures nodes { reader.new.nodes ≤ reader.old.nodes + 1 }
    ensures wants { IfErr result WantsAlone }
{
    if key.first() != Some(&CHUNK) {
        return Ok(false);
    }
    reader.step(key, value)?;
    Ok(true)
}

/// Reads the entry at the spot, where its key begins with 01; false where it doesn't.
fn read_at<K: Keeper>(keeper: &mut K, spot: K::Spot, reader: &mut Reader) -> Result<bool, Stop>
    requires sound { K.is_sound keeper.old }
    requires stands { K.has_maps keeper.old → (K.seen keeper.old).place spot < length (K.seen keeper.old).now }
    requires room { reader.old.nodes + 1 < 2 ^ 64 }
    ensures reads { K.has_maps keeper.old → (e : Entry) → slice_get (K.seen keeper.old).now ((K.seen keeper.old).place spot) ≡ Some e → Reads e reader.old reader.new result }
    ensures nodes { reader.new.nodes ≤ reader.old.nodes + 1 }
    ensures ground { SameGround K.over K.has_maps K.tells K.seen K.written K.changes K.moment K.left_since keeper.old keeper.new }
    ensures accounts { Accounts K.is_sound K.is_spent K.fault_count K.want_count keeper.old keeper.new (fault_in result) }
{
    match keeper.entry(spot) {
        Ok(entry) => read(entry.key, entry.value, reader),
        Err(error) => Err(Stop::Fault(error.into_fault())),
    }
}

/// Reads the entry at the spot and goes on to the next one; None where it isn't a chunk.
fn pass<K: Keeper, L: Ledger>(
    keeper: &mut K,
    spot: K::Spot,
    reader: &mut Reader,
    steps: &mut Steps<L>,
) -> Result<Option<Option<K::Spot>>, Stop>
    requires sound { K.is_sound keeper.old }
    requires stands { K.has_maps keeper.old → (K.seen keeper.old).place spot < length (K.seen keeper.old).now }
    requires room { reader.old.nodes + 1 < 2 ^ 64 }
    ensures passes { K.has_maps keeper.old → Reached (K.seen keeper.old).now reader.old (Some ((K.seen keeper.old).place spot)) → Passes (K.seen keeper.old).now (K.seen keeper.old).place spot reader.new result }
    ensures stands { K.has_maps keeper.old → IfOk result (λ next. IfSome next (λ at. IfSome at (λ s. (K.seen keeper.old).place s < length (K.seen keeper.old).now))) }
    ensures weighs { K.has_maps keeper.old → IfOk result (λ next. IfSome next (λ at. Weighs (K.seen keeper.old).now ((K.seen keeper.old).place spot) (option_map (K.seen keeper.old).place at))) }
    ensures nodes { reader.new.nodes ≤ reader.old.nodes + 1 }
    ensures step { steps.new ≤ steps.old + 1 }
    ensures none { IfOk result (λ next. next ≡ None → steps.new ≡ steps.old) }
    ensures ground { SameGround K.over K.has_maps K.tells K.seen K.written K.changes K.moment K.left_since keeper.old keeper.new }
    ensures accounts { Accounts K.is_sound K.is_spent K.fault_count K.want_count keeper.old keeper.new (fault_in result) }
{
    if read_at(keeper, spot, reader)? {
        Ok(Some(keeper.after(spot, steps)?))
    } else {
        Ok(None)
    }
}

/// Reads the chunks from a place on, and gives the first entry behind them.
fn run<K: Keeper, L: Ledger>(
    keeper: &mut K,
    first: Option<K::Spot>,
    reader: &mut Reader,
    steps: &mut Steps<L>,
) -> Result<Option<K::Spot>, Stop>
    requires sound { K.is_sound keeper.old }
    requires stands { K.has_maps keeper.old → IfSome first (λ s. (K.seen keeper.old).place s < length (K.seen keeper.old).now) }
    requires none { reader.old.nodes ≡ 0 }
    ensures runs { K.has_maps keeper.old → Reached (K.seen keeper.old).now reader.old (option_map (K.seen keeper.old).place first) → Runs (K.seen keeper.old).now (K.seen keeper.old).place reader.new result }
    ensures stands { K.has_maps keeper.old → IfOk result (λ next. IfSome next (λ s. (K.seen keeper.old).place s < length (K.seen keeper.old).now)) }
    ensures cost { K.has_maps keeper.old → steps.new ≤ steps.old + length (from (K.seen keeper.old).now (option_map (K.seen keeper.old).place first)) }
    ensures left { K.has_maps keeper.old → IfOk result (λ next. steps.new + length (from (K.seen keeper.old).now (option_map (K.seen keeper.old).place next)) ≤ steps.old + length (from (K.seen keeper.old).now (option_map (K.seen keeper.old).place first))) }
    ensures ground { SameGround K.over K.has_maps K.tells K.seen K.written K.changes K.moment K.left_since keeper.old keeper.new }
    ensures accounts { Accounts K.is_sound K.is_spent K.fault_count K.want_count keeper.old keeper.new (fault_in result) }
{
    let mut at = first;
    // Each of these entries weighs a byte at least.
    let weight = keeper.weight();
    for _ in 0..weight {
        let Some(spot) = at else {
            return Ok(None);
        };
        let Some(next) = pass(keeper, spot, reader, steps)? else {
            return Ok(Some(spot));
        };
        at = next;
    }
    Ok(at)
}

/// Reads the chunk entries of a map, and gives the first entry behind them.
pub fn read_chunks<K: Keeper, L: Ledger>(
    keeper: &mut K,
    reader: &mut Reader,
    steps: &mut Steps<L>,
) -> Result<Option<K::Spot>, Stop>
    requires sound { K.is_sound keeper.old }
    requires begins { Stands reader.old (record { nodes = []; node = None }) }
    ensures spells { K.has_maps keeper.old → Spells (K.seen keeper.old).now (K.seen keeper.old).place reader.new result }
    ensures stands { K.has_maps keeper.old → IfOk result (λ next. IfSome next (λ s. (K.seen keeper.old).place s < length (K.seen keeper.old).now)) }
    ensures cost { K.has_maps keeper.old → steps.new ≤ steps.old + 1 + length (K.seen keeper.old).now }
    ensures left { K.has_maps keeper.old → IfOk result (λ next. steps.new + length (from (K.seen keeper.old).now (option_map (K.seen keeper.old).place next)) ≤ steps.old + 1 + length (K.seen keeper.old).now) }
    ensures ground { SameGround K.over K.has_maps K.tells K.seen K.written K.changes K.moment K.left_since keeper.old keeper.new }
    ensures accounts { Accounts K.is_sound K.is_spent K.fault_count K.want_count keeper.old keeper.new (fault_in result) }
{
    let first = keeper.up(&[CHUNK], steps)?;
    let at = run(keeper, first, reader, steps)?;
    reader.end()?;
    Ok(at)
}
