//! The name of a node, read through a keeper.

ghost use Rattle.std.specs.Prelude.{◌≡◌, ◌+◌, ◌≤◌, ◌<◌, Some, IfOk, IfErr, length, slice_get};
ghost use Rattle.mm_image.specs.Ground.{Accounts, HoldsImage, SameGround};
ghost use Rattle.mm_image.specs.Looking.{entry_at};
ghost use Rattle.mm_image.specs.Naming.{BlamesName, name_of_entry, stored_name};
ghost use Rattle.mm_image.specs.Subtrees.{IsUndamaged};
ghost use Rattle.mm_keeper.specs.Entries.{index_of};
ghost use Rattle.mm_keeper.specs.Keeping.{fault_of};
ghost use Rattle.mm_tree.specs.Edits.{found};
ghost use Rattle.mm_tree.specs.Hits.{name_of};
ghost use Rattle.mm_tree.specs.Numbering.{Labelled};
ghost use Rattle.mm_tree.specs.Trees.{Tree, Trees};

use crate::key::chunk_key;
use crate::laws::values_tell;
use crate::reading::name_of;
use mm_host::{Damage, Fault};
use mm_keeper::Keeper;
use mm_label::Label;
use mm_steps::Steps;
use mm_tree::Text;
use std::alloc::Global;
use std::sync::ledger::Ledger;

/// The name in a first piece; None where there is none.
fn name_at<K: Keeper>(alloc: Global, keeper: &mut K, spot: K::Spot) -> Result<Option<Text>, Fault>
    requires sound { K.is_sound keeper.old }
    requires stands { K.has_maps keeper.old → (K.seen keeper.old).place spot < length (K.seen keeper.old).now }
    ensures name { K.has_maps keeper.old → IfOk result (λ n. n ≡ name_of_entry (slice_get (K.seen keeper.old).now ((K.seen keeper.old).place spot))) }
    ensures undamaged { K.has_maps keeper.old → IfErr result IsUndamaged }
    ensures ground { SameGround K.over K.has_maps K.tells K.seen K.written K.changes K.moment K.left_since keeper.old keeper.new }
    ensures accounts { Accounts K.is_sound K.is_spent K.fault_count K.want_count keeper.old keeper.new (fault_of result) }
{
    match keeper.entry(spot) {
        Ok(entry) => Ok(name_of(alloc, entry.value)?),
        Err(error) => Err(error.into_fault()),
    }
}

/// The name in the entry of a key; None where there is no such entry, or no name in it.
#[tactic(auto, using(mm_keeper::specs::Facts::InRange::index_in_range))]
fn find_name<K: Keeper, L: Ledger>(
    alloc: Global,
    keeper: &mut K,
    key: &[u8],
    steps: &mut Steps<L>,
) -> Result<Option<Text>, Fault>
    requires { K.is_sound keeper.old }
    ensures name { K.has_maps keeper.old → IfOk result (λ n. n ≡ name_of_entry (entry_at (K.seen keeper.old).now (index_of (K.seen keeper.old).now key.now))) }
    ensures undamaged { K.has_maps keeper.old → IfErr result IsUndamaged }
    ensures ground { SameGround K.over K.has_maps K.tells K.seen K.written K.changes K.moment K.left_since keeper.old keeper.new }
    ensures accounts { Accounts K.is_sound K.is_spent K.fault_count K.want_count keeper.old keeper.new (fault_of result) }
    ensures ticks { steps.new ≡ steps.old + 1 }
{
    match keeper.get(key, steps) {
        Ok(Some(spot)) => name_at(alloc, keeper, spot),
        Ok(None) => Ok(None),
        Err(fault) => Err(fault),
    }
}

/// The name of the node with the label, `#text` for a text, by one look-up. `Damaged` with the key of the node's
/// first chunk where no name stands there, and over an image never for a node of its forest.
pub fn node_name<K: Keeper, L: Ledger>(
    alloc: Global,
    label: &Label,
    keeper: &mut K,
    steps: &mut Steps<L>,
) -> Result<Text, Fault>
    requires { K.is_sound keeper.old }
    ensures name { K.has_maps keeper.old → IfOk result (λ n. stored_name (K.seen keeper.old).now label.now ≡ Some n) }
    ensures damaged { K.has_maps keeper.old → IfErr result (BlamesName (K.seen keeper.old).now label.now) }
    ensures image { (f : Trees Labelled) (t : Tree Labelled) → HoldsImage K.has_maps K.seen keeper.old f → found label.now f ≡ Some t → IfOk result (λ n. n ≡ name_of t.0.kind) }
    ensures undamaged { (f : Trees Labelled) (t : Tree Labelled) → HoldsImage K.has_maps K.seen keeper.old f → found label.now f ≡ Some t → IfErr result IsUndamaged }
    ensures ground { SameGround K.over K.has_maps K.tells K.seen K.written K.changes K.moment K.left_since keeper.old keeper.new }
    ensures accounts { Accounts K.is_sound K.is_spent K.fault_count K.want_count keeper.old keeper.new (fault_of result) }
    ensures cost { steps.new ≤ steps.old + 1 }
{
    values_tell();
    let key = chunk_key(alloc, label, 0)?;
    match find_name(alloc, keeper, key.as_slice(), steps) {
        Ok(Some(name)) => Ok(name),
        Ok(None) => Err(Fault::Damaged(Damage::Key { key })),
        Err(fault) => Err(fault),
    }
}
