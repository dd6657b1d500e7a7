//! The subtree at a label, read from a map's entries.

ghost use Rattle.std.specs.Prelude.{true, ◌≡◌, ◌∷◌, ◌≤◌, ◌<◌, ◌+◌, [], Some, false, IfOk, IfErr, IfSome, OnOk, MatchResult, is_some, length, nat_eq, option_map, slice_get};
ghost use Rattle.std.specs.List.{starts_with};
ghost use Rattle.mm_keeper.specs.Entries.{Entry, has};
ghost use Rattle.mm_keeper.specs.Keeping.{fault_of};
ghost use Rattle.mm_label.specs.Bytes.{bytes_of};
ghost use Rattle.mm_label.specs.Label.{IsLabel};
ghost use Rattle.mm_tree.specs.Edits.{found};
ghost use Rattle.mm_tree.specs.Numbering.{Labelled, node_of};
ghost use Rattle.mm_tree.specs.Trees.{Trees};
ghost use Rattle.mm_image.specs.Ground.{Accounts, HoldsImage, SameGround};
ghost use Rattle.mm_image.specs.Keys.{chunk_key};
ghost use Rattle.mm_image.specs.Subtrees.{is_subtree, IsSubtree, IsUndamaged, NamesKey, at_or_below, run_of};
ghost use Rattle.mm_image.specs.Inside.Gathered.{AreGroups, Tells, gathered};
ghost use Rattle.mm_image.specs.Inside.Rebuilding.{bared};
ghost use Rattle.mm_image.specs.Inside.Running.{Gathers, GoesOn, Looks, LooksAt, Reaches, StopsAt, TreeAt, left_at};

use crate::fields::kind_of;
use crate::gathering::{Group, Groups, joined, take};
use crate::key::chunk_key;
use crate::laws::images_rise;
use crate::placing::is_placed;
use crate::rebuilding::{Bare, rebuild};
use mm_host::{Bytes, Damage, Fault};
use mm_keeper::Keeper;
use mm_label::Label;
use mm_label::laws::{ancestry, one_label};
use mm_list::Items;
use mm_steps::Steps;
use mm_tree::Node;
use std::alloc::{AllocError, Global};
use std::sync::ledger::Ledger;

/// Whether the key begins with 01 and these bytes.
fn begins(front: &[u8], key: &[u8]) -> bool
    ensures { result ≡ starts_with nat_eq key.now (1 ∷ front.now) }
{
    match key.split_first() {
        Some((first, rest)) => *first == 1 && rest.starts_with(front),
        None => false,
    }
}

/// Gathers an entry whose key begins with 01 and these bytes; false where it doesn't.
fn look(
    alloc: Global,
    front: &[u8],
    key: &[u8],
    value: &[u8],
    groups: &mut Groups,
) -> Result<bool, Fault>
    requires { AreGroups groups.old }
    ensures { Looks front.now groups.old groups.new (key.now, value.now) result }
{
    if !begins(front, key) {
        return Ok(false);
    }
    if take(alloc, groups, key, value)? {
        return Ok(true);
    }
    let key = Bytes::from_slice(alloc, key)?;
    Err(Fault::Damaged(Damage::Key { key }))
}

/// The kinds of the nodes, in the order of the document; None where the pieces of one are no content.
fn bared(alloc: Global, groups: Groups) -> Result<Option<Vec<Bare>>, AllocError>
    requires { AreGroups groups }
    ensures { IfOk result (λ nodes. Tells groups (option_map (λ v. bared v.items) nodes)) }
{
    let mut nodes = Vec::new(alloc);
    for Group { label, pieces } in groups.into_vec() {
        let content = joined(alloc, pieces.as_slice())?;
        match kind_of(alloc, content.as_slice())? {
            Some(kind) => nodes.push(Bare { label, kind })?,
            None => return Ok(None),
        }
    }
    Ok(Some(nodes))
}

/// The tree at the label that has these chunks; None where none has.
fn tree_of(alloc: Global, label: &Label, groups: Groups) -> Result<Option<Node>, AllocError>
    requires groups { AreGroups groups }
    requires label { IsLabel label.now }
    ensures { IfOk result (λ node. TreeAt label.now (gathered groups) (option_map node_of node)) }
{
    one_label();
    let Some(nodes) = bared(alloc, groups)? else {
        return Ok(None);
    };
    let mut trees = rebuild(alloc, nodes)?;
    let Some(node) = trees.pop() else {
        return Ok(None);
    };
    if !trees.is_empty() || !is_placed(label, &node) {
        return Ok(None);
    }
    Ok(Some(node))
}

/// Looks at the entry at the spot.
fn look_at<K: Keeper>(
    alloc: Global,
    front: &[u8],
    keeper: &mut K,
    spot: K::Spot,
    groups: &mut Groups,
) -> Result<bool, Fault>
    requires sound { K.is_sound keeper.old }
    requires stands { K.has_maps keeper.old → (K.seen keeper.old).place spot < length (K.seen keeper.old).now }
    requires groups { AreGroups groups.old }
    ensures groups { OnOk result (AreGroups groups.new) }
    ensures looks { K.has_maps keeper.old → (e : Entry) → slice_get (K.seen keeper.old).now ((K.seen keeper.old).place spot) ≡ Some e → LooksAt front.now groups.old groups.new e result }
    ensures ground { SameGround K.over K.has_maps K.tells K.seen K.written K.changes K.moment K.left_since keeper.old keeper.new }
    ensures accounts { Accounts K.is_sound K.is_spent K.fault_count K.want_count keeper.old keeper.new (fault_of result) }
{
    match keeper.entry(spot) {
        Ok(entry) => look(alloc, front, entry.key, entry.value, groups),
        Err(error) => Err(error.into_fault()),
    }
}

/// Gathers the entry at the spot, and goes on to the next one; None where the run has ended.
fn go_on<K: Keeper, L: Ledger>(
    alloc: Global,
    front: &[u8],
    keeper: &mut K,
    spot: K::Spot,
    groups: &mut Groups,
    steps: &mut Steps<L>,
) -> Result<Option<K::Spot>, Fault>
    requires sound { K.is_sound keeper.old }
    requires stands { K.has_maps keeper.old → (K.seen keeper.old).place spot < length (K.seen keeper.old).now }
    requires groups { AreGroups groups.old }
    ensures groups { OnOk result (AreGroups groups.new) }
    ensures goes { K.has_maps keeper.old → IfOk result (λ next. GoesOn front.now (K.seen keeper.old).now groups.old groups.new steps.old steps.new ((K.seen keeper.old).place spot) (option_map (K.seen keeper.old).place next)) }
    ensures stops { K.has_maps keeper.old → IfErr result (StopsAt front.now (K.seen keeper.old).now groups.old steps.old steps.new ((K.seen keeper.old).place spot)) }
    ensures ground { SameGround K.over K.has_maps K.tells K.seen K.written K.changes K.moment K.left_since keeper.old keeper.new }
    ensures accounts { Accounts K.is_sound K.is_spent K.fault_count K.want_count keeper.old keeper.new (fault_of result) }
{
    if look_at(alloc, front, keeper, spot, groups)? {
        keeper.after(spot, steps)
    } else {
        Ok(None)
    }
}

/// Gathers the entries from the spot on, as long as their keys begin with 01 and these bytes.
fn gather<K: Keeper, L: Ledger>(
    alloc: Global,
    front: &[u8],
    keeper: &mut K,
    spot: K::Spot,
    steps: &mut Steps<L>,
) -> Result<Groups, Fault>
    requires sound { K.is_sound keeper.old }
    requires stands { K.has_maps keeper.old → (K.seen keeper.old).place spot < length (K.seen keeper.old).now }
    ensures groups { IfOk result AreGroups }
    ensures gathers { K.has_maps keeper.old → IfOk result (λ groups. Gathers front.now (K.seen keeper.old).now groups steps.old steps.new ((K.seen keeper.old).place spot)) }
    ensures stops { K.has_maps keeper.old → IfErr result (StopsAt front.now (K.seen keeper.old).now [] steps.old steps.new ((K.seen keeper.old).place spot)) }
    ensures ground { SameGround K.over K.has_maps K.tells K.seen K.written K.changes K.moment K.left_since keeper.old keeper.new }
    ensures accounts { Accounts K.is_sound K.is_spent K.fault_count K.want_count keeper.old keeper.new (fault_of result) }
{
    let mut groups = Items::new(alloc);
    let mut at = Some(spot);
    // Each entry weighs a byte at least.
    let weight = keeper.weight();
    for _ in 0..weight {
        let Some(spot) = at else {
            return Ok(groups);
        };
        at = go_on(alloc, front, keeper, spot, &mut groups, steps)?;
    }
    Ok(groups)
}

/// The subtree at the label, whose first chunk has this key and stands at the spot.
fn from_first<K: Keeper, L: Ledger>(
    alloc: Global,
    label: &Label,
    key: Bytes,
    keeper: &mut K,
    spot: K::Spot,
    steps: &mut Steps<L>,
) -> Result<Node, Fault>
    requires sound { K.is_sound keeper.old }
    requires stands { K.has_maps keeper.old → (K.seen keeper.old).place spot < length (K.seen keeper.old).now }
    ensures tree { IfOk result (λ node. is_subtree label.now (node_of node) ≡ true) }
    ensures node { K.has_maps keeper.old → IfOk result (λ node. IsSubtree label.now (node_of node) (left_at (bytes_of label.now) (K.seen keeper.old).now (Some ((K.seen keeper.old).place spot)))) }
    ensures damaged { K.has_maps keeper.old → IfErr result (NamesKey label.now (left_at (bytes_of label.now) (K.seen keeper.old).now (Some ((K.seen keeper.old).place spot)))) }
    ensures cost { K.has_maps keeper.old → steps.new ≤ steps.old + length (left_at (bytes_of label.now) (K.seen keeper.old).now (Some ((K.seen keeper.old).place spot))) }
    ensures ground { SameGround K.over K.has_maps K.tells K.seen K.written K.changes K.moment K.left_since keeper.old keeper.new }
    ensures accounts { Accounts K.is_sound K.is_spent K.fault_count K.want_count keeper.old keeper.new (fault_of result) }
{
    let groups = gather(alloc, label.as_bytes(), keeper, spot, steps)?;
    match tree_of(alloc, label, groups)? {
        Some(node) => Ok(node),
        None => Err(Fault::Damaged(Damage::Key { key })),
    }
}

/// The subtree at the label, and what the map tells of it.
fn reach<K: Keeper, L: Ledger>(
    alloc: Global,
    label: &Label,
    keeper: &mut K,
    steps: &mut Steps<L>,
) -> Result<Option<Node>, Fault>
    requires { K.is_sound keeper.old }
    ensures tree { IfOk result (λ node. IfSome node (λ n. is_subtree label.now (node_of n) ≡ true)) }
    ensures reaches { K.has_maps keeper.old → Reaches label.now (K.seen keeper.old).now steps.old steps.new result }
    ensures ground { SameGround K.over K.has_maps K.tells K.seen K.written K.changes K.moment K.left_since keeper.old keeper.new }
    ensures accounts { Accounts K.is_sound K.is_spent K.fault_count K.want_count keeper.old keeper.new (fault_of result) }
{
    let key = chunk_key(alloc, label, 0)?;
    match keeper.get(key.as_slice(), steps)? {
        Some(spot) => Ok(Some(from_first(alloc, label, key, keeper, spot, steps)?)),
        None => Ok(None),
    }
}

/// The subtree at the label, read from the chunk entries of a keeper's map; None where the map doesn't hold its
/// first one. `Damaged` with a key says that these entries are those of no subtree, and comes over no image.
pub fn subtree<K: Keeper, L: Ledger>(
    alloc: Global,
    label: &Label,
    keeper: &mut K,
    steps: &mut Steps<L>,
) -> Result<Option<Node>, Fault>
    requires { K.is_sound keeper.old }
    ensures tree { IfOk result (λ node. IfSome node (λ n. is_subtree label.now (node_of n) ≡ true)) }
    ensures some { K.has_maps keeper.old → IfOk result (λ node. is_some node ≡ has (K.seen keeper.old).now (chunk_key label.now 0)) }
    ensures node { K.has_maps keeper.old → IfOk result (λ node. IfSome node (λ n. IsSubtree label.now (node_of n) (run_of label.now (K.seen keeper.old).now))) }
    ensures damaged { K.has_maps keeper.old → IfErr result (NamesKey label.now (at_or_below label.now (K.seen keeper.old).now)) }
    ensures held { K.has_maps keeper.old → has (K.seen keeper.old).now (chunk_key label.now 0) ≡ false → IfErr result IsUndamaged }
    ensures image { (f : Trees Labelled) → HoldsImage K.has_maps K.seen keeper.old f → MatchResult result (λ node. option_map node_of node ≡ found label.now f) IsUndamaged }
    ensures cost { K.has_maps keeper.old → steps.new ≤ steps.old + 1 + length (run_of label.now (K.seen keeper.old).now) }
    ensures ground { SameGround K.over K.has_maps K.tells K.seen K.written K.changes K.moment K.left_since keeper.old keeper.new }
    ensures accounts { Accounts K.is_sound K.is_spent K.fault_count K.want_count keeper.old keeper.new (fault_of result) }
{
    one_label();
    ancestry();
    images_rise();
    let _spelled = label.as_bytes();
    reach(alloc, label, keeper, steps)
}
