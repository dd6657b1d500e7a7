//! Which marks are kept: one pass in document order, over the distinct masks of siblings.

ghost use Rattle.std.specs.Prelude.{◌≡◌, ◌&&◌, ◌||◌, ℕ, Option, IfOk, OnOk};
ghost use Rattle.std.specs.List.{list_any};
ghost use Rattle.mm_label.specs.Fronts.{Ascends, Label, parent, unless_empty};
ghost use Rattle.mm_match.specs.Marks.{kept, labels, under};
ghost use Rattle.mm_match.specs.Inside.Passing.{is_cut, next_cut, outdone, same_parent, taken};

use crate::mark::Mark;
use crate::parents::parent_of;
use mm_label::Label;
use mm_list::Items;
use std::alloc::{AllocError, Global};
use std::collections::BTreeMap;

/// The distinct masks of siblings, by their parent.
type Siblings = BTreeMap<Option<Label>, Items<u32>>;

/// Whether the words are some of the other's, and not all.
fn is_under(a: u32, b: u32) -> bool
    ensures { result ≡ under a b }
{
    a & b == a && a != b
}

/// The masks with one more, where it isn't among them.
fn with_mask(masks: Items<u32>, mask: u32) -> Result<Items<u32>, AllocError>
    ensures { IfOk result (λ more. (v : ℕ) → list_any (under v) more ≡ (list_any (under v) masks || under v mask)) }
{
    let mut masks = masks;
    if !masks.as_slice().contains(&mask) {
        masks.push(mask)?;
    }
    Ok(masks)
}

/// Puts a mask among those of its siblings.
fn put(
    alloc: Global,
    siblings: &mut Siblings,
    parent: Option<Label>,
    mask: u32,
) -> Result<(), AllocError>
    ensures { OnOk result ((at : Option Label) (v : ℕ) → outdone siblings.new at v ≡ (outdone siblings.old at v || (same_parent parent at && under v mask))) }
{
    let masks = siblings.remove(&parent).unwrap_or(Items::new(alloc));
    siblings.insert(parent, with_mask(masks, mask)?)?;
    Ok(())
}

/// The distinct masks of all siblings among the marks.
fn siblings_of(alloc: Global, marked: &[Mark]) -> Result<Siblings, AllocError>
    ensures { IfOk result (λ siblings. (at : Option Label) (v : ℕ) → outdone siblings at v ≡ list_any (λ n. same_parent (unless_empty (parent n.label)) at && under v n.mask) marked.now) }
{
    let mut siblings = BTreeMap::new(alloc);
    for mark in marked {
        let parent = parent_of(alloc, &mark.label)?;
        put(alloc, &mut siblings, parent, mark.mask)?;
    }
    Ok(siblings)
}

/// Whether a sibling's words are a strict superset of the mark's.
fn is_beaten(alloc: Global, siblings: &Siblings, mark: &Mark) -> Result<bool, AllocError>
    ensures { IfOk result (λ beaten. beaten ≡ outdone siblings.now (unless_empty (parent mark.now.label)) mark.now.mask) }
{
    let parent = parent_of(alloc, &mark.label)?;
    match siblings.get(&parent) {
        Some(masks) => Ok(
            masks
                .as_slice()
                .iter()
                .any(|other| is_under(mark.mask, *other)),
        ),
        None => Ok(false),
    }
}

/// Whether the label lies at or below what was cut last.
fn is_cut(cut: &Option<Label>, label: &Label) -> bool
    ensures { result ≡ is_cut cut.now label.now }
{
    match cut {
        None => false,
        Some(top) => top.is_prefix(label),
    }
}

/// Takes a mark up, or cuts it off with all that lies below it.
fn take_up(
    alloc: Global,
    out: &mut Items<Mark>,
    cut: Option<Label>,
    beaten: bool,
    mark: &Mark,
) -> Result<Option<Label>, AllocError>
    ensures { IfOk result (λ next. (out.new ≡ taken beaten out.old cut mark.now) × (next ≡ next_cut beaten cut mark.now)) }
{
    if is_cut(&cut, &mark.label) {
        return Ok(cut);
    }
    if beaten {
        return Ok(Some(mark.label.copy(alloc)?));
    }
    out.push(mark.copy(alloc)?)?;
    Ok(cut)
}

/// The root, and each node whose parent is kept and whose mask is no strict subset of a sibling's: the
/// contributors of MaxMatch. The marks are those of `masks`, in the order of the document. The work is near
/// linear in them, but that each mask is compared with the distinct ones of its siblings.
pub fn prune(alloc: Global, marked: &[Mark]) -> Result<Items<Mark>, AllocError>
    ensures { Ascends (labels marked.now) → IfOk result (λ r. r ≡ kept marked.now) }
{
    let siblings = siblings_of(alloc, marked)?;
    let mut out = Items::new(alloc);
    let mut cut: Option<Label> = None;
    for mark in marked {
        let beaten = is_beaten(alloc, &siblings, mark)?;
        cut = take_up(alloc, &mut out, cut, beaten, mark)?;
    }
    Ok(out)
}
