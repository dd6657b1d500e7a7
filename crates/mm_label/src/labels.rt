//! Labels, held as their bytes.

ghost use Rattle.std.specs.Prelude.{◌≡◌, ◌++◌, ◌≤◌, ◌↔◌, length, IsTrue, MatchOption, IfOk, IfErr, option_map, refl, List, ℤ, string_bytes, [], ◌<◌};
ghost use Rattle.std.specs.Ordering.{int_cmp, int_eq, as_partial_cmp};
ghost use Rattle.std.specs.Cmp.{int_cmp_total, int_eq_equiv, partial_equiv_from_equiv, partial_order_from_agreeing_total};
ghost use Rattle.std.specs.Cmp.Lexicographic.{lists_total, lists_equiv, lists_ties, pointwise, slice_cmp};
ghost use Rattle.std.proofs.Common.{rules};
ghost use Rattle.mm_label.specs.Bytes.{bytes_of};
ghost use Rattle.mm_label.specs.Label.{IsLabel, IsAncestorOrSelf, IsParent, IsSegment, IsLastSegment, SpellsNoLabel, label_limit, level, lca, all_in_range};
ghost use Rattle.mm_label.specs.Fronts.{is_front};
ghost use Rattle.mm_label.specs.Components.{components};
ghost use Rattle.mm_label.specs.Text.{text_of};
ghost use Rattle.mm_label.specs.Refusals.{RefusesLabel, RefusesText, front_of};

use crate::component::components;
use crate::decimal::{read, text_of};
use crate::error::LabelError;
use crate::spelling::{LABEL_LIMIT, Spelled, push_spelled};
use crate::walk::{common_length, is_label, odd_count, segment_start};
use std::alloc::{AllocError, Global};
use std::cmp::Ordering;
use std::marker::Model;

/// A label, seen as the list of its components. It holds the bytes that spell it, and where they are
/// at most 16, as mostly, takes no memory of its own.
#[derive(Debug, Drop)]
pub struct Label {
    bytes: Spelled,
}

impl Model for Label {
    ghost use Rattle.std.specs.Prelude.{List, ℤ};

    ghost Value = { List ℤ };

    ghost use Rattle.mm_label.specs.Components.{components};
    ghost use Rattle.mm_label.specs.Inside.Reading.{IsSpelled};

    ghost view = { λ a. components a.bytes.items };

    ghost invariant = { λ a. IsSpelled a.bytes.items };
}

impl Label {
    /// The label that has this canonical text: the components in decimal, joined by full stops, with
    /// `-` before negative ones, no leading zero and no `-0`.
    pub fn parse(alloc: Global, text: &str) -> Result<Label, LabelError>
        ensures value { IfOk result (λ a. text_of a ≡ text.now) }
        ensures label { IfOk result IsLabel }
        ensures refused { IfErr result (λ e. RefusesText e text.now) }
    {
        let Some(components) = read(alloc, text)? else {
            return Err(LabelError::NotALabel);
        };
        let canonical = text_of(alloc, components.as_slice())?;
        if canonical.as_str() != text {
            return Err(LabelError::NotALabel);
        }
        let mut bytes = Spelled::new(alloc);
        push_spelled(&mut bytes, components.as_slice())?;
        if !is_label(bytes.as_slice()) {
            return Err(LabelError::NotALabel);
        }
        Ok(Label { bytes })
    }

    /// The label that the bytes spell, or None where they spell no label.
    pub fn from_bytes(alloc: Global, bytes: &[u8]) -> Result<Option<Label>, AllocError>
        ensures { IfOk result (λ found. MatchOption found (SpellsNoLabel bytes.now) (λ a. IsLabel a × (bytes_of a ≡ bytes.now))) }
    {
        if !is_label(bytes) {
            return Ok(None);
        }
        let mut held = Spelled::new(alloc);
        held.extend_from_slice(bytes)?;
        Ok(Some(Label { bytes: held }))
    }

    /// The bytes that spell the label, at most 512.
    pub fn as_bytes(&self) -> &[u8]
        ensures value { result.now ≡ bytes_of self.now }
        ensures label { IsLabel self.now }
    {
        self.bytes.as_slice()
    }

    /// The bytes that spell the label, in memory of their own.
    pub fn bytes(&self, alloc: Global) -> Result<Vec<u8>, AllocError>
        ensures { IfOk result (λ bytes. bytes.items ≡ bytes_of self.now) }
    {
        let mut bytes = Vec::new(alloc);
        bytes.extend_from_slice(self.as_bytes())?;
        Ok(bytes)
    }

    /// The number of its segments, from 1 on.
    pub fn level(&self) -> u32
        ensures { result ≡ level self.now }
    {
        odd_count(self.bytes.as_slice())
    }

    /// The label without its last segment, or None at level 1.
    pub fn parent(&self, alloc: Global) -> Result<Option<Label>, AllocError>
        ensures { IfOk result (λ found. MatchOption found (level self.now ≡ 1) (λ parent. IsParent parent self.now)) }
    {
        let cut = segment_start(self.bytes.as_slice());
        if cut == 0 {
            return Ok(None);
        }
        let mut bytes = Spelled::new(alloc);
        bytes.extend_from_slice(&self.bytes.as_slice()[..cut])?;
        Ok(Some(Label { bytes }))
    }

    /// Its last segment.
    pub fn segment(&self, alloc: Global) -> Result<Vec<i64>, AllocError>
        ensures last { IfOk result (λ v. (front : List ℤ) × IsLastSegment self.now front v.items) }
        ensures segment { IfOk result (λ v. IsSegment v.items) }
    {
        let cut = segment_start(self.bytes.as_slice());
        components(alloc, &self.bytes.as_slice()[cut..])
    }

    /// The components in decimal, joined by full stops.
    pub fn text(&self, alloc: Global) -> Result<String, AllocError>
        ensures { IfOk result (λ text. string_bytes text ≡ text_of self.now) }
    {
        let found = components(alloc, self.bytes.as_slice())?;
        text_of(alloc, found.as_slice())
    }

    /// The same label once more.
    pub fn copy(&self, alloc: Global) -> Result<Label, AllocError>
        ensures { IfOk result (λ a. a ≡ self.now) }
    {
        let mut bytes = Spelled::new(alloc);
        bytes.extend_from_slice(self.bytes.as_slice())?;
        Ok(Label { bytes })
    }

    /// Whether this label is the other one or an ancestor of it.
    pub fn is_prefix(&self, other: &Label) -> bool
        ensures ancestor { IsTrue result ↔ IsAncestorOrSelf self.now other.now }
        ensures front { result ≡ is_front self.now other.now }
    {
        other.bytes.as_slice().starts_with(self.bytes.as_slice())
    }
}

impl PartialEq for Label {
    ghost eq = { pointwise int_eq };

    ghost laws = { partial_equiv_from_equiv (lists_equiv int_eq_equiv) };

    fn eq(&self, other: &Label) -> bool {
        self.bytes.as_slice() == other.bytes.as_slice()
    }
}

impl Eq for Label {
    ghost laws = { lists_equiv int_eq_equiv };
}

impl PartialOrd for Label {
    ghost partial_cmp = { as_partial_cmp (slice_cmp int_cmp) };

    ghost laws = { partial_order_from_agreeing_total (slice_cmp int_cmp) (lists_total int_cmp_total) (λ x y. refl) (lists_ties int_cmp (λ x y. refl)) };

    fn partial_cmp(&self, other: &Label) -> Option<Ordering> {
        Some(self.cmp(other))
    }
}

/// The order of the lists of components, a proper prefix first: document order.
impl Ord for Label {
    ghost cmp = { slice_cmp int_cmp };

    ghost total = { lists_total int_cmp_total };

    ghost matches_partial_cmp = { Prim.search rules };

    ghost matches_eq = { lists_ties int_cmp (λ x y. refl) };

    fn cmp(&self, other: &Label) -> Ordering {
        self.bytes.as_slice().cmp(other.bytes.as_slice())
    }
}

/// The bytes before the segment: the parent's, or none.
fn front_bytes(parent: Option<&Label>) -> &[u8]
    ensures value { result.now ≡ bytes_of (front_of (option_map (λ p. p.now) parent.entry)) }
    ensures in_range { IsTrue (all_in_range (front_of (option_map (λ p. p.now) parent.entry))) }
    ensures short { length result.now ≤ label_limit }
{
    match parent {
        Some(label) => label.as_bytes(),
        None => &[],
    }
}

/// The label below the parent whose last segment this is; without a parent, the label of level 1.
pub fn child(alloc: Global, parent: Option<&Label>, segment: &[i64]) -> Result<Label, LabelError>
    requires { IsSegment segment.now }
    ensures value { IfOk result (λ a. a ≡ front_of (option_map (λ p. p.now) parent.entry) ++ segment.now) }
    ensures label { IfOk result IsLabel }
    ensures refused { IfErr result (λ e. RefusesLabel e (front_of (option_map (λ p. p.now) parent.entry) ++ segment.now)) }
{
    let front = front_bytes(parent);
    let mut bytes = Spelled::new(alloc);
    bytes.extend_from_slice(front)?;
    push_spelled(&mut bytes, segment)?;
    let length = bytes.len();
    if length > LABEL_LIMIT {
        return Err(LabelError::Full {
            length: length as u64,
        });
    }
    Ok(Label { bytes })
}

/// The lowest label that is an ancestor of both or one of them: their longest common front of whole
/// segments. None where they have none.
pub fn lca(alloc: Global, a: &Label, b: &Label) -> Result<Option<Label>, AllocError>
    ensures { IfOk result (λ found. MatchOption found (lca a.now b.now ≡ []) (λ x. (x ≡ lca a.now b.now) × IsLabel x)) }
{
    let length = common_length(a.bytes.as_slice(), b.bytes.as_slice());
    if length == 0 {
        return Ok(None);
    }
    let mut bytes = Spelled::new(alloc);
    bytes.extend_from_slice(&a.bytes.as_slice()[..length])?;
    Ok(Some(Label { bytes }))
}
