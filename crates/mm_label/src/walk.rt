//! Walks over the bytes of a label, component by component. They take no memory.

ghost use Rattle.std.specs.Prelude.{◌≡◌, length, MatchBool};
ghost use Rattle.mm_label.specs.Bytes.{bytes_of};
ghost use Rattle.mm_label.specs.Label.{SpellsNoLabel, level, lca};
ghost use Rattle.mm_label.specs.Components.{component_at, components};
ghost use Rattle.mm_label.specs.Inside.Reading.{IsSpelled, StartsLastSegment, FindsBoth};

use crate::component::{component_at, is_odd};
use crate::spelling::LABEL_LIMIT;

/// Whether the bytes spell a label.
pub fn is_label(bytes: &[u8]) -> bool
    ensures { MatchBool result (IsSpelled bytes.now) (SpellsNoLabel bytes.now) }
{
    if bytes.len() > LABEL_LIMIT {
        return false;
    }
    let mut rest = bytes;
    let mut odd = false;
    while !rest.is_empty() {
        match component_at(rest) {
            Some((c, after)) => {
                odd = is_odd(c);
                rest = after;
            }
            None => return false,
        }
    }
    odd
}

/// How many of the components are odd.
pub fn odd_count(bytes: &[u8]) -> u32
    requires { IsSpelled bytes.now }
    ensures { result ≡ level (components bytes.now) }
{
    let mut count = 0;
    let mut rest = bytes;
    while let Some((c, after)) = component_at(rest) {
        if is_odd(c) {
            count += 1;
        }
        rest = after;
    }
    count
}

/// How many bytes stand before the last segment.
pub fn segment_start(bytes: &[u8]) -> usize
    requires { IsSpelled bytes.now }
    ensures { StartsLastSegment bytes.now result }
{
    let mut cut = 0;
    let mut odd = false;
    let mut rest = bytes;
    while let Some((c, after)) = component_at(rest) {
        if odd {
            cut = bytes.len() - rest.len();
        }
        odd = is_odd(c);
        rest = after;
    }
    cut
}

/// The component that the first bytes of both spell, and the bytes after it in each.
fn common_at<'a>(left: &'a [u8], right: &'a [u8]) -> Option<(i64, &'a [u8], &'a [u8])>
    ensures { FindsBoth result (component_at left.now) (component_at right.now) }
{
    let (c, after) = component_at(left)?;
    let (d, others) = component_at(right)?;
    if c == d {
        Some((c, after, others))
    } else {
        None
    }
}

/// How many bytes the longest common front of whole segments has.
pub fn common_length(a: &[u8], b: &[u8]) -> usize
    requires { IsSpelled a.now }
    ensures { result ≡ length (bytes_of (lca (components a.now) (components b.now))) }
{
    let mut length = 0;
    let mut left = a;
    let mut right = b;
    while let Some((c, after, others)) = common_at(left, right) {
        if is_odd(c) {
            length = a.len() - after.len();
        }
        left = after;
        right = others;
    }
    length
}
