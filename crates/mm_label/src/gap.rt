//! The segment of a new node between two neighbours.

ghost use Rattle.std.specs.Prelude.{◌≡◌, ◌++◌, ◌∷◌, [], IsTrue, OnOk, IfOk, IfErr, OnErr, None, option_map};
ghost use Rattle.std.specs.Option.{ForSome};
ghost use Rattle.mm_label.specs.Label.{is_odd, is_in_range, all_in_range, IsSegment};
ghost use Rattle.mm_label.specs.Between.{above, beneath, after, before, apart, inside, between, first_out, one_or_two, IsOrdered, LiesBetween};
ghost use Rattle.mm_label.specs.Refusals.{RefusesSegment};

use crate::component::{is_in_range, is_odd};
use crate::error::LabelError;
use std::alloc::{AllocError, Global};

fn above(f: i64) -> i64
    requires { IsTrue (is_in_range f) }
    ensures { result ≡ above f }
{
    if is_odd(f) { f + 2 } else { f + 1 }
}

fn beneath(f: i64) -> i64
    requires { IsTrue (is_in_range f) }
    ensures { result ≡ beneath f }
{
    if is_odd(f) { f - 2 } else { f - 1 }
}

fn after_of(l: &[i64]) -> i64
    requires { IsTrue (all_in_range l.now) }
    ensures { result ∷ [] ≡ after l.now }
{
    match l {
        [f, ..] => above(*f),
        _ => 1,
    }
}

fn before_of(r: &[i64]) -> i64
    requires { IsTrue (all_in_range r.now) }
    ensures { result ∷ [] ≡ before r.now }
{
    match r {
        [f, ..] => beneath(*f),
        _ => 1,
    }
}

/// What stands between two that differ at their first numbers: one number or two.
fn apart(a: i64, l: &[i64], b: i64, r: &[i64]) -> (i64, Option<i64>)
    requires a { IsTrue (is_in_range a) }
    requires l { IsTrue (all_in_range l.now) }
    requires r { IsTrue (all_in_range r.now) }
    ensures { one_or_two result ≡ apart a l.now b r.now }
{
    let next = above(a);
    if next < b {
        (next, None)
    } else if b == a + 2 {
        (a + 1, Some(1))
    } else if is_odd(a) {
        (b, Some(before_of(r)))
    } else {
        (a, Some(after_of(l)))
    }
}

fn push_both(out: &mut Vec<i64>, both: (i64, Option<i64>)) -> Result<(), AllocError>
    ensures { OnOk result (out.new.items ≡ out.old.items ++ one_or_two both) }
{
    out.push(both.0)?;
    if let Some(second) = both.1 {
        out.push(second)?;
    }
    Ok(())
}

/// What stands between the two behind the longest front that they share.
fn inside(alloc: Global, left: &[i64], right: &[i64]) -> Result<Vec<i64>, AllocError>
    requires l { IsTrue (all_in_range left.now) }
    requires r { IsTrue (all_in_range right.now) }
    ensures { IfOk result (λ v. v.items ≡ inside left.now right.now) }
{
    let mut out = Vec::new(alloc);
    let mut left = left;
    let mut right = right;
    while let [a, l @ ..] = left {
        let [b, r @ ..] = right else {
            break;
        };
        if a != b {
            push_both(&mut out, apart(*a, l, *b, r))?;
            return Ok(out);
        }
        out.push(*a)?;
        left = l;
        right = r;
    }
    out.push(1)?;
    Ok(out)
}

fn one(alloc: Global, c: i64) -> Result<Vec<i64>, AllocError>
    ensures { IfOk result (λ v. v.items ≡ c ∷ []) }
{
    let mut out = Vec::new(alloc);
    out.push(c)?;
    Ok(out)
}

/// What the rules give, in range or not.
fn made(alloc: Global, left: Option<&[i64]>, right: Option<&[i64]>) -> Result<Vec<i64>, AllocError>
    requires left { ForSome left (λ l. IsSegment l.now) }
    requires right { ForSome right (λ r. IsSegment r.now) }
    ensures { IfOk result (λ v. v.items ≡ between (option_map (λ l. l.now) left.entry) (option_map (λ r. r.now) right.entry)) }
{
    match (left, right) {
        (None, None) => one(alloc, 1),
        (Some(l), None) => one(alloc, after_of(l)),
        (None, Some(r)) => one(alloc, before_of(r)),
        (Some(l), Some(r)) => inside(alloc, l, r),
    }
}

/// The first number out of range.
fn first_out(segment: &[i64]) -> Option<i64>
    ensures { result ≡ first_out segment.now }
{
    for c in segment {
        if !is_in_range(*c) {
            return Some(*c);
        }
    }
    None
}

/// The segment of a new node between the two neighbours, of which one or both may be missing.
pub fn between(
    alloc: Global,
    left: Option<&[i64]>,
    right: Option<&[i64]>,
) -> Result<Vec<i64>, LabelError>
    requires left { ForSome left (λ l. IsSegment l.now) }
    requires right { ForSome right (λ r. IsSegment r.now) }
    requires ordered { IsOrdered (option_map (λ l. l.now) left) (option_map (λ r. r.now) right) }
    ensures value { IfOk result (λ v. v.items ≡ between (option_map (λ l. l.now) left.entry) (option_map (λ r. r.now) right.entry)) }
    ensures segment { IfOk result (λ v. IsSegment v.items) }
    ensures lies { IfOk result (λ v. LiesBetween (option_map (λ l. l.now) left.entry) v.items (option_map (λ r. r.now) right.entry)) }
    ensures refused { IfErr result (λ e. RefusesSegment e (between (option_map (λ l. l.now) left.entry) (option_map (λ r. r.now) right.entry))) }
{
    let segment = made(alloc, left, right)?;
    match first_out(segment.as_slice()) {
        Some(value) => Err(LabelError::OutOfRange { value }),
        None => Ok(segment),
    }
}
