//! Components: their range, and how they are read from bytes.

ghost use Rattle.std.specs.Prelude.{◌≡◌, ◌<◌, IsTrue, IfOk};
ghost use Rattle.mm_label.specs.Bytes.{rank};
ghost use Rattle.mm_label.specs.Label.{is_odd, is_in_range};
ghost use Rattle.mm_label.specs.Components.{component_at, low_at, four_at, of_rank, components};
ghost use Rattle.mm_label.specs.Inside.Reading.{Finds};

use std::alloc::{AllocError, Global};

/// The least component.
pub const LEAST: i64 = -4294975552;

/// The greatest component.
pub const GREATEST: i64 = 4294975551;

pub fn is_odd(c: i64) -> bool
    ensures { result ≡ is_odd c }
{
    c % 2 != 0
}

pub fn is_in_range(c: i64) -> bool
    ensures { result ≡ is_in_range c }
{
    LEAST <= c && c <= GREATEST
}

/// The place of a component among all, from 0 on.
pub fn rank(c: i64) -> u64
    requires { IsTrue (is_in_range c) }
    ensures value { result ≡ rank c }
    ensures below { result < 8589951104 }
{
    (c - LEAST) as u64
}

/// The component that has this rank.
fn of_rank(n: u64) -> i64
    requires { n < 8589951104 }
    ensures { result ≡ of_rank n }
{
    n as i64 + LEAST
}

/// A component of two bytes, from the rank that its first byte gives.
fn low(n: u64, bytes: &[u8]) -> Option<(i64, &[u8])>
    requires { n < 8589950000 }
    ensures { Finds result (low_at n bytes.now) }
{
    match bytes {
        [low, rest @ ..] => Some((of_rank(n + *low as u64), rest)),
        _ => None,
    }
}

/// A component of five bytes, from the rank that its first byte gives.
fn four(n: u64, bytes: &[u8]) -> Option<(i64, &[u8])>
    requires { n < 4294983809 }
    ensures { Finds result (four_at n bytes.now) }
{
    match bytes {
        [w, x, y, z, rest @ ..] => {
            let value = *w as u64 * 16777216 + *x as u64 * 65536 + *y as u64 * 256 + *z as u64;
            Some((of_rank(n + value), rest))
        }
        _ => None,
    }
}

/// The component that the first bytes spell, and the bytes after it.
pub fn component_at(bytes: &[u8]) -> Option<(i64, &[u8])>
    ensures { Finds result (component_at bytes.now) }
{
    let (first, rest) = bytes.split_first()?;
    let first = *first as u64;
    match first {
        0x1f => four(0, rest),
        0x20..=0x3f => low(4294967296 + (first - 0x20) * 256, rest),
        0x40..=0xbf => Some((of_rank(4294975488 + (first - 0x40)), rest)),
        0xc0..=0xdf => low(4294975616 + (first - 0xc0) * 256, rest),
        0xe0 => four(4294983808, rest),
        _ => None,
    }
}

/// The components that the bytes spell, up to the first place where none is spelled.
pub fn components(alloc: Global, bytes: &[u8]) -> Result<Vec<i64>, AllocError>
    ensures { IfOk result (λ v. v.items ≡ components bytes.now) }
{
    let mut found = Vec::with_capacity(alloc, bytes.len())?;
    let mut rest = bytes;
    while let Some((c, after)) = component_at(rest) {
        found.push(c)?;
        rest = after;
    }
    Ok(found)
}
