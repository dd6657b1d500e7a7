// What a crash leaves of an area of a disk in memory.
ghost use Rattle.std.specs.Prelude.{◌≡◌, ◌≤◌, ◌<◌, ◌+◌, ◌-◌, ℕ, Bool, true, false, if◌then◌else◌, [], ◌∷◌, List, length, take, drop, get_or, IfOk, OnOk, OnErr};
ghost use Rattle.mm_host.specs.Disk.{area_of, range_at};
ghost use Rattle.mm_host.specs.MemoryDisk.{Past, Piece, state_of, put_of, bytes_in, same_area, syncs, is_synced, unsynced, with_front, IsFilled, IsLeft};
ghost use Rattle.mm_host.specs.Inside.Holding.{bytes_after, bytes_after_all, ranges_after, ranges_after_all, IsLast, is_inside, is_behind, with_piece};

use crate::area::Area;
use crate::call::Call;
use crate::held::put;
use crate::pick::Pick;
use std::alloc::{AllocError, Global};

fn is_same(a: Area, b: Area) -> bool
    ensures { result ≡ same_area a b }
{
    match a {
        Area::Pages => match b {
            Area::Pages => true,
            Area::Journal => false,
        },
        Area::Journal => match b {
            Area::Pages => false,
            Area::Journal => true,
        },
    }
}

// Whether the call made sure of the area.
fn is_sync(call: &Call, area: Area) -> bool
    ensures { result ≡ syncs area call.now }
{
    match call {
        Call::Sync { area: synced } => is_same(*synced, area),
        _ => false,
    }
}

// From which call on none made sure of the area.
fn unsynced_from(calls: &[Call], area: Area) -> usize
    ensures { IsLast area calls.now result }
{
    let mut from = calls.len();
    while from > 0 {
        if is_sync(&calls[from - 1], area) {
            return from;
        }
        from -= 1;
    }
    0
}

/// What a write puts of its bytes.
pub(crate) fn put_part(bytes: &[u8], failed: bool) -> &[u8]
    ensures { result.now ≡ put_of failed bytes.now }
{
    if failed {
        return &bytes[..bytes.len() / 2];
    }
    bytes
}

// Does a call again.
fn replay_call(bytes: &mut Vec<u8>, call: &Call, area: Area) -> Result<(), AllocError>
    ensures { OnOk result (bytes.new.items ≡ bytes_after area call.now bytes.old.items) }
{
    match call {
        Call::Write {
            area: written,
            at,
            bytes: piece,
            failed,
        } => {
            if !is_same(*written, area) {
                return Ok(());
            }
            put(bytes, *at, put_part(piece.as_slice(), *failed))
        }
        _ => Ok(()),
    }
}

// The bytes of the area after these calls.
fn replay(alloc: Global, made: &[u8], calls: &[Call], area: Area) -> Result<Vec<u8>, AllocError>
    ensures { IfOk result (λ bytes. bytes.items ≡ bytes_after_all area calls.now made.now) }
{
    let mut bytes = Vec::from_slice(alloc, made)?;
    for call in calls {
        replay_call(&mut bytes, call, area)?;
    }
    Ok(bytes)
}

// Sets the bytes of a range.
fn fill(bytes: &mut Vec<u8>, from: usize, count: usize, byte: u8)
    ensures len { length bytes.new.items ≡ length bytes.old.items }
    ensures each { (k : ℕ) → k < length bytes.old.items → get_or bytes.new.items k 0 ≡ (if is_inside (range_at from count ∷ []) k then byte else get_or bytes.old.items k 0) }
{
    let end = from.saturating_add(count).min(bytes.len());
    let mut k = from;
    while k < end {
        bytes[k] = byte;
        k += 1;
    }
}

// Sets the bytes of the range that a call wrote.
fn fill_call(bytes: &mut Vec<u8>, call: &Call, area: Area, byte: u8)
    ensures len { length bytes.new.items ≡ length bytes.old.items }
    ensures each { (k : ℕ) → k < length bytes.old.items → get_or bytes.new.items k 0 ≡ (if is_inside (ranges_after area call.now []) k then byte else get_or bytes.old.items k 0) }
{
    match call {
        Call::Write {
            area: written,
            at,
            bytes: piece,
            failed: _,
        } => {
            if is_same(*written, area) {
                fill(bytes, *at as usize, piece.len(), byte);
            }
        }
        _ => {}
    }
}

// Sets the bytes of all ranges that calls wrote.
fn fill_calls(bytes: &mut Vec<u8>, calls: &[Call], area: Area, byte: u8)
    ensures len { length bytes.new.items ≡ length bytes.old.items }
    ensures each { (k : ℕ) → k < length bytes.old.items → get_or bytes.new.items k 0 ≡ (if is_inside (ranges_after_all area calls.now []) k then byte else get_or bytes.old.items k 0) }
{
    for call in calls {
        fill_call(bytes, call, area, byte);
    }
}

// Whether a later sync made sure of what this call wrote, by where the last syncs stand.
fn is_later(call: &Call, place: usize, pages: usize, journal: usize) -> bool
    ensures { result ≡ is_behind call.now place pages journal }
{
    match call {
        Call::Write { area, .. } => match area {
            Area::Pages => place < pages,
            Area::Journal => place < journal,
        },
        _ => false,
    }
}

// The first so many of the bytes.
fn front(bytes: &[u8], count: u64) -> &[u8]
    ensures { result.now ≡ take count bytes.now }
{
    let count = (count as usize).min(bytes.len());
    &bytes[..count]
}

// Puts the front of the bytes that a write put. Answers how many bytes are left to put.
fn put_piece(
    bytes: &mut Vec<u8>,
    written: Area,
    at: u64,
    piece: &[u8],
    area: Area,
    left: u64,
) -> Result<u64, AllocError>
    ensures { IfOk result (λ rest. (ps : List Piece) → with_front area rest ps bytes.new.items ≡ with_front area left (record { area = written; at = at; bytes = piece.now } ∷ ps) bytes.old.items) }
{
    if left == 0 {
        return Ok(0);
    }
    let rest = left.saturating_sub(piece.len() as u64);
    if !is_same(written, area) {
        return Ok(rest);
    }
    put(bytes, at, front(piece, left))?;
    Ok(rest)
}

// Puts the front of what a call put, unless a later sync made sure of it. Answers how many bytes are left to put.
fn put_front(
    bytes: &mut Vec<u8>,
    call: &Call,
    is_later: bool,
    area: Area,
    left: u64,
) -> Result<u64, AllocError>
    ensures { IfOk result (λ rest. (ps : List Piece) → with_front area rest ps bytes.new.items ≡ with_front area left (with_piece call.now is_later ps) bytes.old.items) }
{
    match call {
        Call::Write {
            area: written,
            at,
            bytes: piece,
            failed,
        } => {
            if is_later {
                return Ok(left);
            }
            let part = put_part(piece.as_slice(), *failed);
            put_piece(bytes, *written, *at, part, area, left)
        }
        _ => Ok(left),
    }
}

// Puts the first so many of the bytes that the calls put and no later sync made sure of.
fn put_fronts(bytes: &mut Vec<u8>, calls: &[Call], area: Area, count: u64) -> Result<(), AllocError>
    ensures { OnOk result (bytes.new.items ≡ with_front area count (unsynced calls.now) bytes.old.items) }
{
    let pages = unsynced_from(calls, Area::Pages);
    let journal = unsynced_from(calls, Area::Journal);
    let mut rest = count;
    let mut place = 0;
    while place < calls.len() {
        let call = &calls[place];
        rest = put_front(
            bytes,
            call,
            is_later(call, place, pages, journal),
            area,
            rest,
        )?;
        place += 1;
    }
    Ok(())
}

// The bytes of which the last sync made sure.
fn replay_synced(
    alloc: Global,
    made: &[u8],
    calls: &[Call],
    area: Area,
) -> Result<Vec<u8>, AllocError>
    ensures { (past : Past) → bytes_in past.made area ≡ made.now → past.calls ≡ calls.now → IfOk result (λ bytes. bytes.items ≡ (area_of (state_of past) area).stable) }
{
    let from = unsynced_from(calls, area);
    replay(alloc, made, &calls[..from], area)
}

// The bytes of now, with one byte wherever they aren't sure.
fn replay_filled(
    alloc: Global,
    made: &[u8],
    calls: &[Call],
    area: Area,
    byte: u8,
) -> Result<Vec<u8>, AllocError>
    ensures { (past : Past) → bytes_in past.made area ≡ made.now → past.calls ≡ calls.now → IfOk result (λ bytes. IsFilled byte (area_of (state_of past) area) bytes.items) }
{
    let mut bytes = replay(alloc, made, calls, area)?;
    let stable = replay_synced(alloc, made, calls, area)?;
    let from = unsynced_from(calls, area);
    fill_calls(&mut bytes, &calls[from..], area, byte);
    let count = bytes.len();
    fill(&mut bytes, stable.len(), count, byte);
    Ok(bytes)
}

// The bytes of which the last sync made sure, with the first so many that were put since.
fn replay_front(
    alloc: Global,
    made: &[u8],
    calls: &[Call],
    area: Area,
    count: u64,
) -> Result<Vec<u8>, AllocError>
    ensures { (past : Past) → bytes_in past.made area ≡ made.now → past.calls ≡ calls.now → IfOk result (λ bytes. bytes.items ≡ with_front area count (unsynced past.calls) (area_of (state_of past) area).stable) }
{
    let mut bytes = replay_synced(alloc, made, calls, area)?;
    put_fronts(&mut bytes, calls, area, count)?;
    Ok(bytes)
}

/// What a crash after these calls leaves of the area.
pub(crate) fn left(
    alloc: Global,
    made: &[u8],
    calls: &[Call],
    area: Area,
    pick: Pick,
) -> Result<Vec<u8>, AllocError>
    ensures { (past : Past) → bytes_in past.made area ≡ made.now → past.calls ≡ calls.now → IfOk result (λ bytes. IsLeft pick past area bytes.items) }
{
    match pick {
        Pick::Lost => replay_synced(alloc, made, calls, area),
        Pick::Kept => replay(alloc, made, calls, area),
        Pick::Filled { byte } => replay_filled(alloc, made, calls, area, byte),
        Pick::Front { bytes } => replay_front(alloc, made, calls, area, bytes),
    }
}
