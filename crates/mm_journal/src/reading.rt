// The records of a journal's bytes.
ghost use Rattle.std.specs.Prelude.{◌≡◌, ◌≤◌, ◌<◌, ◌+◌, ◌^◌, ℕ, List, All, length, take, drop, get_or, OnOk, IfOk, IfErr};
ghost use Rattle.byteorder.specs.Endian.{big_number};
ghost use Rattle.sha2.specs.Sha256.{sha256};
ghost use Rattle.mm_journal.specs.Records.{Read, record_at, records};
ghost use Rattle.mm_journal.specs.Records.Read.{Whole, Wrong};
ghost use Rattle.mm_host.specs.declared.area.Area.TheVariants as area;
ghost use Rattle.mm_host.specs.declared.damage.Damage.TheVariants.{Cut};
ghost use Rattle.mm_journal.specs.Settled.{IsBody, IsClosedAt, IsNear, MayAnswer};
ghost use Rattle.mm_journal.specs.declared.payload.Payload.{Payload};

use crate::payload::Payload;
use byteorder::{BigEndian, ByteOrder};
use mm_host::{Area, Bytes, Damage, Fault};
use sha2::{Digest, Sha256};
use std::alloc::Global;

const OPEN: u8 = 0xA5;

fn cut(at: u64, needed: u64, held: u64) -> Damage
    ensures { result ≡ Cut area.Journal at needed held }
{
    Damage::Cut {
        place: Area::Journal,
        at,
        needed,
        held,
    }
}

// How long the payload of the record behind the open gate at a place is, or the first thing that is wrong with it.
#[tactic(auto, unfolding(crate::specs::Records::record_at, crate::specs::Records::record_of_size))]
fn check_record(at: u64, behind: &[u8]) -> Result<usize, Damage>
    requires { length behind.now < 2 ^ 62 }
    ensures whole { IfOk result (λ n. 42 + n ≤ length behind.now) }
    ensures size { IfOk result (λ n. big_number 8 behind.now ≡ n) }
    ensures digest { IfOk result (λ n. take 32 (drop (9 + n) behind.now) ≡ sha256 (take (9 + n) behind.now)) }
    ensures damaged { IfErr result (λ d. (next : ℕ → List ℕ → Read (List Payload)) → record_at next at behind.now ≡ Wrong d) }
{
    let held = behind.len() as u64 + 1;
    if held < 43 {
        return Err(cut(at, 43, held));
    }
    let size = BigEndian::read_u64(behind);
    if size > held - 43 {
        return Err(cut(at, size.saturating_add(43), held));
    }
    let n = size as usize;
    let found = Sha256::digest(&behind[..9 + n]);
    let mut stored = [0u8; 32];
    stored.copy_from_slice(&behind[9 + n..41 + n]);
    if stored != found {
        return Err(Damage::Digest { at, stored, found });
    }
    Ok(n)
}

// The record behind the open gate at a place.
fn read_record(alloc: Global, at: u64, behind: &[u8]) -> Result<Payload, Fault>
    requires { length behind.now < 2 ^ 62 }
    ensures whole { IfOk result (λ p. 42 + length p.bytes ≤ length behind.now) }
    ensures body { IfOk result (λ p. IsBody at (take (41 + length p.bytes) behind.now) p) }
    ensures damaged { IfErr result (MayAnswer ⊥ (λ d. (next : ℕ → List ℕ → Read (List Payload)) → record_at next at behind.now ≡ Wrong d)) }
{
    let n = match check_record(at, behind) {
        Ok(n) => n,
        Err(damage) => return Err(Fault::Damaged(damage)),
    };
    let bytes = Bytes::from_slice(alloc, &behind[9..9 + n])?;
    Ok(Payload {
        at,
        sort: behind[8],
        bytes,
    })
}

fn after(bytes: &[u8], n: usize) -> &[u8]
    requires { n ≤ length bytes.now }
    ensures { result.now ≡ drop n bytes.now }
{
    &bytes[n..]
}

/// The records of a journal's bytes, and where their closed gate stands.
pub(crate) fn read_records(alloc: Global, bytes: &[u8]) -> Result<(u64, Vec<Payload>), Fault>
    requires some { 1 < length bytes.now }
    requires near { length bytes.now < 2 ^ 62 }
    ensures closed { IfOk result (λ o. IsClosedAt o.0 bytes.now o.1.items) }
    ensures near { IfOk result (λ o. All IsNear o.1.items) }
    ensures gate { IfOk result (λ o. o.0 ≤ 2 ^ 62) }
    ensures damaged { IfErr result (MayAnswer ⊥ (λ d. records bytes.now ≡ Wrong d)) }
{
    let mut found = Vec::new(alloc);
    let mut rest = bytes;
    let mut at = 0u64;
    'records: while rest[0] == OPEN {
        let behind = after(rest, 1);
        let record = match read_record(alloc, at, behind) {
            Ok(record) => record,
            Err(fault) => return Err(fault),
        };
        let size = record.bytes.len();
        found.reserve(1)?;
        found.push_reserved(record);
        rest = after(behind, 41 + size);
        at += 42 + size as u64;
    }
    Ok((at, found))
}
