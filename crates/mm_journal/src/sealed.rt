// A whole record in memory.
ghost use Rattle.std.specs.Prelude.{◌≡◌, ◌+◌, ◌^◌, ◌<◌, ℕ, length, IfOk};
ghost use Rattle.mm_journal.specs.Settled.{Content, IsSealed};
ghost use Rattle.mm_journal.specs.Inside.Bodies.{content_of};

use byteorder::{BigEndian, ByteOrder};
use sha2::{Digest, Sha256};
use std::alloc::{AllocError, Global};
use std::marker::Model;

/// One whole record without its gate, and behind it the next gate, which is closed.
#[derive(Drop)]
pub struct Sealed {
    bytes: Vec<u8>,
}

impl Model for Sealed {
    ghost Value = { Content };

    ghost view = { λ s. content_of s.bytes.items };

    ghost invariant = { λ s. IsSealed s.bytes.items (content_of s.bytes.items) };
}

fn size_of(payload: &[u8]) -> u64
    ensures same { result ≡ length payload.now }
    ensures fits { length payload.now < 256 ^ 8 }
{
    payload.len() as u64
}

// The length, the sort, the payload, their digest and a closed gate.
fn seal(alloc: Global, sort: u8, payload: &[u8]) -> Result<Vec<u8>, AllocError>
    ensures { IfOk result (λ v. IsSealed v.items (record { sort = sort; bytes = payload.now })) }
{
    let mut size = [0u8; 8];
    BigEndian::write_u64(&mut size, size_of(payload));
    let mut bytes = Vec::with_capacity(alloc, payload.len().saturating_add(42))?;
    bytes.extend_from_slice(&size)?;
    bytes.extend_from_slice(&[sort])?;
    bytes.extend_from_slice(payload)?;
    let digest = Sha256::digest(bytes.as_slice());
    bytes.extend_from_slice(&digest)?;
    bytes.extend_from_slice(&[0])?;
    Ok(bytes)
}

impl Sealed {
    /// The record of this sort and payload.
    pub fn new(alloc: Global, sort: u8, payload: &[u8]) -> Result<Sealed, AllocError>
        ensures { IfOk result (λ s. s ≡ record { sort = sort; bytes = payload.now }) }
    {
        let bytes = seal(alloc, sort, payload)?;
        Ok(Sealed { bytes })
    }

    /// All bytes behind the gate.
    pub(crate) fn bytes(&self) -> &[u8]
        ensures { IsSealed result.now self.now }
    {
        self.bytes.as_slice()
    }
}
