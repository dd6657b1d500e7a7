//! Bytes that are cut into pieces as they come.

ghost use Rattle.std.specs.Prelude.{◌≡◌, ◌++◌, ◌<◌, ◌≤◌, [], IfOk, OnOk, length, take};
ghost use Rattle.mm_image.specs.Content.{piece_limit};
ghost use Rattle.mm_image.specs.Inside.Cutting.{AreFull, join, pieces_of};

use mm_host::Bytes;
use mm_list::Items;
use std::alloc::{AllocError, Global};
use std::marker::Model;
use std::mem;

/// The most bytes of a piece.
pub const PIECE_LIMIT: usize = 1000;

/// Bytes in pieces. Contracts see the bytes.
#[derive(Drop)]
pub struct Pieces {
    alloc: Global,
    full: Items<Bytes>,
    last: Vec<u8>,
}

impl Model for Pieces {
    ghost use Rattle.std.specs.Prelude.{◌++◌, ◌≤◌, List, ℕ, length};
    ghost use Rattle.mm_image.specs.Content.{piece_limit};
    ghost use Rattle.mm_image.specs.Inside.Cutting.{AreFull, join};

    ghost Value = { List ℕ };

    ghost view = { λ p. join p.full ++ p.last.items };

    ghost invariant = { λ p. AreFull p.full × (length p.last.items ≤ piece_limit) };
}

/// Puts the last piece to the full ones, if it is full.
fn close(alloc: Global, full: &mut Items<Bytes>, last: &mut Vec<u8>) -> Result<(), AllocError>
    requires full { AreFull full.old }
    requires last { length last.old.items ≤ piece_limit }
    ensures same { OnOk result (join full.new ++ last.new.items ≡ join full.old ++ last.old.items) }
    ensures room { OnOk result (length last.new.items < piece_limit) }
    ensures full { AreFull full.new }
    ensures last { length last.new.items ≤ piece_limit }
{
    if last.len() < PIECE_LIMIT {
        return Ok(());
    }
    let piece = mem::replace(last, Vec::new(alloc));
    full.push(Bytes::from_vec(piece))
}

impl Pieces {
    /// No bytes yet.
    pub fn new(alloc: Global) -> Pieces
        ensures { result ≡ [] }
    {
        Pieces {
            alloc,
            full: Items::new(alloc),
            last: Vec::new(alloc),
        }
    }

    /// Takes bytes from the front, as many as the last piece has room for, and tells how many.
    fn take_up(&mut self, bytes: &[u8]) -> Result<usize, AllocError>
        requires { 0 < length bytes.now }
        ensures some { IfOk result (λ count. (0 < count) × (count ≤ length bytes.now)) }
        ensures taken { IfOk result (λ count. self.new ≡ self.old ++ take count bytes.now) }
    {
        close(self.alloc, &mut self.full, &mut self.last)?;
        let count = bytes.len().min(PIECE_LIMIT - self.last.len());
        self.last.extend_from_slice(&bytes[..count])?;
        Ok(count)
    }

    /// Puts bytes behind the others. Each is copied once.
    pub fn push(&mut self, bytes: &[u8]) -> Result<(), AllocError>
        ensures { OnOk result (self.new ≡ self.old ++ bytes.now) }
    {
        let mut rest = bytes;
        while !rest.is_empty() {
            let count = self.take_up(rest)?;
            rest = &rest[count..];
        }
        Ok(())
    }

    /// The pieces, of which the last may be shorter.
    pub fn finish(self) -> Result<Items<Bytes>, AllocError>
        ensures { IfOk result (λ pieces. pieces ≡ pieces_of self) }
    {
        let Pieces {
            alloc: _,
            mut full,
            last,
        } = self;
        if !last.is_empty() {
            full.push(Bytes::from_vec(last))?;
        }
        Ok(full)
    }
}
