// The bytes of one area of a disk in memory.
ghost use Rattle.std.specs.Prelude.{◌≡◌, ◌+◌, ◌-◌, ◌≤◌, ◌++◌, ℕ, length, take, drop, replicate, unwrap_or, option_map, OnOk, OnErr};
ghost use Rattle.mm_host.specs.Disk.{put_bytes};
ghost use Rattle.mm_host.specs.Inside.Holding.{AreaBytes};

use std::alloc::AllocError;
use std::marker::Model;

/// The bytes of which an area was made, and those of now, which are others only after a write.
#[derive(Drop)]
pub(crate) struct Held {
    made: Vec<u8>,
    current: Option<Vec<u8>>,
}

impl Model for Held {
    ghost Value = { AreaBytes };

    ghost view = { λ h. record { made = h.made.items; current = unwrap_or (option_map (λ v. v.items) h.current) h.made.items } };
}

impl Held {
    pub(crate) fn new(made: Vec<u8>) -> Held
        ensures { result ≡ record { made = made.items; current = made.items } }
    {
        Held {
            made,
            current: None,
        }
    }

    pub(crate) fn made(&self) -> &[u8]
        ensures { result.now ≡ self.now.made }
    {
        self.made.as_slice()
    }

    pub(crate) fn current(&self) -> &[u8]
        ensures { result.now ≡ self.now.current }
    {
        match &self.current {
            Some(bytes) => bytes.as_slice(),
            None => self.made.as_slice(),
        }
    }

    /// Puts bytes at a place. Where there is no memory all stays as it was.
    pub(crate) fn put(&mut self, at: u64, piece: &[u8]) -> Result<(), AllocError>
        ensures made { self.new.made ≡ self.old.made }
        ensures ok { OnOk result (self.new.current ≡ put_bytes self.old.current at piece.now) }
        ensures err { OnErr result (self.new.current ≡ self.old.current) }
    {
        match &mut self.current {
            Some(bytes) => put(bytes, at, piece),
            None => {
                let mut bytes = Vec::from_slice(*self.made.allocator(), &self.made)?;
                put(&mut bytes, at, piece)?;
                self.current = Some(bytes);
                Ok(())
            }
        }
    }
}

// Adds zero bytes up to an end.
fn grow(bytes: &mut Vec<u8>, end: usize) -> Result<(), AllocError>
    ensures ok { OnOk result (bytes.new.items ≡ bytes.old.items ++ replicate (end - length bytes.old.items) 0) }
    ensures err { OnErr result (bytes.new.items ≡ bytes.old.items) }
{
    if end <= bytes.len() {
        return Ok(());
    }
    bytes.resize(end, 0)?;
    Ok(())
}

// Puts bytes over those from a place on.
fn paste(bytes: &mut [u8], from: usize, piece: &[u8])
    requires { from + length piece.now ≤ length bytes.old }
    ensures { bytes.new ≡ take from bytes.old ++ (piece.now ++ drop (length piece.now) (drop from bytes.old)) }
{
    let end = from + piece.len();
    bytes[from..end].copy_from_slice(piece);
}

/// Puts bytes at a place, with zero bytes before them where it is past the end.
pub(crate) fn put(bytes: &mut Vec<u8>, at: u64, piece: &[u8]) -> Result<(), AllocError>
    ensures ok { OnOk result (bytes.new.items ≡ put_bytes bytes.old.items at piece.now) }
    ensures err { OnErr result (bytes.new.items ≡ bytes.old.items) }
{
    let from = at as usize;
    if piece.len() > usize::MAX - from {
        return Err(AllocError);
    }
    let end = from + piece.len();
    grow(bytes, end)?;
    paste(bytes, from, piece);
    Ok(())
}
