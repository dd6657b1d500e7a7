// A piece of a source's bytes.
ghost use Rattle.std.specs.Prelude.{◌≡◌, ◌≢◌, ◌+◌, ◌-◌, ◌≤◌, ◌<◌, ◌^◌, ◌↔◌, [], ◌∷◌, ◌++◌, List, ℕ, length, take, drop, OnErr, OnOk, IfOk, MatchResult, MatchOption, IsTrue, vec_len};
ghost use Rattle.std.specs.declared.option.Option.{Option};
ghost use Rattle.std.specs.Io.KnownBytes.{prepend_known, IsAtEnd};
ghost use Rattle.mm_host.specs.Causes.{HasCause};
ghost use Rattle.mm_run.specs.Inside.Buffer.{Buffered};
ghost use Rattle.mm_run.specs.Lines.{HasNoLineFeed};
ghost use Rattle.mm_run.specs.Inside.Input.{rest, reach, Supplies, TakesLine};

use memchr::memchr;
use mm_host::{Failed, Source};
use std::alloc::{AllocError, Global};
use std::marker::Model;

/// How many bytes are asked of a source at a time.
const PIECE: usize = 65_536;

/// How many bytes a run takes at most.
pub const INPUT_LIMIT: u64 = 1 << 40;

/// Bytes that were taken and not yet handed out, and how many more may be taken.
#[derive(Drop)]
pub struct Buffer {
    piece: Vec<u8>,
    at: usize,
    end: usize,
    room: u64,
}

impl Model for Buffer {
    ghost Value = { Buffered };

    ghost view = { λ b. record { held = take (b.end - b.at) (drop b.at b.piece.items); room = b.room } };

    ghost invariant = { λ b. (b.at ≤ b.end) × (b.end ≤ vec_len b.piece) × (0 < vec_len b.piece) };
}

impl Buffer {
    pub fn new(alloc: Global, room: u64) -> Result<Buffer, AllocError>
        ensures held { IfOk result (λ b. b.held ≡ []) }
        ensures room { IfOk result (λ b. b.room ≡ room) }
    {
        Ok(Buffer {
            piece: vec![in alloc; 0; PIECE]?,
            at: 0,
            end: 0,
            room,
        })
    }

    fn is_empty(&self) -> bool
        ensures { IsTrue result ↔ (self.now.held ≡ []) }
    {
        self.at == self.end
    }

    fn is_full(&self) -> bool
        ensures { IsTrue result ↔ (self.now.room ≡ 0) }
    {
        self.room == 0
    }

    /// Reads the next piece.
    fn fill<S: Source>(&mut self, source: &mut S) -> Result<(), Failed>
        requires empty { self.old.held ≡ [] }
        requires room { 0 < self.old.room }
        ensures bytes { S.left source.old ≡ prepend_known self.new.held (S.left source.new) }
        ensures room { length self.new.held + self.new.room ≡ self.old.room }
        ensures end { OnOk result (self.new.held ≡ [] → IsAtEnd (S.left source.new)) }
        ensures none { OnErr result (self.new.held ≡ []) }
        ensures cause { HasCause (S.fault_count source.old) (S.fault_count source.new) result }
    {
        self.at = 0;
        self.end = 0;
        let size = (self.piece.len() as u64).min(self.room) as usize;
        let count = read_front(source, &mut self.piece, size)?;
        self.end = count;
        self.room -= count as u64;
        Ok(())
    }

    /// Puts what is held behind a text, up to the first line feed, as far as the text has at most so
    /// many bytes. Says whether there was a line feed, which goes too.
    pub fn take_line(&mut self, text: &mut Vec<u8>, limit: usize) -> Result<bool, AllocError>
        requires { vec_len text.old ≤ limit }
        ensures line { TakesLine self.old.held self.new.held text.old.items text.new.items limit result }
        ensures bound { vec_len text.new ≤ limit }
        ensures grows { vec_len text.old ≤ vec_len text.new }
        ensures room { self.new.room ≡ self.old.room }
    {
        let held = &self.piece[self.at..self.end];
        match line_end(held) {
            Some(size) => {
                append_within(text, &held[..size], limit)?;
                self.at += size + 1;
                Ok(true)
            }
            None => {
                append_within(text, held, limit)?;
                self.at = self.end;
                Ok(false)
            }
        }
    }
}

/// Reads into the front of a slice.
fn read_front<S: Source>(source: &mut S, piece: &mut [u8], size: usize) -> Result<usize, Failed>
    requires size { size ≤ length piece.old }
    requires some { 0 < size }
    ensures bound { IfOk result (λ n. n ≤ size) }
    ensures bytes { MatchResult result (λ n. S.left source.old ≡ prepend_known (take n piece.new) (S.left source.new)) (λ _. S.left source.new ≡ S.left source.old) }
    ensures end { IfOk result (λ n. n ≡ 0 → IsAtEnd (S.left source.new)) }
    ensures cause { HasCause (S.fault_count source.old) (S.fault_count source.new) result }
{
    source.read(&mut piece[..size])
}

/// How many bytes stand before the first line feed.
fn line_end(held: &[u8]) -> Option<usize>
    ensures found { MatchOption result (HasNoLineFeed held.now) (λ n. HasNoLineFeed (take n held.now) × (n < length held.now) × (drop n held.now ≡ 10 ∷ drop (n + 1) held.now)) }
{
    memchr(b'\n', held)
}

/// Puts bytes behind a text, as far as it has at most so many.
fn append_within(text: &mut Vec<u8>, more: &[u8], limit: usize) -> Result<(), AllocError>
    requires { vec_len text.old ≤ limit }
    ensures ok { OnOk result (text.new.items ≡ take limit (text.old.items ++ more.now)) }
    ensures bound { vec_len text.new ≤ limit }
    ensures grows { vec_len text.old ≤ vec_len text.new }
{
    let fits = more.len().min(limit - text.len());
    text.extend_from_slice(&more[..fits])?;
    Ok(())
}

/// Whether there are bytes to hand out.
#[derive(Clone, Copy, Debug)]
pub enum Supply {
    Held,
    /// The source has no more.
    End,
    /// As much was taken as may be.
    Full,
}

/// Sees to it that bytes are held, and takes no more than may be taken.
pub fn refill<S: Source>(source: &mut S, buffer: &mut Buffer) -> Result<Supply, Failed>
    ensures bytes { Supplies (rest (S.left source.old) buffer.old) (rest (S.left source.new) buffer.new) (reach buffer.old) (reach buffer.new) buffer.new.held result }
    ensures cause { HasCause (S.fault_count source.old) (S.fault_count source.new) result }
{
    if buffer.is_empty() {
        if buffer.is_full() {
            return Ok(Supply::Full);
        }
        buffer.fill(source)?;
        if buffer.is_empty() {
            return Ok(Supply::End);
        }
    }
    Ok(Supply::Held)
}
