//! The pieces of a node that is read.

ghost use Rattle.std.specs.Prelude.{◌≡◌, ◌≤◌, ◌<◌, ◌+◌, ◌-◌, ◌*◌, ◌^◌, ◌==◌, IfErr, IfOk, None, drop, length, take};
ghost use Rattle.mm_image.specs.Content.{piece_limit};
ghost use Rattle.mm_image.specs.Keys.{chunk_key};
ghost use Rattle.mm_check.specs.Reading.{last_piece, next_piece};
ghost use Rattle.mm_check.specs.Inside.Reader.{Grows, as_open, may_follow, or_named, unfinished, wrong_in};
ghost use Rattle.mm_check.specs.Inside.Stopping.{WantsAlone};

use crate::place::is_piece;
use crate::started::Started;
use crate::stop::{Stop, not_due};
use crate::verdict::Named;
use mm_image::{PIECE_LIMIT, chunk_key, may_stand};
use mm_label::Label;
use std::alloc::{AllocError, Global};

/// The first byte of a text's content.
pub const TEXT_MARK: u8 = b'T';

/// Whether the last piece is as long as may be.
fn is_full(started: &Started) -> bool
    ensures { result ≡ (length (as_open started.now).last == piece_limit) }
{
    started.content.len() == PIECE_LIMIT * (started.number as usize + 1)
}

/// Names the last piece.
fn last_piece(alloc: Global, started: &Started) -> Result<Named, AllocError>
    ensures { IfOk result (λ named. named ≡ last_piece (as_open started.now)) }
{
    let key = chunk_key(alloc, &started.label, started.number)?;
    let start = PIECE_LIMIT * started.number as usize;
    not_due(alloc, key.as_slice(), &started.content.as_slice()[start..])
}

/// Names the piece that is due behind the last one, whose bytes aren't known.
fn next_piece(alloc: Global, label: &Label, number: u32) -> Result<Named, AllocError>
    requires { number < 2 ^ 32 - 1 }
    ensures { IfOk result (λ named. named ≡ record { key = chunk_key label.now (number + 1); stored = None; due = None }) }
{
    let key = chunk_key(alloc, label, number + 1)?;
    Ok(Named {
        key,
        stored: None,
        due: None,
    })
}

/// What is named where a content ends that is that of no kind and has no wrong piece.
fn unfinished(alloc: Global, started: &Started) -> Result<Named, AllocError>
    ensures { IfOk result (λ named. named ≡ unfinished (as_open started.now)) }
{
    let is_text = started.content.as_slice().first() == Some(&TEXT_MARK);
    if is_full(started) && started.number < u32::MAX && !is_text {
        next_piece(alloc, &started.label, started.number)
    } else {
        last_piece(alloc, started)
    }
}

/// The content up to the end of the piece of this number.
fn front_to(content: &[u8], number: u32) -> &[u8]
    ensures { result.now ≡ take (piece_limit * (number + 1)) content.now }
{
    let end = PIECE_LIMIT * (number as usize + 1);
    &content[..content.len().min(end)]
}

/// The piece of this number.
fn piece_of(content: &[u8], number: u32) -> &[u8]
    requires { piece_limit * number ≤ length content.now }
    ensures { result.now ≡ take piece_limit (drop (piece_limit * number) content.now) }
{
    let rest = &content[PIECE_LIMIT * number as usize..];
    &rest[..rest.len().min(PIECE_LIMIT)]
}

/// Names the first piece with which the content is wrong.
fn first_wrong(alloc: Global, started: &Started) -> Result<Option<Named>, AllocError>
    ensures { IfOk result (λ named. named ≡ wrong_in (as_open started.now)) }
{
    let content = started.content.as_slice();
    for number in 0..u64::from(started.number) + 1 {
        let number = number as u32;
        if !may_stand(alloc, front_to(content, number))? {
            let key = chunk_key(alloc, &started.label, number)?;
            let named = not_due(alloc, key.as_slice(), piece_of(content, number))?;
            return Ok(Some(named));
        }
    }
    Ok(None)
}

/// The first piece with which the content is wrong, or else this.
pub fn wrong_or(alloc: Global, started: &Started, named: Named) -> Result<Named, AllocError>
    ensures { IfOk result (λ told. told ≡ or_named (wrong_in (as_open started.now)) named) }
{
    match first_wrong(alloc, started)? {
        Some(wrong) => Ok(wrong),
        None => Ok(named),
    }
}

/// What is named where a content ends that is that of no kind.
pub fn named_at_end(alloc: Global, started: &Started) -> Result<Named, AllocError>
    ensures { IfOk result (λ told. told ≡ or_named (wrong_in (as_open started.now)) (unfinished (as_open started.now))) }
{
    let named = unfinished(alloc, started)?;
    wrong_or(alloc, started, named)
}

/// Whether the number and the value are those of a next piece, but for what it spells.
fn may_follow(started: &Started, number: u32, value: &[u8]) -> bool
    ensures { result ≡ may_follow (as_open started.now) number value.now }
{
    let is_next = number > started.number && number - started.number == 1;
    is_next && is_full(started) && is_piece(value)
}

/// Puts a next piece behind those that were read.
pub fn go_on(
    alloc: Global,
    started: Started,
    number: u32,
    key: &[u8],
    value: &[u8],
) -> Result<Started, Stop>
    requires { chunk_key started.label number ≡ key.now }
    ensures grows { Grows (as_open started) number (key.now, value.now) result }
    ensures wants { IfErr result WantsAlone }
{
    if !may_follow(&started, number, value) {
        let named = not_due(alloc, key, value)?;
        return Err(Stop::Named(wrong_or(alloc, &started, named)?));
    }
    let Started {
        label,
        number: _,
        mut content,
    } = started;
    content.extend_from_slice(value)?;
    Ok(Started {
        label,
        number,
        content,
    })
}
