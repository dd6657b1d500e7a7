//! Chunk entries gathered node by node, in the order of their keys.

ghost use Rattle.std.specs.Prelude.{◌≡◌, ◌<◌, ◌≤◌, ◌^◌, IfOk, length};
ghost use Rattle.mm_label.specs.Label.{IsLabel};
ghost use Rattle.mm_image.specs.Keys.{chunk_key};
ghost use Rattle.mm_image.specs.Inside.Cutting.{join};
ghost use Rattle.mm_image.specs.Inside.Gathered.{AreGroups, PlaceOf, Takes};

use crate::parsed::{Parsed, parse_key};
use crate::pieces::PIECE_LIMIT;
use mm_host::Bytes;
use mm_label::Label;
use mm_label::laws::one_label;
use mm_list::Items;
use std::alloc::{AllocError, Global};

/// A node's label and the pieces of its content that were read.
#[derive(Drop)]
pub struct Group {
    pub label: Label,
    pub pieces: Items<Bytes>,
}

/// Nodes in the order of the document.
pub type Groups = Items<Group>;

/// Puts a piece that isn't a node's first to the last node, unless it doesn't go on there.
fn put_next(
    groups: &mut Groups,
    label: Label,
    number: u32,
    piece: Bytes,
) -> Result<bool, AllocError>
    requires groups { AreGroups groups.old }
    requires label { IsLabel label }
    requires later { 0 < number }
    requires piece { (1 ≤ length piece) × (length piece ≤ 1000) }
    ensures { IfOk result (Takes groups.old groups.new (chunk_key label number, piece)) }
{
    one_label();
    let Some(
        Group {
            label: open,
            mut pieces,
        },
    ) = groups.pop()
    else {
        return Ok(false);
    };
    let Some(last) = pieces.pop() else {
        return Ok(false);
    };
    let stood = pieces.len() + 1;
    if open != label || last.len() != PIECE_LIMIT || stood != number as usize {
        return Ok(false);
    }
    pieces.push(last)?;
    pieces.push(piece)?;
    groups.push(Group {
        label: open,
        pieces,
    })?;
    Ok(true)
}

/// Puts a node's first piece.
fn put_first(
    alloc: Global,
    groups: &mut Groups,
    label: Label,
    piece: Bytes,
) -> Result<bool, AllocError>
    requires groups { AreGroups groups.old }
    requires label { IsLabel label }
    requires piece { (1 ≤ length piece) × (length piece ≤ 1000) }
    ensures { IfOk result (Takes groups.old groups.new (chunk_key label 0, piece)) }
{
    let mut pieces = Items::new(alloc);
    pieces.push(piece)?;
    groups.push(Group { label, pieces })?;
    Ok(true)
}

/// The label and the number of a chunk key; None where the key is none.
fn place_of(alloc: Global, key: &[u8]) -> Result<Option<(Label, u32)>, AllocError>
    ensures { IfOk result (PlaceOf key.now) }
{
    match parse_key(alloc, key)? {
        Some(Parsed::Chunk { label, number }) => Ok(Some((label, number))),
        Some(Parsed::Occurrence { .. }) => Ok(None),
        Some(Parsed::Count { .. }) => Ok(None),
        None => Ok(None),
    }
}

/// Puts an entry behind those that were gathered. False where no chunks of nodes begin so.
pub fn take(
    alloc: Global,
    groups: &mut Groups,
    key: &[u8],
    value: &[u8],
) -> Result<bool, AllocError>
    requires groups { AreGroups groups.old }
    ensures { IfOk result (Takes groups.old groups.new (key.now, value.now)) }
{
    if value.is_empty() || value.len() > PIECE_LIMIT {
        return Ok(false);
    }
    let Some((label, number)) = place_of(alloc, key)? else {
        return Ok(false);
    };
    let piece = Bytes::from_slice(alloc, value)?;
    if number == 0 {
        put_first(alloc, groups, label, piece)
    } else {
        put_next(groups, label, number, piece)
    }
}

/// The pieces one behind the other.
pub fn joined(alloc: Global, pieces: &[Bytes]) -> Result<Vec<u8>, AllocError>
    ensures { IfOk result (λ bytes. bytes.items ≡ join pieces.now) }
{
    let mut bytes = Vec::new(alloc);
    for piece in pieces {
        bytes.extend_from_slice(piece.as_slice())?;
    }
    Ok(bytes)
}
