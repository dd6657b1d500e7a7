//! The content of a node.

ghost use Rattle.std.specs.Prelude.{◌≡◌, ◌++◌, ◌<◌, ◌^◌, OnOk, IfOk, IsTrue, flat_map, length, ◌∷◌};
ghost use Rattle.std.specs.List.{list_all};
ghost use Rattle.byteorder.specs.Endian.{big_bytes};
ghost use Rattle.mm_tree.specs.Validity.{has_valid_parts, is_valid_attribute};
ghost use Rattle.mm_image.specs.Content.{attribute_bytes, content, sized};
ghost use Rattle.mm_image.specs.Inside.Cutting.{pieces_of};

use crate::pieces::Pieces;
use byteorder::{BigEndian, ByteOrder};
use mm_host::Bytes;
use mm_list::Items;
use mm_tree::{Attribute, Kind, Text};
use std::alloc::{AllocError, Global};

/// Puts a name behind its length in two bytes.
fn push_name(pieces: &mut Pieces, name: &Text) -> Result<(), AllocError>
    requires { length name.now < 2 ^ 16 }
    ensures { OnOk result (pieces.new ≡ pieces.old ++ sized 2 name.now) }
{
    let mut size = [0u8; 2];
    BigEndian::write_u16(&mut size, name.len() as u16);
    pieces.push(&size)?;
    pieces.push(name.as_bytes())
}

/// Puts a value behind its length in four bytes.
fn push_value(pieces: &mut Pieces, value: &Text) -> Result<(), AllocError>
    requires { length value.now < 2 ^ 32 }
    ensures { OnOk result (pieces.new ≡ pieces.old ++ sized 4 value.now) }
{
    let mut size = [0u8; 4];
    BigEndian::write_u32(&mut size, value.len() as u32);
    pieces.push(&size)?;
    pieces.push(value.as_bytes())
}

fn push_attributes(pieces: &mut Pieces, attributes: &[Attribute]) -> Result<(), AllocError>
    requires { IsTrue (list_all is_valid_attribute attributes.now) }
    ensures { OnOk result (pieces.new ≡ pieces.old ++ flat_map attribute_bytes attributes.now) }
{
    for attribute in attributes {
        push_name(pieces, &attribute.name)?;
        push_value(pieces, &attribute.value)?;
    }
    Ok(())
}

/// Puts an element's name, the number of its attributes in four bytes, and these.
fn push_element(
    pieces: &mut Pieces,
    name: &Text,
    attributes: &[Attribute],
) -> Result<(), AllocError>
    requires name { length name.now < 2 ^ 16 }
    requires attributes { IsTrue (list_all is_valid_attribute attributes.now) }
    requires count { length attributes.now < 2 ^ 32 }
    ensures { OnOk result (pieces.new ≡ pieces.old ++ (69 ∷ sized 2 name.now ++ (big_bytes 4 (length attributes.now) ++ flat_map attribute_bytes attributes.now))) }
{
    let mut count = [0u8; 4];
    BigEndian::write_u32(&mut count, attributes.len() as u32);
    pieces.push(b"E")?;
    push_name(pieces, name)?;
    pieces.push(&count)?;
    push_attributes(pieces, attributes)
}

/// The content of a node, in pieces.
pub fn pieces_of(alloc: Global, kind: &Kind) -> Result<Items<Bytes>, AllocError>
    requires { IsTrue (has_valid_parts kind.now) }
    ensures { IfOk result (λ pieces. pieces ≡ pieces_of (content kind.now)) }
{
    let mut pieces = Pieces::new(alloc);
    match kind {
        Kind::Element { name, attributes } => {
            push_element(&mut pieces, name, attributes.as_slice())?;
        }
        Kind::Words { text } => {
            pieces.push(b"T")?;
            pieces.push(text.as_bytes())?;
        }
    }
    pieces.finish()
}
