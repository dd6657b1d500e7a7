//! The content of a node read from its bytes.

ghost use Rattle.std.specs.Prelude.{◌≡◌, ◌∷◌, [], IfOk, not};
ghost use Rattle.mm_tree.specs.declared.plain.Kind.TheVariants.{Words};
ghost use Rattle.mm_image.specs.Content.{IsKindOf};
ghost use Rattle.mm_image.specs.Fields.{Right, attributes_at, bytes_at, ended, element_at, is_wrong, kind_in, kind_told, may_stand, name_at, number_at, value_at};
ghost use Rattle.mm_image.specs.Inside.Getting.{Ends, Gets, GetsIfRoom, Lends};

use byteorder::{BigEndian, ByteOrder};
use mm_list::Items;
use mm_tree::characters::{are_chars, is_blank, is_short_name};
use mm_tree::{Attribute, Attributes, Kind, NAME_LIMIT, Text};
use std::alloc::{AllocError, Global};
use std::collections::BTreeMap;

/// The first byte of a text's content.
const TEXT_MARK: u8 = b'T';

/// The first byte of an element's content.
const ELEMENT_MARK: u8 = b'E';

/// Why no field stands at the front of bytes: it isn't whole yet, or it is whole and wrong; or there was no memory.
#[derive(Clone, Copy, Debug)]
enum Lack {
    Short,
    Wrong,
    Memory,
}

impl From<AllocError> for Lack {
    ghost use Rattle.std.specs.Prelude.{◌≡◌};
    ghost use Rattle.mm_image.specs.declared.fields.Lack.TheVariants.{Memory};

    ghost from_gives = { λ _ lack. lack ≡ Memory };

    fn from(_error: AllocError) -> Lack {
        Lack::Memory
    }
}

/// So many bytes.
fn bytes_at(count: usize, bytes: &[u8]) -> Result<(&[u8], &[u8]), Lack>
    ensures { Lends result (bytes_at count bytes.now) }
{
    match bytes.split_at_checked(count) {
        Some(parts) => Ok(parts),
        None => Err(Lack::Short),
    }
}

/// A number of two bytes.
fn two_at(bytes: &[u8]) -> Result<(u16, &[u8]), Lack>
    ensures { Gets result (number_at 2 bytes.now) }
{
    let (field, rest) = bytes_at(2, bytes)?;
    Ok((BigEndian::read_u16(field), rest))
}

/// A number of four bytes.
fn four_at(bytes: &[u8]) -> Result<(u32, &[u8]), Lack>
    ensures { Gets result (number_at 4 bytes.now) }
{
    let (field, rest) = bytes_at(4, bytes)?;
    Ok((BigEndian::read_u32(field), rest))
}

/// A name behind its length.
fn name_at(bytes: &[u8]) -> Result<(&str, &[u8]), Lack>
    ensures { Lends result (name_at [] bytes.now) }
{
    let (size, rest) = two_at(bytes)?;
    let size = size as usize;
    if size == 0 || size > NAME_LIMIT {
        return Err(Lack::Wrong);
    }
    let (name, rest) = bytes_at(size, rest)?;
    match str::from_utf8(name) {
        Ok(name) if is_short_name(name) => Ok((name, rest)),
        _ => Err(Lack::Wrong),
    }
}

/// A value behind its length.
fn value_at(bytes: &[u8]) -> Result<(&str, &[u8]), Lack>
    ensures { Lends result (value_at bytes.now) }
{
    let (size, rest) = four_at(bytes)?;
    let (value, rest) = bytes_at(size as usize, rest)?;
    match str::from_utf8(value) {
        Ok(value) if are_chars(value) => Ok((value, rest)),
        _ => Err(Lack::Wrong),
    }
}

fn attribute(alloc: Global, name: &str, value: &str) -> Result<Attribute, AllocError>
    ensures { IfOk result (λ a. a ≡ record { name = name.now; value = value.now }) }
{
    let name = Text::from_str(alloc, name)?;
    let value = Text::from_str(alloc, value)?;
    Ok(Attribute { name, value })
}

/// So many attributes, no two of which have one name.
fn attributes_at(alloc: Global, count: u32, bytes: &[u8]) -> Result<(Attributes, &[u8]), Lack>
    ensures { GetsIfRoom result (attributes_at count [] bytes.now) }
{
    let mut seen = BTreeMap::new(alloc);
    let mut attributes = Items::new(alloc);
    let mut rest = bytes;
    for _ in 0..count {
        let (name, behind) = name_at(rest)?;
        match seen.insert(name, ()) {
            Ok(None) => {}
            Ok(Some(())) => return Err(Lack::Wrong),
            Err(_) => return Err(Lack::Memory),
        }
        let (value, behind) = value_at(behind)?;
        attributes.push(attribute(alloc, name, value)?)?;
        rest = behind;
    }
    Ok((attributes, rest))
}

/// An element from its name on, where no bytes follow it.
fn element_in(alloc: Global, bytes: &[u8]) -> Result<Kind, Lack>
    ensures { Ends result (ended (element_at bytes.now)) }
{
    let (name, rest) = name_at(bytes)?;
    let (count, rest) = four_at(rest)?;
    let (attributes, rest) = attributes_at(alloc, count, rest)?;
    if !rest.is_empty() {
        return Err(Lack::Wrong);
    }
    let name = Text::from_str(alloc, name)?;
    Ok(Kind::Element { name, attributes })
}

/// A text, which is not blank.
fn text_in(alloc: Global, bytes: &[u8]) -> Result<Option<Kind>, AllocError>
    ensures { IfOk result (λ kind. kind ≡ kind_told (Right (Words bytes.now) [])) }
{
    match str::from_utf8(bytes) {
        Ok(text) if are_chars(text) && !is_blank(text) => {
            let text = Text::from_str(alloc, text)?;
            Ok(Some(Kind::Words { text }))
        }
        _ => Ok(None),
    }
}

/// The element that bytes behind its mark are, from its name on; None where they are none.
fn element_of(alloc: Global, bytes: &[u8]) -> Result<Option<Kind>, AllocError>
    ensures { IfOk result (λ kind. kind ≡ kind_told (ended (element_at bytes.now))) }
{
    match element_in(alloc, bytes) {
        Ok(kind) => Ok(Some(kind)),
        Err(Lack::Short | Lack::Wrong) => Ok(None),
        Err(Lack::Memory) => Err(AllocError),
    }
}

/// The kind of which the bytes are the content, from their first one on.
fn kind_in(alloc: Global, content: &[u8]) -> Result<Option<Kind>, AllocError>
    ensures { IfOk result (λ kind. kind ≡ kind_in content.now) }
{
    let Some((mark, rest)) = content.split_first() else {
        return Ok(None);
    };
    if *mark == TEXT_MARK {
        text_in(alloc, rest)
    } else if *mark == ELEMENT_MARK {
        element_of(alloc, rest)
    } else {
        Ok(None)
    }
}

/// The kind of which these are the whole content; None where they are that of none.
pub fn kind_of(alloc: Global, content: &[u8]) -> Result<Option<Kind>, AllocError>
    ensures told { IfOk result (λ kind. kind ≡ kind_in content.now) }
    ensures whole { IfOk result (IsKindOf content.now) }
{
    kind_in(alloc, content)
}

/// Whether no field of an element that begins so, from its name on, is whole and wrong.
fn may_be_element(alloc: Global, bytes: &[u8]) -> Result<bool, AllocError>
    ensures { IfOk result (λ may. may ≡ not (is_wrong (ended (element_at bytes.now)))) }
{
    match element_in(alloc, bytes) {
        Ok(_) | Err(Lack::Short) => Ok(true),
        Err(Lack::Wrong) => Ok(false),
        Err(Lack::Memory) => Err(AllocError),
    }
}

/// Whether a content may begin with these bytes: no field of it is whole and wrong.
pub fn may_stand(alloc: Global, content: &[u8]) -> Result<bool, AllocError>
    ensures { IfOk result (λ may. may ≡ may_stand content.now) }
{
    let Some((mark, rest)) = content.split_first() else {
        return Ok(true);
    };
    if *mark == TEXT_MARK {
        Ok(true)
    } else if *mark == ELEMENT_MARK {
        may_be_element(alloc, rest)
    } else {
        Ok(false)
    }
}
