//! What is read out of values.

ghost use Rattle.std.specs.Prelude.{◌≡◌, IfOk};
ghost use Rattle.mm_image.specs.Content.{count_in, name_in, sized_name};

use byteorder::{BigEndian, ByteOrder};
use mm_tree::Text;
use mm_tree::characters::is_short_name;
use std::alloc::{AllocError, Global};

/// The name behind its length in two bytes.
fn sized_name(alloc: Global, bytes: &[u8]) -> Result<Option<Text>, AllocError>
    ensures { IfOk result (λ name. name ≡ sized_name bytes.now) }
{
    if bytes.len() < 2 {
        return Ok(None);
    }
    let size = BigEndian::read_u16(bytes) as usize;
    if bytes.len() - 2 < size {
        return Ok(None);
    }
    match str::from_utf8(&bytes[2..2 + size]) {
        Ok(name) if is_short_name(name) => Ok(Some(Text::from_str(alloc, name)?)),
        _ => Ok(None),
    }
}

/// A node's name from the value of its first chunk, and `#text` for a text; None where neither stands there.
pub fn name_of(alloc: Global, chunk: &[u8]) -> Result<Option<Text>, AllocError>
    ensures { IfOk result (λ name. name ≡ name_in chunk.now) }
{
    match chunk.split_first() {
        Some((b'T', _)) => Ok(Some(Text::from_str(alloc, "#text")?)),
        Some((b'E', rest)) => sized_name(alloc, rest),
        _ => Ok(None),
    }
}

/// The number that eight bytes spell; None where there aren't eight.
pub fn count_of(value: &[u8]) -> Option<u64>
    ensures { result ≡ count_in value.now }
{
    if value.len() != 8 {
        return None;
    }
    Some(BigEndian::read_u64(value))
}
