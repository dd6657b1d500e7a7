//! Text of the table as bytes of an input: what stands in braces is a byte that a line can't hold.

use std::alloc::{AllocError, Global};

/// Puts the byte or the number that a name in braces stands for behind the input; false where there is none.
fn push_named(
    alloc: Global,
    input: &mut Vec<u8>,
    name: &str,
    turn: u64,
) -> Result<bool, AllocError> {
    match name {
        "return" => input.push(b'\r')?,
        "line" => input.push(b'\n')?,
        "tab" => input.push(b'\t')?,
        "space" => input.push(b' ')?,
        "brace" => input.push(b'{')?,
        "turn" => input.extend_from_slice(format!(in alloc; "{turn}")?.as_bytes())?,
        _ => match u8::from_str_radix(name, 16) {
            Ok(byte) if name.len() == 2 => input.push(byte)?,
            _ => return Ok(false),
        },
    }
    Ok(true)
}

/// Puts the text behind the input; false where a brace isn't closed, or a name in braces stands for nothing.
pub fn push_text(
    alloc: Global,
    input: &mut Vec<u8>,
    text: &str,
    turn: u64,
) -> Result<bool, AllocError> {
    let Some((plain, others)) = text.split_once('{') else {
        input.extend_from_slice(text.as_bytes())?;
        return Ok(true);
    };
    input.extend_from_slice(plain.as_bytes())?;
    for part in others.split('{') {
        let Some((name, plain)) = part.split_once('}') else {
            return Ok(false);
        };
        if !push_named(alloc, input, name, turn)? {
            return Ok(false);
        }
        input.extend_from_slice(plain.as_bytes())?;
    }
    Ok(true)
}
