//! The text of components, written and read.

ghost use Rattle.std.specs.Prelude.{◌≡◌, ◌++◌, OnOk, IfOk, ◌==◌, string_bytes, flat_map, map, option_map};
ghost use Rattle.std.specs.List.{slice_split};
ghost use Rattle.std.specs.Fmt.{signed_decimal};
ghost use Rattle.mm_label.specs.Text.{text_of, dotted};
ghost use Rattle.mm_label.specs.Inside.Numbers.{IsOnlyNumber, AreOnlyNumbers, IsOnlyReading};

use crate::component::is_in_range;
use std::alloc::{AllocError, Global};
use std::fmt::Write;

/// Puts the component in decimal behind the text.
fn push_decimal(out: &mut String, c: i64) -> Result<(), AllocError>
    ensures { OnOk result (string_bytes out.new ≡ string_bytes out.old ++ signed_decimal c) }
{
    write!(out, "{c}")
}

/// Puts a full stop and the component behind the text, for each component.
fn push_dotted(out: &mut String, components: &[i64]) -> Result<(), AllocError>
    ensures { OnOk result (string_bytes out.new ≡ string_bytes out.old ++ flat_map dotted components.now) }
{
    for c in components {
        out.push('.')?;
        push_decimal(out, *c)?;
    }
    Ok(())
}

/// The canonical text of the components.
pub fn text_of(alloc: Global, components: &[i64]) -> Result<String, AllocError>
    ensures { IfOk result (λ text. string_bytes text ≡ text_of components.now) }
{
    let mut text = String::new(alloc);
    if let [first, rest @ ..] = components {
        push_decimal(&mut text, *first)?;
        push_dotted(&mut text, rest)?;
    }
    Ok(text)
}

/// The pieces of the text between full stops.
fn pieces(alloc: Global, text: &str) -> Result<Vec<&str>, AllocError>
    ensures { IfOk result (λ v. map (λ piece. piece.now) v.items ≡ slice_split (λ b. b == 46) text.now) }
{
    text.split('.').collect(alloc)
}

/// The component that has this text in decimal, or None where there is none. A leading zero or plus
/// may be taken here.
fn number(piece: &str) -> Option<i64>
    ensures { IsOnlyNumber result piece.now }
{
    match piece.parse::<i64>() {
        Ok(c) => { if is_in_range(c) { Some(c) } else { None } }
        Err(_) => None,
    }
}

/// The components that the pieces stand for, or None where a piece stands for none.
fn numbers(alloc: Global, pieces: &[&str]) -> Result<Option<Vec<i64>>, AllocError>
    ensures { IfOk result (λ found. AreOnlyNumbers (option_map (λ v. v.items) found) (map (λ piece. piece.now) pieces.now)) }
{
    let mut found = Vec::new(alloc);
    for piece in pieces {
        match number(piece) {
            Some(c) => found.push(c)?,
            None => return Ok(None),
        }
    }
    Ok(Some(found))
}

/// The components that the text can be the canonical text of, or None where there are none.
pub fn read(alloc: Global, text: &str) -> Result<Option<Vec<i64>>, AllocError>
    ensures { IfOk result (λ found. IsOnlyReading (option_map (λ v. v.items) found) text.now) }
{
    let pieces = pieces(alloc, text)?;
    numbers(alloc, pieces.as_slice())
}
