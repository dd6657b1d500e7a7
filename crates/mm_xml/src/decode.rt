//! From bytes to characters: UTF-8, the byte order mark and line ends.

ghost use Rattle.std.specs.Prelude.{◌≡◌, IfOk, IsTrue, false, true};
ghost use Rattle.std.specs.Str.{chars};
ghost use Rattle.mm_xml.specs.Grammar.{normal, without_mark as mark_dropped};
ghost use Rattle.mm_xml.specs.Inside.Lexemes.{chars_of};
ghost use Rattle.mm_xml.specs.Inside.Builds.{Decodes};

use crate::text::{first, push};
use mm_tree::characters::are_chars;
use std::alloc::{AllocError, Global};

/// The characters behind a byte order mark.
fn without_mark(text: &str) -> &str
    ensures { chars result.now ≡ mark_dropped (chars text.now) }
{
    match first(text) {
        Some(('\u{feff}', rest)) => rest,
        _ => text,
    }
}

/// The text behind a byte order mark, where the bytes are UTF-8 and all characters may stand in a document.
pub fn decode(bytes: &[u8]) -> Option<&str>
    ensures { Decodes result bytes.now }
{
    let Ok(text) = str::from_utf8(bytes) else {
        return None;
    };
    if are_chars(text) {
        Some(without_mark(text))
    } else {
        None
    }
}

/// Whether each line end is a line feed already.
pub fn has_line_feeds(text: &str) -> bool
    ensures { IsTrue result → normal false (chars text.now) ≡ chars text.now }
{
    !text.contains('\r')
}

/// With each carriage return, and the line feed after it, as a line feed: End-of-Line Handling, 2.11.
pub fn with_line_feeds(alloc: Global, text: &str) -> Result<String, AllocError>
    ensures { IfOk result (λ lines. chars_of lines ≡ normal false (chars text.now)) }
{
    let mut lines = String::new(alloc);
    let mut returned = false;
    let mut rest = text;
    while let Some((c, behind)) = first(rest) {
        if c == '\r' {
            push(&mut lines, '\n')?;
        } else if !(returned && c == '\n') {
            push(&mut lines, c)?;
        }
        returned = c == '\r';
        rest = behind;
    }
    Ok(lines)
}
