//! A name and white space at the front of a text.

ghost use Rattle.std.specs.Prelude.{◌≡◌};
ghost use Rattle.std.specs.List.{prefix_len};
ghost use Rattle.mm_tree.specs.Characters.{is_space as space_is, is_name_char as name_char_is};
ghost use Rattle.std.specs.Str.{chars};
ghost use Rattle.mm_xml.specs.Inside.Lexing.{span};

use crate::text::split_after;
use mm_tree::characters::{is_name_char, is_space};

fn name_len(text: &str) -> usize
    ensures { result ≡ prefix_len name_char_is (chars text.now) }
{
    text.chars().take_while(|c| is_name_char(*c)).count()
}

fn space_len(text: &str) -> usize
    ensures { result ≡ prefix_len space_is (chars text.now) }
{
    text.chars().take_while(|c| is_space(*c)).count()
}

/// The characters of a name at the front, and those after them.
pub fn name_span(text: &str) -> (&str, &str)
    ensures front { chars result.0.now ≡ (span name_char_is (chars text.now)).0 }
    ensures back { chars result.1.now ≡ (span name_char_is (chars text.now)).1 }
{
    split_after(name_len(text), text)
}

/// The white space at the front, and what comes after it.
pub fn space_span(text: &str) -> (&str, &str)
    ensures front { chars result.0.now ≡ (span space_is (chars text.now)).0 }
    ensures back { chars result.1.now ≡ (span space_is (chars text.now)).1 }
{
    split_after(space_len(text), text)
}
