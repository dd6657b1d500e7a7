//! Which characters may stand in a document and in a name, which are white space, and what is a name (XML 1.0,
//! fifth edition).

ghost use Rattle.std.specs.Prelude.{◌≡◌};
ghost use Rattle.std.specs.List.{list_all};
ghost use Rattle.std.specs.Str.{chars};
ghost use Rattle.mm_tree.specs.Characters.{is_from as between_is, is_char as char_is, is_space as space_is, is_name_start as name_start_is, is_name_char as name_char_is, is_name as name_is, is_short_name as short_name_is};

use crate::plain::NAME_LIMIT;

pub fn between(low: u32, high: u32, c: char) -> bool
    ensures { result ≡ between_is low high c }
{
    low <= c as u32 && c as u32 <= high
}

/// Char, production 2.
pub fn is_char(c: char) -> bool
    ensures { result ≡ char_is c }
{
    c == '\t'
        || c == '\n'
        || c == '\r'
        || between(32, 55295, c)
        || between(57344, 65533, c)
        || between(65536, 1114111, c)
}

/// Whether all may stand in a document.
pub fn are_chars(text: &str) -> bool
    ensures { result ≡ list_all char_is (chars text.now) }
{
    text.chars().all(|c| is_char(c))
}

/// Whether all are white space.
pub fn is_blank(text: &str) -> bool
    ensures { result ≡ list_all space_is (chars text.now) }
{
    text.chars().all(|c| is_space(c))
}

pub fn is_space(c: char) -> bool
    ensures { result ≡ space_is c }
{
    c == ' ' || c == '\t' || c == '\r' || c == '\n'
}

pub fn is_name_start(c: char) -> bool
    ensures { result ≡ name_start_is c }
{
    c == ':'
        || between(65, 90, c)
        || c == '_'
        || between(97, 122, c)
        || between(192, 214, c)
        || between(216, 246, c)
        || between(248, 767, c)
        || between(880, 893, c)
        || between(895, 8191, c)
        || between(8204, 8205, c)
        || between(8304, 8591, c)
        || between(11264, 12271, c)
        || between(12289, 55295, c)
        || between(63744, 64975, c)
        || between(65008, 65533, c)
        || between(65536, 983039, c)
}

pub fn is_name_char(c: char) -> bool
    ensures { result ≡ name_char_is c }
{
    is_name_start(c)
        || c == '-'
        || c == '.'
        || between(48, 57, c)
        || c == '\u{B7}'
        || between(768, 879, c)
        || between(8255, 8256, c)
}

fn are_name_chars(text: &str) -> bool
    ensures { result ≡ list_all name_char_is (chars text.now) }
{
    text.chars().all(|c| is_name_char(c))
}

/// Name, production 5.
pub fn is_name(text: &str) -> bool
    ensures { result ≡ name_is (chars text.now) }
{
    let mut characters = text.chars();
    match characters.next() {
        Some(c) => is_name_start(c) && are_name_chars(characters.as_str()),
        None => false,
    }
}

/// The name of an element or of an attribute: no longer than the limit.
pub fn is_short_name(name: &str) -> bool
    ensures { result ≡ short_name_is (chars name.now) }
{
    is_name(name) && name.len() <= NAME_LIMIT
}
