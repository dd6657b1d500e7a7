//! Going over a text, which is borrowed: what its characters are, and what comes after them.

ghost use Rattle.std.specs.Prelude.{◌≡◌, ◌<◌, ◌++◌, [], ◌∷◌, ◌==◌, length, take, drop, OnOk, IsTrue};
ghost use Rattle.std.specs.Str.{chars, bytes_eq};
ghost use Rattle.mm_xml.specs.Letters.{is_ascii};
ghost use Rattle.mm_xml.specs.Inside.Lexing.{up_to as up_to_spec, after as after_spec};
ghost use Rattle.mm_xml.specs.Inside.Lexemes.{Takes, Splits, Rests, chars_of};
ghost use Rattle.mm_xml.specs.Inside.Prefix.{stripped};

use std::alloc::AllocError;

/// The first character, and what comes after it.
pub fn first(text: &str) -> Option<(char, &str)>
    ensures { Takes result (chars text.now) }
{
    let mut characters = text.chars();
    let c = characters.next()?;
    Some((c, characters.as_str()))
}

/// Whether no character is left.
pub fn is_empty(text: &str) -> bool
    ensures { result ≡ (length (chars text.now) == 0) }
{
    text.is_empty()
}

/// What comes after this character at the front.
pub fn after(p: char, text: &str) -> Option<&str>
    ensures { Rests result (after_spec p (chars text.now)) }
{
    match first(text) {
        Some((c, rest)) => { if c == p { Some(rest) } else { None } }
        None => None,
    }
}

/// Whether the text is this one, of ASCII.
pub fn is(text: &str, pattern: &str) -> bool
    requires ascii { IsTrue (is_ascii pattern.now) }
    ensures { result ≡ bytes_eq (chars text.now) pattern.now }
{
    text == pattern
}

/// What comes after the pattern, of ASCII, at the front.
pub fn strip<'a>(text: &'a str, pattern: &str) -> Option<&'a str>
    requires ascii { IsTrue (is_ascii pattern.now) }
    ensures { Rests result (stripped pattern.now (chars text.now)) }
{
    text.strip_prefix(pattern)
}

/// What stands before the first place of the pattern, of ASCII, and what stands after it.
pub fn up_to<'a>(text: &'a str, pattern: &str) -> Option<(&'a str, &'a str)>
    requires ascii { IsTrue (is_ascii pattern.now) }
    requires filled { 0 < length pattern.now }
    ensures { Splits result (up_to_spec pattern.now (chars text.now)) }
{
    text.split_once(pattern)
}

/// So many characters at the front, or all where there are fewer, and those after them.
pub fn split_after(len: usize, text: &str) -> (&str, &str)
    ensures front { chars result.0.now ≡ take len (chars text.now) }
    ensures back { chars result.1.now ≡ drop len (chars text.now) }
{
    let mut rest = text;
    for _ in 0..len {
        let Some((_, behind)) = first(rest) else {
            return (text, rest);
        };
        rest = behind;
    }
    text.split_at(text.len() - rest.len())
}

/// Puts a character behind the text.
pub fn push(text: &mut String, c: char) -> Result<(), AllocError>
    ensures { OnOk result (chars_of text.new ≡ chars_of text.old ++ c ∷ []) }
{
    text.push(c)
}

/// Puts characters behind the text.
pub fn push_all(text: &mut String, more: &str) -> Result<(), AllocError>
    ensures { OnOk result (chars_of text.new ≡ chars_of text.old ++ chars more.now) }
{
    text.push_str(more)
}

/// Lets all characters go.
pub fn clear(text: &mut String)
    ensures { chars_of text.new ≡ [] }
{
    text.clear();
}
