//! The XML declaration: what stands behind one that is well formed.

ghost use Rattle.std.specs.Prelude.{◌≡◌, IsTrue};
ghost use Rattle.std.specs.List.{list_all};
ghost use Rattle.std.specs.Str.{chars};
ghost use Rattle.mm_tree.specs.Characters.{is_from as between_is};
ghost use Rattle.mm_xml.specs.Letters.{is_ascii};
ghost use Rattle.mm_xml.specs.Syntax.{are_digits as digits_are, is_version as version_is, is_encoding as encoding_is, is_standalone as standalone_is, encoding_word, standalone_word};
ghost use Rattle.mm_xml.specs.Inside.Declaring.{quoted_text_at, setting_at, passed, after_version as version_after, after_encoding as encoding_after, after_standalone as standalone_after, after_declaration as declaration_after};
ghost use Rattle.mm_xml.specs.Inside.Lexemes.{Rests, Splits};

use crate::attribute::{after_equals, is_quote};
use crate::doctype::{is_gap, text_len};
use crate::leading::space_span;
use crate::lexeme::is_letter;
use crate::text::{after, first, is, split_after, strip};
use mm_tree::characters::between;

/// The text in quotes, and what comes after the quotes.
fn quoted_of(text: &str) -> Option<(&str, &str)>
    ensures { Splits result (quoted_text_at (chars text.now)) }
{
    let (quote, rest) = first(text)?;
    if !is_quote(quote) {
        return None;
    }
    let (inner, rest) = split_after(text_len(quote, rest), rest);
    match after(quote, rest) {
        Some(rest) => Some((inner, rest)),
        None => None,
    }
}

/// What a word behind white space is set to, and what comes after it.
fn setting_of<'a>(word: &str, text: &'a str) -> Option<(&'a str, &'a str)>
    requires ascii { IsTrue (is_ascii word.now) }
    ensures { Splits result (setting_at word.now (chars text.now)) }
{
    let (gap, rest) = space_span(text);
    if !is_gap(gap) {
        return None;
    }
    let rest = strip(rest, word)?;
    let rest = after_equals(rest)?;
    quoted_of(rest)
}

fn all_digits(text: &str) -> bool
    ensures { result ≡ list_all (between_is 48 57) (chars text.now) }
{
    text.chars().all(|c| between(48, 57, c))
}

/// Whether there are digits and nothing else.
fn are_digits(text: &str) -> bool
    ensures { result ≡ digits_are (chars text.now) }
{
    match first(text) {
        Some(_) => all_digits(text),
        None => false,
    }
}

/// VersionNum, production 26.
fn is_version(text: &str) -> bool
    ensures { result ≡ version_is (chars text.now) }
{
    let Some((one, rest)) = first(text) else {
        return false;
    };
    let Some((dot, rest)) = first(rest) else {
        return false;
    };
    one == '1' && dot == '.' && are_digits(rest)
}

/// Whether an encoding is `UTF-8`, in either case.
fn is_encoding(text: &str) -> bool
    ensures { result ≡ encoding_is (chars text.now) }
{
    let Some((u, rest)) = first(text) else {
        return false;
    };
    let Some((t, rest)) = first(rest) else {
        return false;
    };
    let Some((f, rest)) = first(rest) else {
        return false;
    };
    let Some((dash, rest)) = first(rest) else {
        return false;
    };
    let Some((eight, rest)) = first(rest) else {
        return false;
    };
    match first(rest) {
        Some(_) => false,
        None => {
            is_letter('u', u)
                && is_letter('t', t)
                && is_letter('f', f)
                && is_letter('-', dash)
                && is_letter('8', eight)
        }
    }
}

/// Whether a document stands alone, or doesn't.
fn is_standalone(text: &str) -> bool
    ensures { result ≡ standalone_is (chars text.now) }
{
    is(text, "yes") || is(text, "no")
}

/// What comes after VersionInfo, production 24.
fn after_version(text: &str) -> Option<&str>
    ensures { Rests result (version_after (chars text.now)) }
{
    match setting_of("version", text) {
        Some((value, rest)) => { if is_version(value) { Some(rest) } else { None } }
        None => None,
    }
}

/// What comes after EncodingDecl, production 80.
fn behind_encoding(text: &str) -> Option<&str>
    ensures { Rests result (passed encoding_is (setting_at encoding_word (chars text.now))) }
{
    match setting_of("encoding", text) {
        Some((value, rest)) => { if is_encoding(value) { Some(rest) } else { None } }
        None => None,
    }
}

/// What comes after SDDecl, production 32.
fn behind_standalone(text: &str) -> Option<&str>
    ensures { Rests result (passed standalone_is (setting_at standalone_word (chars text.now))) }
{
    match setting_of("standalone", text) {
        Some((value, rest)) => {
            if is_standalone(value) {
                Some(rest)
            } else {
                None
            }
        }
        None => None,
    }
}

/// What comes after EncodingDecl, where one stands first.
fn after_encoding(text: &str) -> Option<&str>
    ensures { Rests result (encoding_after (chars text.now)) }
{
    let (_, rest) = space_span(text);
    match strip(rest, "encoding") {
        Some(_) => behind_encoding(text),
        None => Some(text),
    }
}

/// What comes after SDDecl, where one stands first.
fn after_standalone(text: &str) -> Option<&str>
    ensures { Rests result (standalone_after (chars text.now)) }
{
    let (_, rest) = space_span(text);
    match strip(rest, "standalone") {
        Some(_) => behind_standalone(text),
        None => Some(text),
    }
}

/// What comes after XMLDecl, production 23.
#[tactic(auto, unfolding(crate::specs::Inside::Declaring::after_declaration))]
pub fn after_declaration(text: &str) -> Option<&str>
    ensures { Rests result (declaration_after (chars text.now)) }
{
    let rest = strip(text, "<?xml")?;
    let rest = after_version(rest)?;
    let rest = after_encoding(rest)?;
    let rest = after_standalone(rest)?;
    let (_, rest) = space_span(rest);
    strip(rest, "?>")
}
