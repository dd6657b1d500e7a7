//! The document type declaration, which is read over.

ghost use Rattle.std.specs.Prelude.{◌≡◌};
ghost use Rattle.std.specs.List.{prefix_len};
ghost use Rattle.std.specs.Str.{chars};
ghost use Rattle.mm_tree.specs.Characters.{is_char as char_is};
ghost use Rattle.mm_xml.specs.Letters.{is_gap as gap_is};
ghost use Rattle.mm_xml.specs.Syntax.{is_public as public_is};
ghost use Rattle.mm_xml.specs.Inside.Lexing.{span, quoted_char, quoted_at, spaced_quoted_at, external_at, doctype_at};
ghost use Rattle.mm_xml.specs.Inside.Telling.{rest_of, both_rest};
ghost use Rattle.mm_xml.specs.Inside.Lexemes.{Rests};

use crate::attribute::is_quote;
use crate::leading::{name_span, space_span};
use crate::text::{after, first, split_after, strip};
use mm_tree::characters::{between, is_blank, is_char, is_name};

/// Whether there is white space and nothing else.
pub fn is_gap(text: &str) -> bool
    ensures { result ≡ gap_is (chars text.now) }
{
    match first(text) {
        Some(_) => is_blank(text),
        None => false,
    }
}

/// PubidChar, production 13.
fn is_public(c: char) -> bool
    ensures { result ≡ public_is c }
{
    c == ' '
        || c == '\r'
        || c == '\n'
        || between(97, 122, c)
        || between(65, 90, c)
        || between(39, 59, c)
        || c == '!'
        || c == '='
        || c == '?'
        || c == '@'
        || c == '#'
        || c == '$'
        || c == '_'
        || c == '%'
}

pub fn text_len(quote: char, text: &str) -> usize
    ensures { result ≡ prefix_len (quoted_char char_is quote) (chars text.now) }
{
    text.chars()
        .take_while(|c| is_char(*c) && *c != quote)
        .count()
}

fn public_len(quote: char, text: &str) -> usize
    ensures { result ≡ prefix_len (quoted_char public_is quote) (chars text.now) }
{
    text.chars()
        .take_while(|c| is_public(*c) && *c != quote)
        .count()
}

/// What comes after a SystemLiteral, production 11.
fn after_system(text: &str) -> Option<&str>
    ensures { Rests result (rest_of (quoted_at char_is (chars text.now))) }
{
    let (quote, rest) = first(text)?;
    if !is_quote(quote) {
        return None;
    }
    let (_, rest) = split_after(text_len(quote, rest), rest);
    after(quote, rest)
}

/// What comes after a PubidLiteral, production 12.
fn after_public(text: &str) -> Option<&str>
    ensures { Rests result (rest_of (quoted_at public_is (chars text.now))) }
{
    let (quote, rest) = first(text)?;
    if !is_quote(quote) {
        return None;
    }
    let (_, rest) = split_after(public_len(quote, rest), rest);
    after(quote, rest)
}

/// What comes after white space and a SystemLiteral.
fn after_spaced_system(text: &str) -> Option<&str>
    ensures { Rests result (rest_of (spaced_quoted_at char_is (chars text.now))) }
{
    let (gap, rest) = space_span(text);
    if is_gap(gap) {
        after_system(rest)
    } else {
        None
    }
}

/// What comes after white space and a PubidLiteral.
fn after_spaced_public(text: &str) -> Option<&str>
    ensures { Rests result (rest_of (spaced_quoted_at public_is (chars text.now))) }
{
    let (gap, rest) = space_span(text);
    if is_gap(gap) {
        after_public(rest)
    } else {
        None
    }
}

/// What comes after white space and a PubidLiteral, and white space and a SystemLiteral.
fn after_both(text: &str) -> Option<&str>
    ensures { Rests result (both_rest (chars text.now)) }
{
    match after_spaced_public(text) {
        Some(rest) => after_spaced_system(rest),
        None => None,
    }
}

/// What comes after an ExternalID, production 75, where one stands behind white space.
#[tactic(auto, unfolding(crate::specs::Inside::Lexing::external_at))]
fn after_external(text: &str) -> Option<&str>
    ensures { Rests result (rest_of (external_at (chars text.now))) }
{
    let (gap, rest) = space_span(text);
    if let Some(rest) = strip(rest, "SYSTEM") {
        return if is_gap(gap) {
            after_spaced_system(rest)
        } else {
            None
        };
    }
    if let Some(rest) = strip(rest, "PUBLIC") {
        return if is_gap(gap) { after_both(rest) } else { None };
    }
    Some(text)
}

/// What comes after a document type declaration without an internal subset, of which `<!DOCTYPE` is read.
#[tactic(auto, unfolding(crate::specs::Inside::Lexing::doctype_at))]
pub fn after_doctype(text: &str) -> Option<&str>
    ensures { Rests result (rest_of (doctype_at (chars text.now))) }
{
    let (gap, rest) = space_span(text);
    if !is_gap(gap) {
        return None;
    }
    let (name, rest) = name_span(rest);
    if !is_name(name) {
        return None;
    }
    let rest = after_external(rest)?;
    let (_, rest) = space_span(rest);
    after('>', rest)
}
