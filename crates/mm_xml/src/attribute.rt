//! Names, and the attributes of a start tag with their values.

ghost use Rattle.std.specs.Prelude.{◌≡◌, [], length, IfOk};
ghost use Rattle.std.specs.Str.{chars, encode_utf8_all};
ghost use Rattle.mm_xml.specs.Syntax.{is_quote as quote_is, differ};
ghost use Rattle.mm_xml.specs.Inside.Lexing.{part_at, parts_at, value_at, attributes_at, equals_at, starts_name as name_starts};
ghost use Rattle.mm_xml.specs.Inside.Telling.{tell_parts, tell_character, tell_value, tell_attributes, attribute_at};
ghost use Rattle.mm_xml.specs.Inside.Lexemes.{Gets, GetsText, GetsCharacter, Rests};

use crate::leading::{name_span, space_span};
use crate::reference::{Part, part_of};
use crate::text::{after, first, is_empty, push};
use mm_list::Items;
use mm_tree::characters::{is_name_start, is_short_name, is_space};
use mm_tree::{Attribute, Attributes, Text};
use std::alloc::{AllocError, Global};
use std::collections::BTreeMap;

/// The characters as a text of their own.
pub fn text_of(alloc: Global, text: &str) -> Result<Text, AllocError>
    ensures { IfOk result (λ t. t ≡ encode_utf8_all (chars text.now)) }
{
    Text::from_str(alloc, text)
}

/// Whether no two attributes have one name.
pub fn are_distinct(alloc: Global, attributes: &[Attribute]) -> Result<bool, AllocError>
    ensures { IfOk result (λ b. b ≡ differ attributes.now) }
{
    let mut seen = BTreeMap::new(alloc);
    for attribute in attributes {
        if seen.insert(attribute.name.as_str(), ())?.is_some() {
            return Ok(false);
        }
    }
    Ok(true)
}

/// The character of a value that the part at the front stands for: a literal white space is a space.
fn character_of(text: &str) -> Option<(char, &str)>
    ensures { GetsCharacter result (tell_character (part_at (chars text.now))) }
{
    match part_of(text) {
        Some((Part::Itself(c), rest)) => Some((if is_space(c) { ' ' } else { c }, rest)),
        Some((Part::Named(c), rest)) => Some((c, rest)),
        None => None,
    }
}

/// The characters of a value up to the quote, and what comes after the quote.
fn value_to(alloc: Global, quote: char, text: &str) -> Result<Option<(String, &str)>, AllocError>
    ensures { IfOk result (λ r. GetsText r (tell_parts [] (parts_at (length (chars text.now)) quote (chars text.now)))) }
{
    let mut value = String::new(alloc);
    let mut rest = text;
    for _ in 0..text.len() {
        let Some((front, behind)) = first(rest) else {
            return Ok(None);
        };
        if front == quote {
            return Ok(Some((value, behind)));
        }
        let Some((c, behind)) = character_of(rest) else {
            return Ok(None);
        };
        push(&mut value, c)?;
        rest = behind;
    }
    Ok(None)
}

/// A value in its quotes.
#[tactic(auto, unfolding(crate::specs::Inside::Lexing::value_at))]
fn value_of(alloc: Global, text: &str) -> Result<Option<(Text, &str)>, AllocError>
    ensures { IfOk result (λ r. Gets r (tell_value (value_at (chars text.now)))) }
{
    let Some((quote, rest)) = first(text) else {
        return Ok(None);
    };
    if !is_quote(quote) {
        return Ok(None);
    }
    match value_to(alloc, quote, rest)? {
        Some((value, rest)) => Ok(Some((text_of(alloc, value.as_str())?, rest))),
        None => Ok(None),
    }
}

pub fn is_quote(c: char) -> bool
    ensures { result ≡ quote_is c }
{
    c == '"' || c == '\''
}

/// What comes after Eq, production 25.
pub fn after_equals(text: &str) -> Option<&str>
    ensures { Rests result (equals_at (chars text.now)) }
{
    let (_, rest) = space_span(text);
    let rest = after('=', rest)?;
    let (_, rest) = space_span(rest);
    Some(rest)
}

/// An attribute from its name on.
fn attribute_of(alloc: Global, text: &str) -> Result<Option<(Attribute, &str)>, AllocError>
    ensures { IfOk result (λ r. Gets r (attribute_at (chars text.now))) }
{
    let (name, rest) = name_span(text);
    if !is_short_name(name) {
        return Ok(None);
    }
    let Some(rest) = after_equals(rest) else {
        return Ok(None);
    };
    let Some((value, rest)) = value_of(alloc, rest)? else {
        return Ok(None);
    };
    let name = text_of(alloc, name)?;
    Ok(Some((Attribute { name, value }, rest)))
}

fn starts_name(text: &str) -> bool
    ensures { result ≡ name_starts (chars text.now) }
{
    match first(text) {
        Some((c, _)) => is_name_start(c),
        None => false,
    }
}

/// The attributes of a start tag, each after white space, and what comes after them.
pub fn attributes_of(alloc: Global, text: &str) -> Result<Option<(Attributes, &str)>, AllocError>
    ensures { IfOk result (λ r. Gets r (tell_attributes [] (attributes_at (length (chars text.now)) (chars text.now)))) }
{
    let mut attributes = Items::new(alloc);
    let mut rest = text;
    for _ in 0..text.len() {
        let (gap, more) = space_span(rest);
        if !starts_name(more) {
            return Ok(Some((attributes, rest)));
        }
        if is_empty(gap) {
            return Ok(None);
        }
        let Some((attribute, behind)) = attribute_of(alloc, more)? else {
            return Ok(None);
        };
        attributes.push(attribute)?;
        rest = behind;
    }
    Ok(Some((attributes, rest)))
}
