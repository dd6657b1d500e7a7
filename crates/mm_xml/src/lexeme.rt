//! Lexemes: tags, character data, references and other markup, each as the reader needs it.

ghost use Rattle.std.specs.Prelude.{◌≡◌, [], ◌∷◌, length, map, IfOk};
ghost use Rattle.std.specs.Str.{chars};
ghost use Rattle.mm_xml.specs.Letters.{lower as lower_is};
ghost use Rattle.mm_xml.specs.Syntax.{is_reserved as reserved_is, is_rest as rest_is, letter_is};
ghost use Rattle.mm_xml.specs.Inside.Lexing.{after as after_at, ending_at, start_at, close_at, comment_at, section_at, instruction_at, marked_at, markup_at, token_at};
ghost use Rattle.mm_xml.specs.Inside.Telling.{tell, sign_at};
ghost use Rattle.mm_xml.specs.Inside.Passages.{passage_at};
ghost use Rattle.mm_xml.specs.Inside.Lexemes.{Finds, Gets, Skips};

use crate::attribute::{are_distinct, attributes_of, text_of};
use crate::doctype::after_doctype;
use crate::leading::{name_span, space_span};
use crate::reference::{Part, ordinary_span, part_of};
use crate::text::{after, first, is_empty, strip, up_to};
use mm_tree::characters::{are_chars, is_name, is_short_name, is_space};
use mm_tree::{Attributes, Text};
use std::alloc::{AllocError, Global};

/// What stands at the front of the rest: a character of character data, itself or by a reference; the
/// characters of a section, or a run of plain ones; a comment or an instruction, which are read over; the
/// tag before an element, or of an empty one; the tag behind an element; a document type declaration.
#[derive(Drop)]
pub enum Lexeme<'a> {
    Character(char),
    Named(char),
    Passage(&'a str),
    Skipped,
    Open(bool, Text, Attributes),
    Close(Text),
    Doctype,
}

/// Where a start tag ends: whether its element is empty, and what comes after it.
fn ending_of(text: &str) -> Option<(bool, &str)>
    ensures { Gets result (ending_at (chars text.now)) }
{
    match first(text) {
        Some(('>', rest)) => Some((false, rest)),
        Some(('/', rest)) => match after('>', rest) {
            Some(rest) => Some((true, rest)),
            None => None,
        },
        _ => None,
    }
}

/// A start tag from its name on.
#[tactic(auto, unfolding(crate::specs::Inside::Lexing::start_at))]
fn start_of(alloc: Global, text: &str) -> Result<Option<(Lexeme<'_>, &str)>, AllocError>
    ensures { IfOk result (λ r. Finds r (tell (start_at (chars text.now)))) }
{
    let (name, rest) = name_span(text);
    if !is_short_name(name) {
        return Ok(None);
    }
    let Some((attributes, rest)) = attributes_of(alloc, rest)? else {
        return Ok(None);
    };
    if !are_distinct(alloc, attributes.as_slice())? {
        return Ok(None);
    }
    let (_, rest) = space_span(rest);
    let Some((empty, rest)) = ending_of(rest) else {
        return Ok(None);
    };
    let name = text_of(alloc, name)?;
    Ok(Some((Lexeme::Open(empty, name, attributes), rest)))
}

/// What comes after `</`.
#[tactic(auto, unfolding(crate::specs::Inside::Lexing::close_at))]
fn close_of(alloc: Global, text: &str) -> Result<Option<(Lexeme<'_>, &str)>, AllocError>
    ensures { IfOk result (λ r. Finds r (tell (close_at (chars text.now)))) }
{
    let (name, rest) = name_span(text);
    if !is_short_name(name) {
        return Ok(None);
    }
    let (_, rest) = space_span(rest);
    let Some(rest) = after('>', rest) else {
        return Ok(None);
    };
    Ok(Some((Lexeme::Close(text_of(alloc, name)?), rest)))
}

/// What comes after a comment, of which `<!--` is read.
#[tactic(auto, unfolding(crate::specs::Inside::Lexing::comment_at))]
fn comment_of(text: &str) -> Option<&str>
    ensures { Skips result (tell (comment_at (chars text.now))) }
{
    let (inner, rest) = up_to(text, "--")?;
    if are_chars(inner) {
        after('>', rest)
    } else {
        None
    }
}

/// What comes after `<![CDATA[`.
#[tactic(auto, unfolding(crate::specs::Inside::Lexing::section_at))]
fn section_of(text: &str) -> Option<(Lexeme<'_>, &str)>
    ensures { Finds result (tell (section_at (chars text.now))) }
{
    let (inner, rest) = up_to(text, "]]>")?;
    if are_chars(inner) {
        Some((Lexeme::Passage(inner), rest))
    } else {
        None
    }
}

/// Whether a name is `xml`, in any case.
fn is_reserved(name: &str) -> bool
    ensures { result ≡ reserved_is (chars name.now) }
{
    let Some((x, rest)) = first(name) else {
        return false;
    };
    let Some((m, rest)) = first(rest) else {
        return false;
    };
    let Some((l, rest)) = first(rest) else {
        return false;
    };
    match first(rest) {
        Some(_) => false,
        None => is_letter('x', x) && is_letter('m', m) && is_letter('l', l),
    }
}

/// Whether a character is this letter, in either case.
pub fn is_letter(letter: char, c: char) -> bool
    ensures { result ≡ letter_is letter c }
{
    c.to_ascii_lowercase() == letter
}

/// Whether an instruction has nothing behind its name, or white space and more.
fn is_rest(text: &str) -> bool
    ensures { result ≡ rest_is (chars text.now) }
{
    match first(text) {
        Some((c, rest)) => is_space(c) && are_chars(rest),
        None => true,
    }
}

/// What comes after an instruction, of which `<?` is read.
#[tactic(auto, unfolding(crate::specs::Inside::Lexing::instruction_at))]
fn instruction_of(text: &str) -> Option<&str>
    ensures { Skips result (tell (instruction_at (chars text.now))) }
{
    let (name, rest) = name_span(text);
    if !is_name(name) || is_reserved(name) {
        return None;
    }
    let (inner, rest) = up_to(rest, "?>")?;
    if is_rest(inner) { Some(rest) } else { None }
}

/// What comes after `<!`.
#[tactic(auto, unfolding(crate::specs::Inside::Lexing::marked_at))]
fn marked_of(text: &str) -> Option<(Lexeme<'_>, &str)>
    ensures { Finds result (tell (marked_at (chars text.now))) }
{
    if let Some(rest) = strip(text, "--") {
        return match comment_of(rest) {
            Some(rest) => Some((Lexeme::Skipped, rest)),
            None => None,
        };
    }
    if let Some(rest) = strip(text, "[CDATA[") {
        return section_of(rest);
    }
    let rest = strip(text, "DOCTYPE")?;
    match after_doctype(rest) {
        Some(rest) => Some((Lexeme::Doctype, rest)),
        None => None,
    }
}

/// What comes after `<`.
#[tactic(auto, unfolding(crate::specs::Inside::Lexing::markup_at))]
fn markup_of(alloc: Global, text: &str) -> Result<Option<(Lexeme<'_>, &str)>, AllocError>
    ensures { IfOk result (λ r. Finds r (tell (markup_at (chars text.now)))) }
{
    match first(text) {
        Some(('/', rest)) => close_of(alloc, rest),
        Some(('!', rest)) => Ok(marked_of(rest)),
        Some(('?', rest)) => match instruction_of(rest) {
            Some(rest) => Ok(Some((Lexeme::Skipped, rest))),
            None => Ok(None),
        },
        Some(_) => start_of(alloc, text),
        None => Ok(None),
    }
}

/// The lexeme at the front, and the characters after it.
#[tactic(auto, unfolding(crate::specs::Inside::Lexing::token_at))]
pub fn next_lexeme(alloc: Global, text: &str) -> Result<Option<(Lexeme<'_>, &str)>, AllocError>
    ensures { IfOk result (λ r. Finds r (sign_at (chars text.now))) }
{
    match first(text) {
        Some(('<', rest)) => markup_of(alloc, rest),
        Some(_) => match part_of(text) {
            Some((Part::Itself(c), rest)) => Ok(Some((Lexeme::Character(c), rest))),
            Some((Part::Named(c), rest)) => Ok(Some((Lexeme::Named(c), rest))),
            None => Ok(None),
        },
        None => Ok(None),
    }
}

/// What stands at the front, and the characters after it. Inside an element, a run of plain characters is
/// taken whole.
pub fn next_passage(
    alloc: Global,
    inside: bool,
    text: &str,
) -> Result<Option<(Lexeme<'_>, &str)>, AllocError>
    ensures { IfOk result (λ r. Finds r (passage_at inside (chars text.now))) }
{
    if inside {
        let (front, rest) = ordinary_span(text);
        if !is_empty(front) {
            return Ok(Some((Lexeme::Passage(front), rest)));
        }
    }
    next_lexeme(alloc, text)
}
