//! Character data and references, each as the character that it stands for.

ghost use Rattle.std.specs.Prelude.{◌≡◌, ◌≤◌, nat_lt};
ghost use Rattle.std.specs.List.{list_all, prefix_len};
ghost use Rattle.std.specs.Str.{chars};
ghost use Rattle.mm_xml.specs.Letters.{referred as referred_by, by_name as by_name_is, by_number as by_number_is, numbered as numbered_is, is_digits as digits_are, digit as digit_is, digits_value as number_is};
ghost use Rattle.mm_xml.specs.Syntax.{not_semicolon, is_literal as literal_is};
ghost use Rattle.mm_xml.specs.Inside.Lexing.{span, part_at, reference_at};
ghost use Rattle.mm_xml.specs.Inside.Telling.{tell_part};
ghost use Rattle.mm_xml.specs.Inside.Lexemes.{FindsPart};
ghost use Rattle.mm_xml.specs.Inside.Numbers.{capped};
ghost use Rattle.mm_xml.specs.Inside.Passages.{is_ordinary as ordinary_is};

use crate::text::{after, first, is, split_after};
use mm_tree::characters::{between, is_char};

/// A character of a text or of a value: itself, or by a reference.
#[derive(Clone, Copy, Debug)]
pub enum Part {
    Itself(char),
    Named(char),
}

fn is_literal(c: char) -> bool
    ensures { result ≡ literal_is c }
{
    is_char(c) && c != '<' && c != '&'
}

fn is_ordinary(c: char) -> bool
    ensures { result ≡ ordinary_is c }
{
    // Letters, of which most texts are, take one test.
    between(94, 55295, c) || (is_literal(c) && c != '>' && c != ']')
}

/// The characters at the front that stand for themselves wherever data may stand, and those after them.
pub fn ordinary_span(text: &str) -> (&str, &str)
    ensures front { chars result.0.now ≡ (span ordinary_is (chars text.now)).0 }
    ensures back { chars result.1.now ≡ (span ordinary_is (chars text.now)).1 }
{
    let mut rest = text;
    while let Some((c, behind)) = first(rest) {
        if !is_ordinary(c) {
            break;
        }
        rest = behind;
    }
    text.split_at(text.len() - rest.len())
}

fn by_name(body: &str) -> Option<char>
    ensures { result ≡ by_name_is (chars body.now) }
{
    if is(body, "lt") {
        Some('<')
    } else if is(body, "gt") {
        Some('>')
    } else if is(body, "amp") {
        Some('&')
    } else if is(body, "apos") {
        Some('\'')
    } else if is(body, "quot") {
        Some('"')
    } else {
        None
    }
}

/// The number that a digit stands for, of either case, and 16 where it is none.
fn digit(c: char) -> u32
    ensures value { result ≡ digit_is c }
    ensures small { result ≤ 16 }
{
    if between(48, 57, c) {
        c as u32 - 48
    } else if between(65, 70, c) {
        c as u32 - 55
    } else if between(97, 102, c) {
        c as u32 - 87
    } else {
        16
    }
}

fn are_digits(base: u32, digits: &str) -> bool
    ensures { result ≡ digits_are base (chars digits.now) }
{
    match first(digits) {
        Some(_) => all_digits(base, digits),
        None => false,
    }
}

fn all_digits(base: u32, digits: &str) -> bool
    ensures { result ≡ list_all (λ c. nat_lt (digit_is c) base) (chars digits.now) }
{
    digits.chars().all(|c| digit(c) < base)
}

/// The number of the digits, or one above all characters where it is larger.
fn number(base: u32, digits: &str) -> u32
    requires least { 1 ≤ base }
    requires most { base ≤ 16 }
    ensures { result ≡ capped (number_is base 0 (chars digits.now)) }
{
    let mut n: u32 = 0;
    let mut rest = digits;
    while let Some((c, behind)) = first(rest) {
        n = (base * n + digit(c)).min(1114112);
        rest = behind;
    }
    n
}

fn numbered(base: u32, digits: &str) -> Option<char>
    requires least { 1 ≤ base }
    requires most { base ≤ 16 }
    ensures { result ≡ numbered_is base (chars digits.now) }
{
    if !are_digits(base, digits) {
        return None;
    }
    match char::from_u32(number(base, digits)) {
        Some(c) if is_char(c) => Some(c),
        _ => None,
    }
}

/// The character of a reference by number, of which the number sign is read.
fn by_number(body: &str) -> Option<char>
    ensures { result ≡ by_number_is (chars body.now) }
{
    match first(body) {
        Some(('x', digits)) => numbered(16, digits),
        Some(_) => numbered(10, body),
        None => None,
    }
}

/// The character that a reference names, by what stands between `&` and `;`.
fn referred(body: &str) -> Option<char>
    ensures { result ≡ referred_by (chars body.now) }
{
    match first(body) {
        Some(('#', rest)) => by_number(rest),
        Some(_) => by_name(body),
        None => None,
    }
}

fn body_len(text: &str) -> usize
    ensures { result ≡ prefix_len not_semicolon (chars text.now) }
{
    text.chars().take_while(|c| *c != ';').count()
}

fn body_span(text: &str) -> (&str, &str)
    ensures front { chars result.0.now ≡ (span not_semicolon (chars text.now)).0 }
    ensures back { chars result.1.now ≡ (span not_semicolon (chars text.now)).1 }
{
    split_after(body_len(text), text)
}

/// What comes after `&`.
#[tactic(auto, unfolding(crate::specs::Inside::Lexing::reference_at))]
fn reference_of(text: &str) -> Option<(Part, &str)>
    ensures { FindsPart result (tell_part (reference_at (chars text.now))) }
{
    let (body, rest) = body_span(text);
    let Some(c) = referred(body) else {
        return None;
    };
    match after(';', rest) {
        Some(rest) => Some((Part::Named(c), rest)),
        None => None,
    }
}

/// The part at the front, and the characters after it.
#[tactic(auto, unfolding(crate::specs::Inside::Lexing::part_at))]
pub fn part_of(text: &str) -> Option<(Part, &str)>
    ensures { FindsPart result (tell_part (part_at (chars text.now))) }
{
    match first(text) {
        Some(('&', rest)) => reference_of(rest),
        Some((c, rest)) => {
            if is_literal(c) {
                Some((Part::Itself(c), rest))
            } else {
                None
            }
        }
        None => None,
    }
}
