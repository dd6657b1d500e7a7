// Reading a command line.
ghost use Rattle.std.specs.Prelude.{◌≡◌, IsTrue, Some};
ghost use Rattle.mm_command.specs.declared.line.Line.TheVariants.{Search};
ghost use Rattle.std.specs.Io.BufRead.{strip_last};
ghost use Rattle.std.specs.List.{list_all};
ghost use Rattle.mm_command.specs.Lines.{after_spaces, before_spaces, is_printable, first_word, behind, place_of, one_word, alone, insert_line, line_by, line_of_text, line_of, Gives};

use crate::line::{Find, Line, LineError};
use mm_tree::{Place, Text};
use std::alloc::Global;

/// How many bytes a line has at most, without its end.
const LINE_LIMIT: usize = 65_536;

/// A line without one carriage return at its end.
pub fn without_return(line: &[u8]) -> &[u8]
    ensures { result.now ≡ strip_last 13 line.now }
{
    match line {
        [text @ .., b'\r'] => text,
        _ => line,
    }
}

fn are_printable(text: &[u8]) -> bool
    ensures { result ≡ list_all is_printable text.now }
{
    text.iter().all(|b| *b >= b' ' && *b != 0x7F)
}

fn after_spaces(text: &str) -> &str
    ensures { result.now ≡ after_spaces text.now }
{
    let mut rest = text;
    while let Some(more) = rest.strip_prefix(' ') {
        rest = more;
    }
    rest
}

#[tactic(auto, using(crate::proofs::Spaces::one_behind))]
fn before_spaces(text: &str) -> &str
    ensures { result.now ≡ before_spaces text.now }
{
    let mut rest = text;
    while let Some(more) = rest.strip_suffix(' ') {
        rest = more;
    }
    rest
}

/// The first word of a text, and what stands behind it and the spaces there.
fn split_word(text: &str) -> (&str, &str)
    ensures word { result.0.now ≡ first_word text.now }
    ensures behind { result.1.now ≡ behind text.now }
{
    match text.split_once(' ') {
        None => (text, ""),
        Some((word, rest)) => (word, after_spaces(rest)),
    }
}

fn place_of(word: &str) -> Option<Place>
    ensures { result ≡ place_of word.now }
{
    match word {
        "before" => Some(Place::Before),
        "after" => Some(Place::After),
        "first" => Some(Place::First),
        "last" => Some(Place::Last),
        _ => None,
    }
}

/// The text, where it is one word.
#[tactic(auto, using(crate::proofs::Spaces::is_one_word))]
fn one_word(alloc: Global, text: &str) -> Result<Text, LineError>
    ensures { Gives result (one_word text.now) }
{
    if text.is_empty() || text.contains(' ') {
        return Err(LineError::NotACommand);
    }
    Ok(Text::from_str(alloc, text)?)
}

/// The line of nothing but its first word.
fn alone(line: Line, rest: &str) -> Result<Line, LineError>
    ensures { Gives result (alone line rest.now) }
{
    if rest.is_empty() {
        Ok(line)
    } else {
        Err(LineError::NotACommand)
    }
}

fn insert_line(alloc: Global, rest: &str) -> Result<Line, LineError>
    ensures { Gives result (insert_line rest.now) }
{
    let (word, label) = split_word(rest);
    match place_of(word) {
        None => Err(LineError::NotACommand),
        Some(place) => {
            let label = one_word(alloc, label)?;
            Ok(Line::Insert { place, label })
        }
    }
}

fn search_line(alloc: Global, find: Find, text: &str) -> Result<Line, LineError>
    ensures { Gives result (Some (Search find text.now)) }
{
    let text = Text::from_str(alloc, text)?;
    Ok(Line::Search { find, text })
}

/// The line of a first word and what stands behind it.
fn line_by(alloc: Global, word: &str, rest: &str) -> Result<Line, LineError>
    ensures { Gives result (line_by word.now rest.now) }
{
    match word {
        "" => alone(Line::Blank, rest),
        "load" => alone(Line::Load, rest),
        "insert" => insert_line(alloc, rest),
        "delete" => Ok(Line::Delete {
            label: one_word(alloc, rest)?,
        }),
        "replace" => Ok(Line::Replace {
            label: one_word(alloc, rest)?,
        }),
        "slca" => search_line(alloc, Find::Slca, rest),
        "elca" => search_line(alloc, Find::Elca, rest),
        "maxmatch" => search_line(alloc, Find::Maxmatch, rest),
        "maxmatch-elca" => search_line(alloc, Find::MaxmatchElca, rest),
        "show" => Ok(Line::Show {
            label: one_word(alloc, rest)?,
        }),
        "check" => alone(Line::Check, rest),
        "quit" => alone(Line::Quit, rest),
        _ => Err(LineError::NotACommand),
    }
}

/// The line of words parted by spaces, perhaps with spaces at both ends.
fn words_line(alloc: Global, text: &str) -> Result<Line, LineError>
    ensures { Gives result (line_of_text text.now) }
{
    let (word, rest) = split_word(before_spaces(after_spaces(text)));
    line_by(alloc, word, rest)
}

/// What a command line asks for. `line` comes without its line feed, and may end with a carriage return.
#[tactic(auto, using(crate::proofs::Spaces::is_read, crate::proofs::Spaces::is_no_text), unfolding(crate::specs::Lines::line_of))]
pub fn read_line(alloc: Global, line: &[u8]) -> Result<Line, LineError>
    ensures { Gives result (line_of line.now) }
{
    let text = without_return(line);
    if text.len() > LINE_LIMIT || !are_printable(text) {
        return Err(LineError::NotACommand);
    }
    match str::from_utf8(text) {
        Err(_) => Err(LineError::NotACommand),
        Ok(text) => words_line(alloc, text),
    }
}
