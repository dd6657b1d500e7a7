//! The words of the program, read as one simple command.

ghost use Rattle.std.specs.Prelude.{◌≡◌, IfOk, map, Err, string_bytes};
ghost use Rattle.clap.specs.Words.{found_of, rows_of};
ghost use Rattle.mm_options.specs.Options.{IsInRange, IsTaken, kwstore, long_rule, number_in, options_in, options_of};
ghost use Rattle.mm_options.specs.Inside.Command.{IsArgOf, IsCommandOf, ReadsAs, ReadsOptions, SpellsNumber};
ghost use Rattle.mm_options.specs.declared.words.WordsError.TheVariants.{Usage};

use crate::options::Options;
use clap::builder::ValueParser;
use clap::error::ErrorKind;
use clap::{Arg, ArgAction, ArgMatches, Command, value_parser};
use std::alloc::{AllocError, Global};
use thiserror::Error;

/// Why words give no options.
#[derive(Debug, Drop, Error)]
pub enum WordsError {
    /// The command doesn't take them. A wish for help is one of these.
    #[error("the words are no options of this program")]
    Usage,
    #[error("memory ran out")]
    Memory,
}

/// A long option of this name.
fn long_option<'a>(alloc: Global, name: &'a str, parser: ValueParser<'a>) -> Arg<'a>
    ensures { IsArgOf result (long_rule name.entry.now parser.entry) }
{
    Arg::new(alloc, name).long(name).value_parser(parser)
}

/// The command: long options alone, each at most once.
fn kwstore<'a>(alloc: Global) -> Result<Command<'a>, AllocError>
    ensures { IfOk result (λ c. IsCommandOf c kwstore) }
{
    let slice = long_option(alloc, "slice", value_parser!(u64).range(0..=1024));
    let limit = long_option(
        alloc,
        "limit",
        value_parser!(u64).range(1024..=1_099_511_627_776),
    );
    let read_only = long_option(alloc, "read-only", value_parser!(bool)).action(ArgAction::SetTrue);
    let sample = long_option(alloc, "sample", value_parser!(u64));
    Command::new(alloc, "kwstore")
        .arg(slice)?
        .arg(limit)?
        .arg(read_only)?
        .arg(sample)
}

/// The number that was given to an option.
fn number(matches: &ArgMatches, name: &str) -> Option<u64>
    requires { ReadsAs (found_of matches.now) name.now SpellsNumber }
    ensures { result ≡ number_in name.now (rows_of (found_of matches.now)) }
{
    matches.get_one::<u64>(name)
}

/// What a parse found.
fn found_options(matches: &ArgMatches) -> Options
    requires { ReadsOptions (found_of matches.now) }
    ensures options { result ≡ options_in (rows_of (found_of matches.now)) }
    ensures in_range { IsInRange result }
{
    let standard = Options::new();
    Options {
        slice: number(matches, "slice").unwrap_or(standard.slice.into()) as u32,
        limit: number(matches, "limit").unwrap_or(standard.limit),
        read_only: matches.get_flag("read-only"),
        sample: number(matches, "sample"),
    }
}

/// The options of the words that the program was called with, its name first.
pub fn read_options(alloc: Global, words: &[String]) -> Result<Options, WordsError>
    ensures taken { IfOk result (λ _. IsTaken (map string_bytes words.now)) }
    ensures options { IfOk result (λ options. options ≡ options_of (map string_bytes words.now)) }
    ensures in_range { IfOk result IsInRange }
    ensures usage { result ≡ Err Usage → IsTaken (map string_bytes words.now) → ⊥ }
{
    let Ok(command) = kwstore(alloc) else {
        return Err(WordsError::Memory);
    };
    match command.try_get_matches_from(words) {
        Ok(matches) => Ok(found_options(&matches)),
        Err(error) if error.kind() == ErrorKind::OutOfMemory => Err(WordsError::Memory),
        Err(_error) => Err(WordsError::Usage),
    }
}
