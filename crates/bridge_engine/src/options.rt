//! The options that the arguments spell, and their values.

ghost use Rattle.std.specs.Prelude.{◌≡◌, MatchOption, IfOk, map, option_map, codes};
ghost use Rattle.std.specs.List.{list_any};
ghost use Rattle.std.specs.String.{string_bytes};
ghost use Rattle.clap.specs.Words.{first_value, found_of};
ghost use Rattle.bridge_engine.specs.Options.{OptionsGiven, GiveValues};
ghost use Rattle.bridge_engine.specs.Commands.{values_in, is_only_dashes};
ghost use Rattle.bridge_engine.specs.WordsFound.{given_of};

use crate::command::options_taken;
use clap::ArgMatches;
use clap::error::ErrorKind;
use std::alloc::{AllocError, Global};

/// The texts of the option values, by option name; `None` if the option is absent.
#[derive(Clone, Copy, PartialEq, Eq)]
pub struct Found<'a> {
    /// The format that is read.
    pub from: Option<&'a str>,
    /// The format that is written.
    pub to: Option<&'a str>,
    /// The GPS reference week.
    pub week: Option<&'a str>,
    /// The leap seconds of a header.
    pub leap: Option<&'a str>,
    /// The date of a header.
    pub date: Option<&'a str>,
    /// The seed of a generated capture.
    pub seed: Option<&'a str>,
    /// The number of satellites of each system in a generated capture.
    pub sats: Option<&'a str>,
}

/// The values of the options that the arguments spell; `None` if they spell no options or repeat a
/// name.
///
/// # Errors
///
/// `AllocError` when there is no memory to parse the arguments.
pub fn options_of<'a>(alloc: Global, words: &'a [String]) -> Result<Option<Found<'a>>, AllocError>
    ensures { IfOk result (λ r. MatchOption r
        ((given : OptionsGiven) → ¬ GiveValues (map string_bytes words.now) given)
        (λ found. GiveValues (map string_bytes words.now) (given_of found))) }
{
    if has_only_dashes(words) {
        return Ok(None);
    }
    let command = options_taken(alloc)?;
    match command.try_get_matches_from(words) {
        Ok(matches) => Ok(Some(found_in(&matches))),
        Err(error) if error.kind() == ErrorKind::OutOfMemory => Err(AllocError),
        Err(_) => Ok(None),
    }
}

// Whether one of the words is `-` or `--`: neither is an option, but `clap` accepts both.
fn has_only_dashes(words: &[String]) -> bool
    ensures { result ≡ list_any is_only_dashes (map string_bytes words.now) }
{
    match words.split_first() {
        None => false,
        Some((word, rest)) => is_dashes(word.as_bytes()) || has_only_dashes(rest),
    }
}

// Whether the word is `-` or `--`.
fn is_dashes(word: &[u8]) -> bool
    ensures { result ≡ is_only_dashes word.now }
{
    word == b"-".as_slice() || word == b"--".as_slice()
}

// The values that a parse found.
fn found_in<'a>(matches: &ArgMatches<'a>) -> Found<'a>
    ensures { given_of result ≡ values_in (first_value (found_of matches.now)) }
{
    Found {
        from: matches.get_str("from"),
        to: matches.get_str("to"),
        week: matches.get_str("week"),
        leap: matches.get_str("leap"),
        date: matches.get_str("date"),
        seed: matches.get_str("seed"),
        sats: matches.get_str("sats"),
    }
}
