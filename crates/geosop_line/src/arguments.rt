//! The words as clap reads them.
ghost use Rattle.std.specs.Prelude.{◌≡◌, [], IfOk, IfErr, map, string_bytes};
ghost use Rattle.clap.specs.Matches.{found_of};
ghost use Rattle.clap.specs.Walk.{rows_of, rule_of};
ghost use Rattle.clap.specs.Simple.{app_of};
ghost use Rattle.geosop_line.specs.Arguments.{command as command_so, arguments as arguments_so, letter_option as letter_option_so};
ghost use Rattle.geosop_line.specs.Arguments.{named_option as named_option_so, flag as flag_so, matches, refusals};
ghost use Rattle.geosop_line.specs.Steps.{IsToldOf};

use crate::config::{LineFault, UsageFault};
use clap::error::ErrorKind;
use clap::{Arg, ArgAction, ArgMatches, Command};
use std::alloc::{AllocError, Global};

/// An option with one value, by its letter.
fn letter_option<'a>(alloc: Global, id: &'a str, letter: char) -> Arg<'a>
    ensures rule { rule_of result ≡ letter_option_so id.entry.now letter }
{
    Arg::new(alloc, id).short(letter)
}

/// An option with one value, by its name.
fn named_option<'a>(alloc: Global, id: &'a str) -> Arg<'a>
    ensures rule { rule_of result ≡ named_option_so id.entry.now }
{
    Arg::new(alloc, id).long(id)
}

/// A flag, by its name.
fn flag<'a>(alloc: Global, id: &'a str) -> Arg<'a>
    ensures rule { rule_of result ≡ flag_so id.entry.now }
{
    Arg::new(alloc, id).long(id).action(ArgAction::SetTrue)
}

/// The program's arguments.
fn arguments<'a>(alloc: Global) -> Result<Vec<Arg<'a>>, AllocError>
    ensures rules { IfOk result (λ v. map rule_of v.items ≡ arguments_so) }
{
    let arguments = vec![in alloc;
        letter_option(alloc, "a", 'a'),
        letter_option(alloc, "b", 'b'),
        flag(alloc, "quiet").short('q'),
        named_option(alloc, "rule"),
        flag(alloc, "prepared"),
        named_option(alloc, "threads"),
        named_option(alloc, "scale"),
        named_option(alloc, "sample"),
        Arg::new(alloc, "op"),
        Arg::new(alloc, "arg"),
    ]?;
    Ok(arguments)
}

/// The program's arguments, without help and version of clap's own.
fn command<'a>(alloc: Global) -> Result<Command<'a>, AllocError>
    ensures command { IfOk result (λ c. app_of c ≡ command_so) }
{
    Command::new(alloc, "geosop")
        .disable_help_flag(true)
        .disable_version_flag(true)
        .args(arguments(alloc)?)
}

impl From<clap::Error> for LineFault {
    ghost use Rattle.std.specs.Prelude.{◌≡◌};
    ghost use Rattle.clap.specs.Values.{kind_of};
    ghost use Rattle.geosop_line.specs.Steps.{told_as};

    ghost from_gives = { λ error e. e ≡ told_as (kind_of error) };

    fn from(error: clap::Error) -> LineFault {
        match error.kind() {
            ErrorKind::OutOfMemory => LineFault::NoMemory,
            _ => LineFault::Usage(UsageFault::Line),
        }
    }
}

/// The matches of the words, the first of which is the program's name.
///
/// # Errors
/// A line fault where clap refuses the words, or want of memory.
pub(crate) fn matches_in<'a>(
    alloc: Global,
    words: &'a [String],
) -> Result<ArgMatches<'a>, LineFault>
    ensures matches { IfOk result (λ m. rows_of (found_of m) ≡ matches (map string_bytes words.entry.now)) }
    ensures taken { IfOk result (λ m. refusals (map string_bytes words.entry.now) ≡ []) }
    ensures refused { IfErr result (IsToldOf (refusals (map string_bytes words.entry.now))) }
{
    let matches = command(alloc)?.try_get_matches_from(words)?;
    Ok(matches)
}
