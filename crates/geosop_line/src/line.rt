//! The reading of a command line.
ghost use Rattle.std.specs.Prelude.{◌≡◌, ◌⊎◌, ◌↔◌, List, ℕ, [], Some, Ok, Err, IsTrue, IfOk, IfErr, map, codes, string_bytes};
ghost use Rattle.clap.specs.Matches.{found_of};
ghost use Rattle.clap.specs.Walk.{rows_of};
ghost use Rattle.geosop_line.specs.Arguments.{value_of};
ghost use Rattle.geosop_line.specs.CommandLine.{IsConfig, IsFaultOf, IsFirstFault, IsLine, IsLineFault};
ghost use Rattle.geosop_line.specs.declared.config.Config.{Config};
ghost use Rattle.geosop_line.specs.declared.config.UsageFault.{UsageFault};

use crate::arguments::matches_in;
use crate::config::{Config, LineFault, UsageFault};
use crate::figures::figures_of;
use crate::operation::query_of;
use crate::settings::{rule_of, scale_of, threads_of};
use clap::ArgMatches;
use std::alloc::Global;

/// Whether a flag is there.
fn is_set(matches: &ArgMatches<'_>, id: &str) -> bool
    ensures set { IsTrue result ↔ (value_of id.now (rows_of (found_of matches.now)) ≡ Some (codes "true")) }
{
    matches.get_str(id) == Some("true")
}

/// The configuration of the matches of a command line.
fn config_of(alloc: Global, matches: &ArgMatches<'_>) -> Result<Config, LineFault>
    ensures config { IfOk result (IsConfig (rows_of (found_of matches.now))) }
    ensures fault { IfErr result (IsFaultOf [] (rows_of (found_of matches.now))) }
{
    let figures = figures_of(
        matches.get_str("sample"),
        matches.get_str("a"),
        matches.get_str("b"),
    )?;
    let query = query_of(matches.get_str("op"), matches.get_str("arg"))?;
    let rule = rule_of(matches.get_str("rule"))?;
    let threads = threads_of(matches.get_str("threads"))?;
    let scale = scale_of(matches.get_str("scale"))?;
    let (a, b, sample) = figures.sources(alloc)?;
    Ok(Config {
        a,
        b,
        quiet: is_set(matches, "quiet"),
        rule,
        prepared: is_set(matches, "prepared"),
        threads,
        scale,
        query,
        sample,
    })
}

/// Reads a command line, of which the first word is the program's name.
///
/// # Errors
/// The first fault of the words, or want of memory.
pub fn read_line(alloc: Global, words: &[String]) -> Result<Config, LineFault>
    ensures config { IfOk result (IsLine (map string_bytes words.now)) }
    ensures fault { IfErr result (IsLineFault (map string_bytes words.now)) }

    // The other way round, up to want of memory: a configuration that there is comes, and so does a first fault.
    ensures config_comes { (c : Config) → IsLine (map string_bytes words.now) c → (result ≡ Ok c) ⊎ (result ≡ Err LineFault.NoMemory) }
    ensures fault_comes { (f : UsageFault) → IsFirstFault (map string_bytes words.now) f
        → (result ≡ Err (LineFault.Usage f)) ⊎ (result ≡ Err LineFault.NoMemory) }
{
    let matches = matches_in(alloc, words)?;
    config_of(alloc, &matches)
}
