//! What a command line asks for, and why it may give nothing.
ghost use Rattle.std.specs.Prelude.{◌≡◌};
ghost use Rattle.geosop_line.specs.declared.config.LineFault.TheVariants as line;

use geosop_io::Word;
use plane_exact::NoMemory;
use point_set::Rule;
use std::alloc::AllocError;
use thiserror::Error;
use topo_pred::Query;
use wkt_text::Scale;

/// Where a side's text comes from.
#[derive(Debug, Drop)]
pub enum Source {
    /// The word itself is the text.
    Text(Word),
    /// The word is a file's name.
    File(Word),
    /// Standard input.
    Stdin,
}

/// What a command line asks for.
#[derive(Debug, Drop)]
pub struct Config {
    /// The source of A. Under a sample it is a text of no bytes.
    pub a: Source,
    /// The source of B. Under a sample it is a text of no bytes.
    pub b: Source,
    /// Whether the answers are made and nothing is written.
    pub quiet: bool,
    /// The boundary node rule.
    pub rule: Rule,
    /// Whether A is prepared.
    pub prepared: bool,
    /// The number of threads, from 1 to 64.
    pub threads: u32,
    /// By how many digits the point of every number is moved to the right.
    pub scale: Scale,
    /// What is asked of each pair.
    pub query: Query,
    /// The number of the sample, from 1 to 200, where one stands in place of the sources.
    pub sample: Option<u32>,
}

/// The first fault of a command line, in the order in which they are tested.
#[derive(Clone, Copy, Debug, PartialEq, Eq)]
pub enum UsageFault {
    /// The words aren't options and positionals of the program.
    Line,
    /// The sample isn't a number from 1 to 200, or a source is named beside it.
    Sample,
    /// A source is missing, or both are standard input.
    Sources,
    /// The operation is missing or unknown.
    Operation,
    /// The operation lacks its argument, or has one that it doesn't take.
    Argument,
    /// The argument is no pattern; the place in bytes from 0 where it first goes wrong.
    BadMatch(u32),
    /// The boundary node rule is unknown.
    RuleName,
    /// The number of threads isn't a number from 1 to 64.
    Threads,
    /// The scale isn't a digit for which there is a scale.
    Scale,
}

/// Why a command line gave no configuration.
#[derive(Clone, Copy, Debug, PartialEq, Eq, Error)]
pub enum LineFault {
    /// The first fault of the words.
    #[error("the command line has a usage fault")]
    Usage(UsageFault),
    /// Want of memory.
    #[error("there is no memory for the command line")]
    NoMemory,
}

impl From<UsageFault> for LineFault {
    ghost from_gives = { λ fault e. e ≡ line.Usage fault };

    fn from(fault: UsageFault) -> LineFault {
        LineFault::Usage(fault)
    }
}

impl From<NoMemory> for LineFault {
    ghost from_gives = { λ _ e. e ≡ line.NoMemory };

    fn from(_fault: NoMemory) -> LineFault {
        LineFault::NoMemory
    }
}

impl From<AllocError> for LineFault {
    ghost from_gives = { λ _ e. e ≡ line.NoMemory };

    fn from(_error: AllocError) -> LineFault {
        LineFault::NoMemory
    }
}
