//! Where the two figures come from.
ghost use Rattle.std.specs.Prelude.{◌≡◌, [], MatchResult, IfOk};
ghost use Rattle.std.specs.Option.{option_copied};
ghost use Rattle.geosop_line.specs.Figures.{is_stdin as is_stdin_so, source_of as source_of_value};
ghost use Rattle.geosop_line.specs.Steps.{AreFigures, AreMade, IsFiguresFault};

use crate::config::{Source, UsageFault};
use crate::number::number_to;
use geosop_io::Word;
use plane_exact::NoMemory;
use std::alloc::Global;
use wkt_text::is_text;

/// The greatest number of a sample.
const MOST_SAMPLE: u32 = 200;

/// What the words say of the figures.
#[derive(Clone, Copy, Debug)]
pub(crate) enum Figures<'a> {
    /// They are those of the sample with this number.
    OfSample(u32),
    /// The values of `-a` and `-b`.
    OfSources(&'a str, &'a str),
}

fn is_stdin(value: &str) -> bool
    ensures stdin { result ≡ is_stdin_so value.now }
{
    value == "stdin"
}

/// The source that a value names.
fn source_of(alloc: Global, value: &str) -> Result<Source, NoMemory>
    ensures source { IfOk result (λ s. s ≡ source_of_value value.now) }
{
    if is_stdin(value) {
        return Ok(Source::Stdin);
    }
    let word = Word::of(alloc, value)?;
    if is_text(value.as_bytes()) {
        Ok(Source::Text(word))
    } else {
        Ok(Source::File(word))
    }
}

/// The figures of these values of `--sample`, `-a` and `-b`.
pub(crate) fn figures_of<'a>(
    sample: Option<&str>,
    a: Option<&'a str>,
    b: Option<&'a str>,
) -> Result<Figures<'a>, UsageFault>
    ensures figures { MatchResult result
        (AreFigures (option_copied sample.entry) (option_copied a.entry) (option_copied b.entry))
        (IsFiguresFault (option_copied sample.entry) (option_copied a.entry) (option_copied b.entry)) }
{
    match (sample, a, b) {
        (Some(text), None, None) => {
            let number = number_to(MOST_SAMPLE, text).ok_or(UsageFault::Sample)?;
            Ok(Figures::OfSample(number))
        }
        (Some(_), _, _) => Err(UsageFault::Sample),
        (None, Some(a), Some(b)) => {
            if is_stdin(a) && is_stdin(b) {
                Err(UsageFault::Sources)
            } else {
                Ok(Figures::OfSources(a, b))
            }
        }
        (None, _, _) => Err(UsageFault::Sources),
    }
}

/// A source that is a text of no bytes, as under a sample.
fn no_text(alloc: Global) -> Result<Source, NoMemory>
    ensures source { IfOk result (λ s. s ≡ Source.Text []) }
{
    let word = Word::of(alloc, "")?;
    Ok(Source::Text(word))
}

impl Figures<'_> {
    /// The sources of A and B, and the sample's number, if any.
    pub(crate) fn sources(self, alloc: Global) -> Result<(Source, Source, Option<u32>), NoMemory>
        ensures made { IfOk result (λ r. AreMade self.entry r.0 r.1 r.2) }
    {
        match self {
            Figures::OfSample(number) => Ok((no_text(alloc)?, no_text(alloc)?, Some(number))),
            Figures::OfSources(a, b) => Ok((source_of(alloc, a)?, source_of(alloc, b)?, None)),
        }
    }
}
