//! The boundary node rule, the threads and the scale.
ghost use Rattle.std.specs.Prelude.{MatchResult};
ghost use Rattle.std.specs.Option.{option_copied};
ghost use Rattle.geosop_line.specs.Settings.{IsRule, IsThreads, IsScale};
ghost use Rattle.geosop_line.specs.Steps.{IsRuleFault, IsThreadsFault, IsScaleFault};

use crate::config::UsageFault;
use crate::number::{digit_of, number_to};
use point_set::Rule;
use wkt_text::Scale;

/// The greatest number of threads.
const MOST_THREADS: u32 = 64;

/// The boundary node rule of this value of `--rule`.
pub(crate) fn rule_of(value: Option<&str>) -> Result<Rule, UsageFault>
    ensures rule { MatchResult result (IsRule (option_copied value.entry)) (IsRuleFault (option_copied value.entry)) }
{
    match value {
        None | Some("mod2") => Ok(Rule::Mod2),
        Some("endpoint") => Ok(Rule::Endpoint),
        Some("multivalent") => Ok(Rule::Multivalent),
        Some("monovalent") => Ok(Rule::Monovalent),
        Some(_) => Err(UsageFault::RuleName),
    }
}

/// The number of threads of this value of `--threads`.
pub(crate) fn threads_of(value: Option<&str>) -> Result<u32, UsageFault>
    ensures threads { MatchResult result (IsThreads (option_copied value.entry)) (IsThreadsFault (option_copied value.entry)) }
{
    match value {
        None => Ok(1),
        Some(text) => number_to(MOST_THREADS, text).ok_or(UsageFault::Threads),
    }
}

/// The scale of this value of `--scale`.
pub(crate) fn scale_of(value: Option<&str>) -> Result<Scale, UsageFault>
    ensures scale { MatchResult result (IsScale (option_copied value.entry)) (IsScaleFault (option_copied value.entry)) }
{
    let digits = match value {
        None => 0,
        Some(text) => digit_of(text).ok_or(UsageFault::Scale)?,
    };
    Scale::new(digits).ok_or(UsageFault::Scale)
}
