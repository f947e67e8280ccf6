//! Hostile use as rows: calls that fail in turn, sinks that take one byte at a time, and texts that end early.
//! Expected values are worked by hand from the definitions.
#![tactic(auto)]

#[cfg(test)]
mod broken_texts;
#[cfg(test)]
mod failing_calls;
