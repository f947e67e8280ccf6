//! The summary of a text's lines: each distinct line with how often it is there.
#![tactic(auto)]

mod lines;
mod summary;
#[cfg(test)]
mod tests;

pub use summary::summary_of;
