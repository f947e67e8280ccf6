//! Intervals of height, kept as a tree in which those that hold a height are found without a look at the others.
#![tactic(auto)]

mod build;
mod index;
mod level;
mod row;
mod rows;
mod spans;
mod stabbing;

pub use index::YIndex;
pub use level::{Level, level_of};
pub use rows::{Span, SpanList, SpanRow, are_spans};
pub use spans::Spans;
pub use stabbing::stab;

#[cfg(test)]
mod tests;
