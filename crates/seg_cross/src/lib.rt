//! The common points of two segments, exactly: none, one, or a segment of them.
#![tactic(auto)]

mod answer;
mod crossing;
mod meeting;
mod overlap;

pub use answer::Meet;
pub use meeting::meet;

#[cfg(test)]
mod tests;
