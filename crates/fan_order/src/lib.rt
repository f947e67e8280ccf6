//! The edges round a node: rays in the order of their angles, and the sectors between them.
#![tactic(auto)]

mod fan;
mod lowest;
mod middle;
mod pass;
mod ray;
mod section;
#[cfg(test)]
mod tests;
mod toward;
mod walk;

pub use fan::Fan;
pub use section::{Section, SectionList, are_short};
pub use toward::add_sections;
