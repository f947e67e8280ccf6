//! The envelopes of a figure: the least boxes of its rings, of its lines, of its points, and of the line ends that are boundary.
#![tactic(auto)]

mod ends;
mod envelopes;
mod extents;
mod parts;
#[cfg(test)]
mod tests;

pub use envelopes::of_way;
pub use extents::Extents;
