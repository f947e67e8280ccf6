//! The labels of the rays and the sectors round a node: in which part of each figure the points near the node lie.
#![tactic(auto)]

mod label;
mod pair;
mod part;
#[cfg(test)]
mod tests;

pub use label::{label_ray, label_sector};
pub use pair::Pair;
