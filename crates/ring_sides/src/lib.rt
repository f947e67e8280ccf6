//! On which hand of its edges the inside of a ring lies, and the edges of a figure with their hands.
#![tactic(auto)]

mod edges;
mod middle;
mod side;

pub use edges::{add_area, add_ring, edges_of};
pub use side::{interior_side, orient_ring};

#[cfg(test)]
mod tests;
