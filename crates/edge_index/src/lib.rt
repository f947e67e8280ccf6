//! A list of segments that can be asked which of their windows meet a window: a tree of boxes.
#![tactic(auto)]

mod boxes;
mod index;
mod laws;
mod order;
mod rows;
#[cfg(test)]
mod tests;
mod walking;

pub use boxes::{BoxRow, Boxes};
pub use index::EdgeIndex;
pub use laws::law_common_points_are_tested;
pub use walking::walk;
