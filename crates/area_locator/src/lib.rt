//! Where a node lies in a ring or in an area, by one pass over the positions or by an index over heights.
#![tactic(auto)]

mod area;
mod area_index;
mod edges;
#[cfg(test)]
mod index_tests;
mod indexed;
mod laws;
mod ring;
#[cfg(test)]
mod tests;
mod touch;
mod ways;

pub use area::locate_plain;
pub use area_index::{AreaIndex, are_edges, spans_of};
pub use indexed::locate_by;
pub use laws::{law_areas_of_valid_figures_are_valid, law_one_count_locates_in_valid_areas};
pub use ring::ring_locate;
