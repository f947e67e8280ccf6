//! Laws of the plane of fractions: points, mixes, turns, segments, directions and their order, and what is near a point.
//! Its definitions stand in specs/, its lemmas in proofs/, by theme; its functions do nothing, and their contracts are laws.
#![tactic(auto)]

mod laws;
mod order_laws;

pub use laws::{
    law_mixes_are_means, law_on_segment_is_tested, law_order_of_ends_is_free,
    law_same_point_is_equivalence, law_same_point_is_tested, law_segment_of_same_ends_is_a_point,
    law_segments_are_of_points, law_signs_are_of_points, law_triangles_are_of_points,
};
pub use order_laws::{
    law_directions_are_ordered, law_heights_are_ordered, law_points_are_ordered,
    law_points_of_a_segment_are_ordered,
};
