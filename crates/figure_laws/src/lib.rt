//! Laws of the definitions on figures: they speak of points and not of triples, the kinds of location exclude each other,
//! and a set of points has one dimension. Lemmas stand in proofs/, by theme; functions do nothing, and their contracts are laws.
#![tactic(auto)]

mod laws;

pub use laws::{
    law_a_pair_has_one_matrix, law_areas_hold_points, law_cover_is_of_points,
    law_edges_hold_points, law_finitely_many_points_have_no_extent, law_kind_is_of_points,
    law_kinds_exclude_each_other, law_lines_and_points_decide, law_rings_hold_points,
};
