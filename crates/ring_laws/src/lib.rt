//! Laws of what is inside a ring: crossing parity along a segment and across an edge, room round a point, and germs.
//! Lemmas stand in proofs/, by theme; functions do nothing, and their contracts are laws.
#![tactic(auto)]

mod laws;

pub use laws::{
    law_germ_is_one_location, law_germ_is_the_same_between_edges, law_inside_flips,
    law_inside_stays,
};
