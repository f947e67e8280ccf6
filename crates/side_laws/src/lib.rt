//! Laws of the two sides of a ring and of an area: on which hand of its edges the inside lies.
//! Lemmas stand in proofs/, by theme; functions do nothing, and their contracts are laws.
#![tactic(auto)]

mod laws;

pub use laws::{law_area_lies_on_the_hands_of_its_rings, law_inside_lies_on_one_hand};
