//! Laws of the germs in the sectors round a point.
//! Lemmas stand in proofs/, by theme; functions do nothing, and their contracts are laws.
#![tactic(auto)]

mod laws;

pub use laws::law_germ_is_the_same_in_a_sector;
