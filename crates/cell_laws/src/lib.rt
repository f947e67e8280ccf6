//! Laws of the cells: what is seen of two figures at their nodes decides what they have in each cell of their matrix.
//! Lemmas stand in proofs/, by theme; functions do nothing, and their contracts are laws.
#![tactic(auto)]

mod laws;

pub use laws::{law_sector, law_visible, samples_decide};
