//! The law of the few nodes: crossings within one figure that has no areas may be left out.
//! Lemmas stand in proofs/, by theme; functions do nothing, and their contracts are laws.
#![tactic(auto)]

mod laws;

pub use laws::law_few;
