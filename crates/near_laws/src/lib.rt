//! The law of the near nodes: where the envelopes of two figures have a common part, only the few nodes near it need be asked, and
//! four envelopes of each figure tell all the rest.
//! Lemmas stand in proofs/, by theme; functions do nothing, and their contracts are laws.
#![tactic(auto)]

mod laws;

pub use laws::law_near;
