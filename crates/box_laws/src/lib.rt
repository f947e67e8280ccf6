//! Lemmas on envelopes, and no code: the envelope of a whole figure holds it, and each edge that holds a point near a box meets
//! the box. They stand in proofs/, by theme.
#![tactic(auto)]
