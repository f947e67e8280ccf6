//! Laws of ways that meet edges: the first meeting, points along a way, common points of two lines. Lemmas stand in proofs/, by
//! theme.
#![tactic(auto)]
