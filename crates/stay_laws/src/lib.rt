//! Laws of what stays: the kind of a point along a way that meets no edge and no node, along an edge, and in a sector; and
//! the germ of a figure along every direction. Lemmas stand in proofs/, by theme.
#![tactic(auto)]
