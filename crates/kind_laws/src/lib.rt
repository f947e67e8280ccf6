//! Laws of the kind of a point in a figure: it is decided, a germ exists along every direction, and the kind stays along a way
//! that meets nothing. Lemmas stand in proofs/, by theme.
#![tactic(auto)]
