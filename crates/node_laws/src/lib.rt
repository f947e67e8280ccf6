//! Laws of the nodes of two figures: a node is decided, nodes are finite, and from each point that is no node a node is seen.
//! Lemmas stand in proofs/, by theme.
#![tactic(auto)]
