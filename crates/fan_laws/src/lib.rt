//! Laws of fans: the sections at a node, the walk round its rays, and the labels of rays and sectors. Definitions stand in
//! specs/, lemmas in proofs/, by theme.
#![tactic(auto)]
