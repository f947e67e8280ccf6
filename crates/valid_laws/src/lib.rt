//! Laws of validity: the clauses that speak of all points hold exactly where edges enter what they must not. Definitions stand in
//! specs/, lemmas in proofs/, by theme.
#![tactic(auto)]
