//! What is said of a text's bytes, and no code: their classes, the form and the value of a number, and how a value is found from
//! the front of its digits. The definitions stand in specs/, the lemmas in proofs/.
#![tactic(auto)]
