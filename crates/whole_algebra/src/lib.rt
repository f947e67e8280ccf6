//! Lemmas on whole numbers, and no code: the laws that std lacks, identities by computation, signs, certificates,
//! what arithmetic of a fixed width computes, and reduced fractions. They stand in proofs/.
#![tactic(auto)]
