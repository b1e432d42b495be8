//! Lemmas on lists that several crates need, in proofs/: a part of a list replaced by another, and put back.
#![tactic(auto)]
