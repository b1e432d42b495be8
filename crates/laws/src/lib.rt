//! Theorems on the definitions of `spec` alone. Each is a function whose contract is the theorem; its proof is in proofs/.
#![tactic(auto)]

pub mod cursor;
pub mod history;
