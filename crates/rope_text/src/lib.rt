//! A text as one rope in words of its own: every reference but the rope's is let go in the call that makes it.
#![tactic(auto)]

mod balance;
mod editing;
mod rope_text;

pub use rope_text::{Full, RopeText};
