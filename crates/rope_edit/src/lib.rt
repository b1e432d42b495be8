//! Ropes made of ropes and of bytes: parts, replacements, building and repeating.
#![tactic(auto)]

// Kept: `kept` is a clause of its own: as a field of a record each proof of that record would have to give it besides, while as a clause the check often finds it alone.

mod building;
mod repeating;
mod replacing;
mod slicing;

pub use building::from_bytes;
pub use repeating::repeat;
pub use replacing::replace;
pub use slicing::slice;
