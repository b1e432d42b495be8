//! Pictures whose cells stand in one piece: for tests, and for programs that have no editor.
#![tactic(auto)]

mod pair;
mod shot;

pub use pair::{bound, draw, paint};
pub use shot::{Fault, Size, Snapshot};
pub use term::Position;
