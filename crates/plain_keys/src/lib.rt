//! What keys mean: counts, motions, what operators take, and the command that is being typed.
#![tactic(auto)]

mod count;
mod extents;
mod keys;
mod motion;
mod pending;

pub use count::Count;
pub use extents::{Extent, Shape, lines_from, taken_by};
pub use keys::{ESCAPE, Opening, Operator, Side};
pub use motion::{Motion, destination};
pub use pending::{Command, Next, Pending};
