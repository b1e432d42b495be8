//! Ropes of bytes in a heap of cells: making, joining and cutting them.
#![tactic(auto)]

// Kept: `kept` is a clause of its own: as a field of a record each proof of that record would have to give it besides, while as a clause the check mostly finds it alone.

mod balancing;
mod cutting;
mod joining;
mod making;
mod merging;
mod parting;
mod sided;

pub use cutting::{Cut, split};
pub use joining::concat;
pub use making::{leaf, node};
