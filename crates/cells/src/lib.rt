//! Immutable cells with counts in a row of words.
#![tactic(auto)]

// Kept: cells named by their numbers where a program with a heap would have boxes, since all that the editor keeps lies in one row of counted words.
// Kept: `kept`, `same` and `touches` are clauses of their own: the first holds of every call and the second of every reader, whatever trees are meant, and the records say what became of the trees.

mod cell;
mod content;
mod header;
mod holding;
mod laws;
mod making;
mod reading;

pub use cell::{NONE, Ref};
pub use content::Data;
pub use header::{attach, new, root, scalar, set_root, set_scalar};
pub use holding::{or_release, release, share};
pub use laws::{cells_are_counted, held_have_trees, longer_row_holds, no_cell_is_lost};
pub use making::{Children, Node, alloc, make, open, part, release_both};
pub use reading::{data_word, data_words, left, right};
