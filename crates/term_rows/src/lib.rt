//! What is sent for one row: a writer over lent bytes, cursor moves, clears, and which cells are written.
#![tactic(auto)]

mod output;
mod position;
mod row;
mod sequence;
mod update;
mod writer;

pub use output::Output;
pub use position::Position;
pub use row::{ROW_EXTRA, write_update};
pub use sequence::{LONGEST_MOVE, move_cursor, write_move};
pub use update::{Update, shortest_update, whole_row};
pub use writer::ByteWriter;
