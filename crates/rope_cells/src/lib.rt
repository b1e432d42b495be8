//! How a rope lies in cells: the sums and the bytes in a cell's data words, and reading a single cell.
#![tactic(auto)]

mod leaf_bytes;
mod leaves;
mod packed;
mod reading;
mod sums;

pub use leaf_bytes::{LEAF_MAX, Leaf};
pub use leaves::{LEAF_MIN, joined, read_leaf};
pub use packed::{byte_of, digit_of, node_data, node_data_at, pack};
pub use reading::{
    Shape, Shapes, Summary, left_sum, left_total, len, shape_of, shapes_of, sum, summary_of,
    tag_of, total,
};
pub use sums::{Bytes, LineEnds, Sum, Sums};
