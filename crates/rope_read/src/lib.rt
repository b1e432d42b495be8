//! Readers of a rope that is lent: its length and sums, the byte at a place, sums before a place and places by their sums, ranges of bytes.
#![tactic(auto)]

// Kept: `words` and `p` stay two parameters with `Lends` as a clause: a struct of both would borrow the row, so each call on one of the ropes in it would first make the struct and prove its invariant.

mod finding;
mod locating;
mod points;
mod ranges;
mod totals;

pub use finding::{find, find_back};
pub use points::{byte_at, prefix, seek};
pub use ranges::read;
pub use totals::{len, sum};
