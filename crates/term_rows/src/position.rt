//! Where a cursor is.

/// A row and a column, counted from 0. A terminal's cursor may stand behind a row's last cell.
// Kept: that a row and a column are below 9999 is asked where a move is sent; an invariant would ask it of all that make a position, and behind the last cell of 9999 a cursor is at column 9999.
#[derive(Clone, Copy, PartialEq, Eq)]
pub struct Position {
    pub row: u16,
    pub column: u16,
}
