//! A picture as bytes, and whether it is one that can be drawn.
ghost use Rattle.std.specs.Prelude.{◌≡◌, ◌↔◌, T};
ghost use Rattle.pictures.specs.Rows.{all_printable, Valid};

use term::Position;
use thiserror::Error;

#[derive(Clone, Copy)]
pub struct Size {
    pub rows: u16,
    pub columns: u16,
}

/// A screen's cells, row by row, and its cursor.
#[derive(Clone, Copy)]
pub struct Snapshot<'a> {
    pub cells: &'a [u8],
    pub cursor: Position,
}

/// Why nothing was drawn.
#[derive(Clone, Copy, Debug, PartialEq, Eq, Error)]
pub enum Fault {
    /// The cells are not as many as the size says, or can't be shown, or the cursor is outside; or a row lent is not of the
    /// size's width.
    #[error("not a picture of the size")]
    NoPicture,
    /// The output lent is too small.
    #[error("too little room for the output")]
    NoRoom,
}

/// The most rows and columns of which a terminal can be told.
const LARGEST: u16 = 9999;

/// Whether a terminal shows every byte as it is.
fn printable(cells: &[u8]) -> bool
    ensures { result ≡ all_printable cells.now }
{
    cells.iter().all(|c| (b' '..=b'~').contains(c))
}

pub fn valid(size: Size, shot: Snapshot) -> bool
    ensures { T result ↔ Valid size.rows size.columns shot.entry.cells.now shot.entry.cursor.row shot.entry.cursor.column }
{
    let Size { rows, columns } = size;
    rows <= LARGEST
        && columns <= LARGEST
        && shot.cells.len() == rows as usize * columns as usize
        && shot.cursor.row < rows
        && shot.cursor.column < columns
        && printable(shot.cells)
}
