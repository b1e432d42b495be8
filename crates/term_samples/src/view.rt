//! A text, and what is seen of it on a screen of 24 rows and 80 columns.
use pictures::{Position, Size, Snapshot};
use std::alloc::{AllocError, Global};
use std::fmt;
use std::iter::repeat_n;

pub const SIZE: Size = Size {
    rows: 24,
    columns: 80,
};

pub const COLUMNS: usize = SIZE.columns as usize;

/// The rows but the last.
const TEXT_ROWS: usize = SIZE.rows as usize - 1;

const LINES: u16 = 60;

#[derive(Clone, Copy)]
pub enum Mode {
    Normal,
    Insert,
}

impl fmt::Display for Mode {
    fn fmt<W: fmt::Write>(&self, f: &mut fmt::Formatter<W>) -> fmt::Result {
        match self {
            Mode::Normal => write!(f, "N"),
            Mode::Insert => write!(f, "I"),
        }
    }
}

#[derive(Clone, Copy)]
pub struct View<'a> {
    pub text: &'a [Vec<u8>],
    pub top: usize,
    pub cursor: Position,
    pub mode: Mode,
}

/// A letter or a blank, another one in each line.
fn cell(line: u16, column: u16) -> u8 {
    let place = u32::from(column) * 7 + u32::from(line) * 5;
    if place % 6 == 5 {
        b' '
    } else {
        (place % 26) as u8 + b'a'
    }
}

/// Lines of a width.
pub fn text(heap: Global, width: u16) -> Result<Vec<Vec<u8>>, AllocError> {
    (0..LINES)
        .map(|line| -> Result<Vec<u8>, AllocError> {
            (0..width).map(|column| cell(line, column)).collect(heap)
        })
        .try_collect(heap)
}

/// A line, cut or filled up with blanks to the width of the screen.
fn push_row(cells: &mut Vec<u8>, line: &[u8]) -> Result<(), AllocError> {
    let blanks = repeat_n(b' ', COLUMNS);
    cells.extend(line.iter().copied().chain(blanks).take(COLUMNS))
}

impl View<'_> {
    pub fn cells(&self, heap: Global) -> Result<Vec<u8>, AllocError> {
        let mut cells = Vec::new(heap);
        let lines = self.text.iter().skip(self.top).map(|line| line.as_slice());
        let below = repeat_n(b"~".as_slice(), TEXT_ROWS);
        for line in lines.chain(below).take(TEXT_ROWS) {
            push_row(&mut cells, line)?;
        }
        let mode = self.mode;
        let line = self
            .top
            .saturating_add(self.cursor.row as usize)
            .saturating_add(1);
        let column = self.cursor.column.saturating_add(1);
        let status = format!(in heap; "{mode} {line},{column}")?;
        push_row(&mut cells, status.as_bytes())?;
        Ok(cells)
    }

    pub fn shot<'c>(&self, cells: &'c [u8]) -> Snapshot<'c> {
        Snapshot {
            cells,
            cursor: self.cursor,
        }
    }
}
