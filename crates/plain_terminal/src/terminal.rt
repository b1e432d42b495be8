//! The cells of a terminal and its cursor.
ghost use Rattle.std.specs.Prelude.{◌≡◌, ◌+◌, ◌-◌, ◌*◌, ◌<◌, ◌≤◌, min, length, IfOk, vec_len, MatchOption, slice_set};

use crate::sequences::{Action, read_action};
use plain_lines::{Position, Size};
use std::alloc::{AllocError, Global};
use std::mem;

#[derive(Drop)]
pub struct Terminal {
    heap: Global,
    size: Size,
    // row by row
    cells: Vec<u8>,
    // its column may be the one behind the row
    cursor: Position,
    // a sequence that has no end yet
    unread: Vec<u8>,
    ghost filled: { vec_len cells ≡ size.rows * size.columns },
    ghost inside: { (cursor.row < size.rows) × (cursor.column ≤ size.columns) },
}

impl Terminal {
    // Every cell has the same byte, and the cursor is in the first one.
    pub fn new(heap: Global, size: Size, fill: u8) -> Result<Terminal, AllocError>
        ensures { IfOk result (λ t. (t.cursor.row ≡ 0) × (t.cursor.column ≡ 0) × (t.size ≡ size)) }
    {
        let cells = vec![in heap; fill; size.rows() * size.columns()]?;
        Ok(Terminal {
            heap,
            size,
            cells,
            cursor: Position { row: 0, column: 0 },
            unread: Vec::new(heap),
        })
    }

    pub fn cursor(&self) -> Position
        ensures value { result ≡ self.now.cursor }
        ensures within { (result.row < self.now.size.rows) × (result.column ≤ self.now.size.columns) }
    {
        self.cursor
    }

    // The cells of a row, if there is one.
    // Kept: by `chunks(columns).nth(row)` the proof didn't close: that the chunk is there and as wide as the screen.
    pub fn row(&self, row: usize) -> Option<&[u8]>
        ensures { MatchOption result (self.now.size.rows ≤ row) (λ cells. length cells.now ≡ self.now.size.columns) }
    {
        if row >= self.size.rows() {
            return None;
        }
        let columns = self.size.columns();
        let start = row * columns;
        let end = start + columns;
        let cells = self.cells.as_slice();
        Some(&cells[start..end])
    }

    // Where it can't be written any more, it is lost.
    fn write(&mut self, byte: u8)
        ensures written { self.old.cursor.column < self.old.size.columns → (self.new.cells.items ≡ slice_set self.old.cells.items (self.old.cursor.row * self.old.size.columns + self.old.cursor.column) byte) × (self.new.cursor.column ≡ self.old.cursor.column + 1) }
        ensures lost { self.old.cursor.column ≡ self.old.size.columns → self.new ≡ self.old }
    {
        let columns = self.size.columns();
        if self.cursor.column < columns {
            let place = self.cursor.row * columns + self.cursor.column;
            self.cells[place] = byte;
            self.cursor.column += 1;
        }
    }

    // At most to the last row and the last column.
    fn move_to(&mut self, position: Position)
        ensures row { self.new.cursor.row ≡ min position.row (self.old.size.rows - 1) }
        ensures column { self.new.cursor.column ≡ min position.column (self.old.size.columns - 1) }
        ensures cells { self.new.cells ≡ self.old.cells }
    {
        self.cursor = Position {
            row: position.row.min(self.size.rows() - 1),
            column: position.column.min(self.size.columns() - 1),
        };
    }

    fn clear_rest(&mut self) {
        let columns = self.size.columns();
        let start = self.cursor.row * columns;
        let from = start + self.cursor.column;
        let to = start + columns;
        self.cells[from..to].fill(b' ');
    }

    fn apply(&mut self, action: Action) {
        match action {
            Action::Write(byte) => self.write(byte),
            Action::Move(position) => self.move_to(position),
            Action::ClearRest => self.clear_rest(),
            Action::Nothing => {}
        }
    }

    // Takes bytes as they are sent; a sequence may come in parts.
    pub fn feed(&mut self, bytes: &[u8]) -> Result<(), AllocError> {
        let mut sent = mem::replace(&mut self.unread, Vec::new(self.heap));
        sent.extend_from_slice(bytes)?;
        let mut rest = sent.as_slice();
        while let Some((action, behind)) = read_action(rest) {
            self.apply(action);
            rest = behind;
        }
        self.unread = Vec::from_slice(self.heap, rest)?;
        Ok(())
    }
}
