//! What the screen shows, row by row, and where the cursor is on it.
ghost use Rattle.std.specs.Prelude.{◌≡◌, ◌+◌, ◌<◌, ◌≤◌, IfOk, vec_len};

use crate::editor::Editor;
use plain_lines::{Position, Size};
use std::alloc::AllocError;

// Kept: `term` names this byte too, but the second editor shares no code with the first.
const CANCEL: u8 = 0x18;

fn shown(byte: u8) -> u8
    ensures { (32 ≤ result) × (result ≤ 126) }
{
    match byte {
        32..=126 => byte,
        b'\t' => b' ',
        _ => b'?',
    }
}

impl Editor {
    pub fn size(&self) -> Size
        ensures { result ≡ self.now.window.size }
    {
        self.window.size
    }

    pub fn screen_cursor(&self) -> Position
        ensures row { result.row + 1 < self.now.window.size.rows }
        ensures column { result.column < self.now.window.size.columns }
    {
        self.window.cursor
    }

    // A row of the screen, as wide as it.
    pub fn row(&self, row: usize) -> Result<Vec<u8>, AllocError>
        ensures { IfOk result (λ v. vec_len v ≡ self.now.window.size.columns) }
    {
        let size = self.window.size;
        let mut cells = if row < size.rows() - 1 {
            self.text_row(row)?
        } else {
            self.status_row()?
        };
        cells.resize(size.columns(), b' ')?;
        Ok(cells)
    }

    // What is seen of a line, or a tilde behind the text.
    fn text_row(&self, row: usize) -> Result<Vec<u8>, AllocError> {
        let line = self.window.top.saturating_add(row);
        let Some(start) = self.buffer.here().nth_line(line) else {
            return Vec::from_slice(self.heap, b"~");
        };
        let end = start.line_end().at;
        let from = start.at.saturating_add(self.window.left).min(end);
        let to = from.saturating_add(self.window.size.columns()).min(end);
        start.text[from..to]
            .iter()
            .map(|byte| shown(*byte))
            .collect(self.heap)
    }

    // The mode, and the line and the column of the cursor, counted from 1.
    fn status_row(&self) -> Result<Vec<u8>, AllocError> {
        let mode = self.mode;
        let here = self.buffer.here();
        let line = here.line().saturating_add(1);
        let column = here.column().saturating_add(1);
        let status = format!(in self.heap; "{mode} {line},{column}")?;
        Ok(status.into_bytes())
    }

    // Bytes that make any terminal of this size show the screen: a byte that ends a sequence in
    // which the terminal may be, every row, and the cursor.
    pub fn painting(&self) -> Result<Vec<u8>, AllocError> {
        let mut out = Vec::new(self.heap);
        out.push(CANCEL)?;
        for row in 0..self.window.size.rows() {
            self.paint_move(&mut out, Position { row, column: 0 })?;
            out.extend_from_slice(self.row(row)?.as_slice())?;
        }
        self.paint_move(&mut out, self.screen_cursor())?;
        Ok(out)
    }

    // A terminal counts from 1.
    fn paint_move(&self, out: &mut Vec<u8>, position: Position) -> Result<(), AllocError> {
        let row = position.row.saturating_add(1);
        let column = position.column.saturating_add(1);
        let sequence = format!(in self.heap; "\x1b[{row};{column}H")?;
        out.extend_from_slice(sequence.as_bytes())
    }
}
