//! The cursor, at last.
ghost use Rattle.std.specs.Prelude.{◌≡◌, ℕ, ◌+◌, ◌<◌, ◌≤◌, List, ◌++◌, length};
ghost use Rattle.terminals.specs.Drawing.{step_bytes};
ghost use Rattle.term_rows.specs.Lent.{HasRoom};

use crate::change::Change;
use term_rows::{ByteWriter, Position, move_cursor};

/// Sends the cursor, which is at `at`, to where it shall be.
pub fn place_cursor<C: Change, W: ByteWriter>(change: &C, writer: &mut W, at: Position)
    requires ready { C.ready change.now }
    requires small { ((C.scene change.now).after.cursor_row < 9999) × ((C.scene change.now).after.cursor_column < 9999) }
    requires roomy { HasRoom (W.written writer.old) (W.lent writer.old) 12 }
    ensures says { W.written writer.new ≡ W.written writer.old ++ step_bytes at.row at.column (C.scene change.now).after.cursor_row (C.scene change.now).after.cursor_column }
    ensures long { length (W.written writer.new) ≤ length (W.written writer.old) + 12 }
    ensures same { W.lent writer.new ≡ W.lent writer.old }
{
    let cursor = change.cursor_after();
    move_cursor(writer, at, cursor);
}
