//! What is sent for one row.
ghost use Rattle.std.specs.Prelude.{◌≡◌, ℕ, ◌+◌, ◌<◌, ◌≤◌, List, ◌++◌, length};
ghost use Rattle.terminals.specs.Drawing.{step_bytes, update_bytes};
ghost use Rattle.term_rows.specs.Lent.{HasRoom};

use crate::position::Position;
use crate::sequence::{move_cursor, write_clear};
use crate::update::Update;
use crate::writer::{ByteWriter, write_bytes};

/// What the longest row takes besides its cells: a move, and a clear, with one byte to spare.
pub const ROW_EXTRA: usize = 16;

/// Writes an update of a row, with the cursor at `at`, and says where the cursor is then.
// Inlined, so that the writer's count need not go to memory at each byte.
#[inline(always)]
pub fn write_update<W: ByteWriter>(
    writer: &mut W,
    at: Position,
    row: u16,
    new: &[u8],
    update: Update,
) -> Position
    requires within { (update.from ≤ update.to) × ((update.from < length new.now) × (update.to ≤ length new.now)) }
    requires small { (row < 9999) × (length new.now ≤ 9999) }
    requires roomy { HasRoom (W.written writer.old) (W.lent writer.old) (16 + length new.now) }
    ensures says { W.written writer.new ≡ (W.written writer.old ++ step_bytes at.row at.column row update.from) ++ update_bytes new.now update.from update.to update.clear }
    ensures long { length (W.written writer.new) ≤ length (W.written writer.old) + (16 + length new.now) }
    ensures at_row { result.row ≡ row }
    ensures at_column { result.column ≡ update.to }
    ensures same { W.lent writer.new ≡ W.lent writer.old }
{
    let Update { from, to, clear } = update;
    move_cursor(
        writer,
        at,
        Position {
            row,
            column: from as u16,
        },
    );
    write_bytes(writer, &new[from..to]);
    if clear {
        write_clear(writer);
    }
    Position {
        row,
        column: to as u16,
    }
}
