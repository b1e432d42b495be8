//! The escape sequences that are sent: cursor moves and clears.
ghost use Rattle.std.specs.Prelude.{◌≡◌, ℕ, ◌+◌, ◌<◌, ◌≤◌, List, ◌++◌, length};
ghost use Rattle.terminals.specs.Sequences.{move_bytes, clear_bytes};
ghost use Rattle.terminals.specs.Drawing.{step_bytes};
ghost use Rattle.term_rows.specs.Lent.{HasRoom};

use crate::position::Position;
use crate::writer::{ByteWriter, write_bytes, write_number};

/// The longest move: two bytes, four digits, a semicolon, four digits and a byte.
pub const LONGEST_MOVE: usize = 12;

/// Rows and columns are counted from 0 here, and from 1 by a terminal.
fn from_one(index: u16) -> u16
    requires { index < 9999 }
    ensures { result ≡ index + 1 }
{
    index + 1
}

/// `ESC [ row ; column H`. The terminal takes a number that is left out for 1.
pub fn write_move<W: ByteWriter>(writer: &mut W, to: Position)
    requires small { (to.row < 9999) × (to.column < 9999) }
    requires roomy { HasRoom (W.written writer.old) (W.lent writer.old) 12 }
    ensures says { W.written writer.new ≡ W.written writer.old ++ move_bytes to.row to.column }
    ensures long { length (W.written writer.new) ≤ length (W.written writer.old) + 12 }
    ensures same { W.lent writer.new ≡ W.lent writer.old }
{
    write_bytes(writer, b"\x1b[");
    if to.row > 0 {
        write_number(writer, from_one(to.row));
    }
    if to.column > 0 {
        writer.write_byte(b';');
        write_number(writer, from_one(to.column));
    }
    writer.write_byte(b'H');
}

/// `ESC [ K`.
pub fn write_clear<W: ByteWriter>(writer: &mut W)
    requires { HasRoom (W.written writer.old) (W.lent writer.old) 3 }
    ensures says { W.written writer.new ≡ W.written writer.old ++ clear_bytes }
    ensures long { length (W.written writer.new) ≡ length (W.written writer.old) + 3 }
    ensures same { W.lent writer.new ≡ W.lent writer.old }
{
    write_bytes(writer, b"\x1b[K");
}

/// A move from where the cursor is, unless it is there already.
pub fn move_cursor<W: ByteWriter>(writer: &mut W, at: Position, to: Position)
    requires small { (to.row < 9999) × (to.column < 9999) }
    requires roomy { HasRoom (W.written writer.old) (W.lent writer.old) 12 }
    ensures says { W.written writer.new ≡ W.written writer.old ++ step_bytes at.row at.column to.row to.column }
    ensures long { length (W.written writer.new) ≤ length (W.written writer.old) + 12 }
    ensures same { W.lent writer.new ≡ W.lent writer.old }
{
    if at != to {
        write_move(writer, to);
    }
}
