//! A whole picture, for a terminal of which only the size is known.
ghost use Rattle.std.specs.Prelude.{◌≡◌, ℕ, ◌+◌, ◌*◌, ◌<◌, ◌≤◌, List, [], ◌∷◌, ◌++◌, length};
ghost use Rattle.spec.specs.Bytes.{cancel_sequence};
ghost use Rattle.terminals.specs.Sequences.{move_bytes};
ghost use Rattle.terminals.specs.Drawing.{Drawable};
ghost use Rattle.terminals.specs.Painting.{RepaintSays};
ghost use Rattle.term.specs.Says.{PaintSays};
ghost use Rattle.term_rows.specs.Lent.{HasRoom};

use crate::change::Change;
use crate::cursor::place_cursor;
use term_rows::{ByteWriter, Output, Position, ROW_EXTRA, whole_row, write_move, write_update};

/// Ends an escape sequence that the terminal may be in, and does nothing else.
const CANCEL: u8 = 24;

/// What a repaint takes besides its rows, at most.
const SCREEN_EXTRA: usize = 32;

const HOME: Position = Position { row: 0, column: 0 };

/// Ends a sequence that the terminal may be in, and sends the cursor home.
fn begin_painting<W: ByteWriter>(writer: &mut W)
    requires { HasRoom (W.written writer.old) (W.lent writer.old) 13 }
    ensures says { W.written writer.new ≡ (W.written writer.old ++ (cancel_sequence ∷ [])) ++ move_bytes 0 0 }
    ensures long { length (W.written writer.new) ≤ length (W.written writer.old) + 13 }
    ensures same { W.lent writer.new ≡ W.lent writer.old }
{
    writer.write_byte(CANCEL);
    write_move(writer, HOME);
}

/// Sends every row, with the cursor at home, and says where the cursor is then.
fn repaint_rows<C: Change, W: ByteWriter>(
    change: &mut C,
    writer: &mut W,
    rows: u16,
    new: &mut [u8],
) -> Position
    requires ready { C.ready change.old }
    requires picture { Drawable rows (length new.old) (C.scene change.old).after }
    requires roomy { HasRoom (W.written writer.old) (W.lent writer.old) (rows * (16 + length new.old)) }
    ensures says { PaintSays (W.written writer.old) (W.written writer.new) rows (length new.old) (C.scene change.old).after result }
    ensures long { length (W.written writer.new) ≤ length (W.written writer.old) + rows * (16 + length new.old) }
    ensures stays { C.scene change.new ≡ C.scene change.old }
    ensures still_ready { C.ready change.new }
    ensures touches { C.touched change.new ≤ C.touched change.old + rows * (C.scene change.old).row_touches }
    ensures same { W.lent writer.new ≡ W.lent writer.old }
{
    let mut at = HOME;
    for row in 0..rows {
        change.read_after(row, new);
        at = write_update(writer, at, row, new, whole_row(new));
    }
    at
}

/// Writes what makes every terminal of the size show the picture to come, in whatever state it is, to the front of `out`, and says how
/// many bytes that is. None if `out` is shorter than a screen may cost. `new` is room for a row.
pub fn repaint<C: Change>(change: &mut C, out: &mut [u8], new: &mut [u8]) -> Option<usize>
    requires ready { C.ready change.old }
    requires picture { Drawable (length (C.scene change.old).before.rows) (length new.old) (C.scene change.old).after }
    ensures says { RepaintSays (length (C.scene change.old).before.rows) (length new.old) (C.scene change.old).after (length out.old) out.new result }
    ensures stays { C.scene change.new ≡ C.scene change.old }
    ensures still_ready { C.ready change.new }
    ensures touches { C.touched change.new ≤ C.touched change.old + length (C.scene change.old).before.rows * (C.scene change.old).row_touches }
{
    let rows = change.rows();
    if out.len() < SCREEN_EXTRA + rows as usize * (ROW_EXTRA + new.len()) {
        return None;
    }
    let mut writer = Output {
        bytes: out,
        used: 0,
    };
    begin_painting(&mut writer);
    let at = repaint_rows(change, &mut writer, rows, new);
    place_cursor(change, &mut writer, at);
    Some(writer.count())
}
