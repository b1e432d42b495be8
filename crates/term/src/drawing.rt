//! From one picture to another.
ghost use Rattle.std.specs.Prelude.{◌≡◌, ℕ, ◌+◌, ◌*◌, ◌<◌, ◌≤◌, List, [], length};
ghost use Rattle.term.specs.Scene.{Redrawable};
ghost use Rattle.term.specs.Says.{RowSays, UpperSays, SentSays};
ghost use Rattle.terminals.specs.Progress.{none_pending, pending_from, visited, RedrawSays};

use crate::change::Change;
use crate::cursor::place_cursor;
use term_rows::{
    ByteWriter, LONGEST_MOVE, Output, Position, ROW_EXTRA, shortest_update, write_update,
};

/// Sends what turns one row, with the cursor at `at`, and says where the cursor is then. None if there is too little room.
// Kept: `change`, `writer`, `old` and `new` go on as parameters (in painting.rt too, but for `old`): in a struct of them, with ghost fields for `pictures` and `buffers`, the goal `stays` of `redraw` didn't close, as the check knows nothing of what a struct borrowed once it has ended.
fn redraw_row<C: Change, W: ByteWriter>(
    change: &mut C,
    writer: &mut W,
    at: Position,
    row: u16,
    old: &mut [u8],
    new: &mut [u8],
) -> Option<Position>
    requires ready { C.ready change.old }
    requires pictures { Redrawable (length old.old) (C.scene change.old) }
    requires buffers { length new.old ≡ length old.old }
    requires within { row < length (C.scene change.old).before.rows }
    ensures says { RowSays (W.written writer.old) (W.written writer.new) (W.lent writer.old).capacity (length old.old) row (C.scene change.old) at result }
    ensures stays { C.scene change.new ≡ C.scene change.old }
    ensures still_ready { C.ready change.new }
    ensures touches { C.touched change.new ≤ C.touched change.old + 2 * (C.scene change.old).row_touches }
    ensures same { W.lent writer.new ≡ W.lent writer.old }
{
    if change.unchanged(row) {
        return Some(at);
    }
    change.read_before(row, old);
    change.read_after(row, new);
    let Some(update) = shortest_update(old, new) else {
        return Some(at);
    };
    if writer.left() < ROW_EXTRA + new.len() {
        return None;
    }
    Some(write_update(writer, at, row, new, update))
}

/// Sends the rows above the last but the cursor's, from the top.
fn redraw_upper<C: Change, W: ByteWriter>(
    change: &mut C,
    writer: &mut W,
    start: Position,
    last: u16,
    cursor_row: u16,
    old: &mut [u8],
    new: &mut [u8],
) -> Option<Position>
    requires ready { C.ready change.old }
    requires pictures { Redrawable (length old.old) (C.scene change.old) }
    requires buffers { length new.old ≡ length old.old }
    requires within { last < length (C.scene change.old).before.rows }
    ensures says { UpperSays (W.written writer.old) (W.written writer.new) (W.lent writer.old).capacity (length old.old) last cursor_row (C.scene change.old) start result }
    ensures stays { C.scene change.new ≡ C.scene change.old }
    ensures still_ready { C.ready change.new }
    ensures touches { C.touched change.new + visited last cursor_row 0 * (2 * (C.scene change.old).row_touches) ≤ C.touched change.old + visited last cursor_row last * (2 * (C.scene change.old).row_touches) }
    ensures same { W.lent writer.new ≡ W.lent writer.old }
{
    let mut at = start;
    for row in 0..last {
        if row != cursor_row {
            at = redraw_row(change, writer, at, row, old, new)?;
        }
    }
    Some(at)
}

/// Sends the last row, unless it is the cursor's.
fn redraw_last<C: Change, W: ByteWriter>(
    change: &mut C,
    writer: &mut W,
    last: u16,
    cursor_row: u16,
    old: &mut [u8],
    new: &mut [u8],
) -> Option<Position>
    requires ready { C.ready change.old }
    requires pictures { Redrawable (length old.old) (C.scene change.old) }
    requires buffers { length new.old ≡ length old.old }
    requires within { last < length (C.scene change.old).before.rows }
    ensures says { SentSays (W.written writer.old) (W.written writer.new) (W.lent writer.old).capacity (length old.old) (pending_from last cursor_row 0) (C.scene change.old) result }
    ensures stays { C.scene change.new ≡ C.scene change.old }
    ensures still_ready { C.ready change.new }
    ensures touches { C.touched change.new ≤ C.touched change.old + visited last cursor_row 0 * (2 * (C.scene change.old).row_touches) }
    ensures same { W.lent writer.new ≡ W.lent writer.old }
{
    let at = change.cursor_before();
    if last == cursor_row {
        return Some(at);
    }
    redraw_row(change, writer, at, last, old, new)
}

/// Sends every row that differs: the last one first, and the cursor's row last, so that the cursor is mostly right then.
fn redraw_rows<C: Change, W: ByteWriter>(
    change: &mut C,
    writer: &mut W,
    old: &mut [u8],
    new: &mut [u8],
) -> Option<Position>
    requires ready { C.ready change.old }
    requires pictures { Redrawable (length old.old) (C.scene change.old) }
    requires buffers { length new.old ≡ length old.old }
    ensures says { SentSays (W.written writer.old) (W.written writer.new) (W.lent writer.old).capacity (length old.old) none_pending (C.scene change.old) result }
    ensures stays { C.scene change.new ≡ C.scene change.old }
    ensures still_ready { C.ready change.new }
    ensures touches { C.touched change.new ≤ C.touched change.old + length (C.scene change.old).before.rows * (2 * (C.scene change.old).row_touches) }
    ensures same { W.lent writer.new ≡ W.lent writer.old }
{
    let last = change.rows() - 1;
    let cursor = change.cursor_after();
    let start = redraw_last(change, writer, last, cursor.row, old, new)?;
    let at = redraw_upper(change, writer, start, last, cursor.row, old, new)?;
    redraw_row(change, writer, at, cursor.row, old, new)
}

/// Writes what leads every terminal from the one picture to the other to the front of `out`, and says how many bytes that is. None if
/// `out` is shorter than the change may cost. `old` and `new` are room for a row each.
pub fn redraw<C: Change>(
    change: &mut C,
    out: &mut [u8],
    old: &mut [u8],
    new: &mut [u8],
) -> Option<usize>
    requires ready { C.ready change.old }
    requires pictures { Redrawable (length old.old) (C.scene change.old) }
    requires buffers { length new.old ≡ length old.old }
    ensures says { RedrawSays (C.scene change.old).before (C.scene change.old).after (length old.old) (length out.old) out.new result }
    ensures stays { C.scene change.new ≡ C.scene change.old }
    ensures still_ready { C.ready change.new }
    ensures touches { C.touched change.new ≤ C.touched change.old + length (C.scene change.old).before.rows * (2 * (C.scene change.old).row_touches) }
{
    let mut writer = Output {
        bytes: out,
        used: 0,
    };
    let at = redraw_rows(change, &mut writer, old, new)?;
    if writer.left() < LONGEST_MOVE {
        return None;
    }
    place_cursor(change, &mut writer, at);
    Some(writer.count())
}
