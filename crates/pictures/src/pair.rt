//! Two pictures of one size, and what is sent for them.
ghost use Rattle.std.specs.Prelude.{◌≡◌, ◌+◌, ◌*◌, ◌<◌, ◌≤◌, [], length, take, drop, ◌↔◌, IsOk, IfOk, IfErr, IsErrOf, ⊤};
ghost use Rattle.terminals.specs.Progress.{RedrawDone};
ghost use Rattle.terminals.specs.Painting.{RepaintDone};
ghost use Rattle.pictures.specs.Shots.{shown, IsShown};
ghost use Rattle.spec.specs.Promises.{rows_cost, cost, paint_cost};

use crate::shot::{Fault, Size, Snapshot, valid};
use term::{Change, Position, redraw, repaint};

/// Two pictures of one size.
#[derive(Drop)]
struct Pair<'a> {
    size: Size,
    before: Snapshot<'a>,
    after: Snapshot<'a>,
    ghost before_valid: { IsShown size before },
    ghost after_valid: { IsShown size after },
}

impl<'a> Pair<'a> {
    fn new(size: Size, before: Snapshot<'a>, after: Snapshot<'a>) -> Result<Pair<'a>, Fault>
        ensures shown { IsOk result ↔ (IsShown size before.entry × IsShown size after.entry) }
        ensures fault { IfErr result (λ e. e ≡ Fault.NoPicture) }
        ensures holds { IfOk result (λ p. (p.size ≡ size) × (p.before.cells.now ≡ before.entry.cells.now) × (p.before.cursor ≡ before.entry.cursor) × (p.after.cells.now ≡ after.entry.cells.now) × (p.after.cursor ≡ after.entry.cursor)) }
    {
        if !valid(size, before) || !valid(size, after) {
            return Err(Fault::NoPicture);
        }
        Ok(Pair {
            size,
            before,
            after,
        })
    }

    /// One picture as both, of which the cells are looked at once.
    fn of_one(size: Size, shot: Snapshot<'a>) -> Result<Pair<'a>, Fault>
        ensures shown { IsOk result ↔ IsShown size shot.entry }
        ensures fault { IfErr result (λ e. e ≡ Fault.NoPicture) }
        ensures holds { IfOk result (λ p. (p.size ≡ size) × (p.before.cells.now ≡ shot.entry.cells.now) × (p.before.cursor ≡ shot.entry.cursor) × (p.after.cells.now ≡ shot.entry.cells.now) × (p.after.cursor ≡ shot.entry.cursor)) }
    {
        if !valid(size, shot) {
            return Err(Fault::NoPicture);
        }
        Ok(Pair {
            size,
            before: shot,
            after: shot,
        })
    }

    /// How many rows differ.
    fn differing_rows(&self) -> usize
        ensures few { result ≤ self.now.size.rows }
        ensures counted { result * (16 + self.now.size.columns) ≡ rows_cost self.now.size.columns (shown self.now.size self.now.before).rows (shown self.now.size self.now.after).rows }
    {
        let columns = self.size.columns as usize;
        let rows = self.before.cells.chunks(columns);
        rows.zip(self.after.cells.chunks(columns))
            .filter(|(old, new)| old != new)
            .count()
    }
}

/// Row `row` of cells that stand in one piece.
fn copy_row(cells: &[u8], columns: u16, row: u16, into: &mut [u8])
    requires { ((row + 1) * columns ≤ length cells.now) × (length into.old ≡ columns) }
    ensures { into.new ≡ take columns (drop (row * columns) cells.now) }
{
    let from = row as usize * columns as usize;
    let to = from + columns as usize;
    into.copy_from_slice(&cells[from..to]);
}

impl Change for Pair<'_> {
    ghost scene = { λ s. record { before = shown s.size s.before; after = shown s.size s.after; row_touches = 0; kept = [] } };

    ghost touched = { λ _. 0 };

    ghost ready = { λ _. ⊤ };

    fn rows(&self) -> u16 {
        self.size.rows
    }

    fn cursor_before(&self) -> Position {
        self.before.cursor
    }

    fn cursor_after(&self) -> Position {
        self.after.cursor
    }

    fn unchanged(&self, _row: u16) -> bool {
        false
    }

    fn read_before(&mut self, row: u16, into: &mut [u8]) {
        copy_row(self.before.cells, self.size.columns, row, into);
    }

    fn read_after(&mut self, row: u16, into: &mut [u8]) {
        copy_row(self.after.cells, self.size.columns, row, into);
    }
}

/// What leads a terminal from one picture to another, at the front of `out`. `old` and `new` are room for a row each.
pub fn draw<'a>(
    size: Size,
    before: Snapshot<'a>,
    after: Snapshot<'a>,
    old: &mut [u8],
    new: &mut [u8],
    out: &mut [u8],
) -> Result<usize, Fault>
    ensures no_picture { IsErrOf result Fault.NoPicture → ¬ (IsShown size before.entry × IsShown size after.entry × (length old.old ≡ size.columns) × (length new.old ≡ size.columns)) }
    ensures no_room { IsErrOf result Fault.NoRoom → length out.old < cost size.columns (shown size before.entry) (shown size after.entry) }
    ensures done { IfOk result (λ n. RedrawDone (shown size before.entry) (shown size after.entry) size.columns (length out.old) out.new n) }
{
    let columns = size.columns as usize;
    if old.len() != columns || new.len() != columns {
        return Err(Fault::NoPicture);
    }
    let mut pair = Pair::new(size, before, after)?;
    redraw(&mut pair, out, old, new).ok_or(Fault::NoRoom)
}

/// What makes a terminal show a picture, at the front of `out`. `new` is room for a row.
pub fn paint(size: Size, after: Snapshot, new: &mut [u8], out: &mut [u8]) -> Result<usize, Fault>
    ensures no_picture { IsErrOf result Fault.NoPicture → ¬ (IsShown size after.entry × (length new.old ≡ size.columns)) }
    ensures no_room { IsErrOf result Fault.NoRoom → length out.old < paint_cost size.rows size.columns }
    ensures done { IfOk result (λ n. RepaintDone size.rows size.columns (shown size after.entry) (length out.old) out.new n) }
{
    if new.len() != size.columns as usize {
        return Err(Fault::NoPicture);
    }
    let mut pair = Pair::of_one(size, after)?;
    repaint(&mut pair, out, new).ok_or(Fault::NoRoom)
}

/// The most bytes that lead from one picture to another: 32 and, for each row that differs, 16 and the width.
pub fn bound<'a>(size: Size, before: Snapshot<'a>, after: Snapshot<'a>) -> Result<usize, Fault>
    ensures shown { IsOk result ↔ (IsShown size before.entry × IsShown size after.entry) }
    ensures fault { IfErr result (λ e. e ≡ Fault.NoPicture) }
    ensures cost { IfOk result (λ n. n ≡ cost size.columns (shown size before.entry) (shown size after.entry)) }
{
    let pair = Pair::new(size, before, after)?;
    Ok(32 + pair.differing_rows() * (16 + size.columns as usize))
}
