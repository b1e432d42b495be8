//! Which cells of a row are sent, and whether the rest is cleared: whatever takes fewer bytes.
ghost use Rattle.std.specs.Prelude.{◌≡◌, ℕ, ◌+◌, ◌-◌, ◌^◌, ◌<◌, ◌≤◌, length, MatchBool, MatchOption, ◌≢◌, slice_index};
ghost use Rattle.spec.specs.Screen.{blank};
ghost use Rattle.term_rows.specs.Cells.{SameCells, BlankCells};
ghost use Rattle.term_rows.specs.Shortest.{Shortest, ShortestWhole};

const CLEAR_LENGTH: usize = 3;

/// The cells from `from` to `to` are written, and then the rest of the row is cleared or left.
#[derive(Clone, Copy)]
pub struct Update {
    pub from: usize,
    pub to: usize,
    pub clear: bool,
}

/// Where two rows first differ.
fn first_difference(old: &[u8], new: &[u8]) -> Option<usize>
    requires { length old.now ≡ length new.now }
    ensures { MatchOption result (SameCells old.now new.now 0 (length old.now)) (λ i. (i < length old.now) × SameCells old.now new.now 0 i × (slice_index old.now i ≢ slice_index new.now i)) }
{
    old.iter().zip(new).position(|(a, b)| a != b)
}

/// From where on two rows are the same.
fn same_from(old: &[u8], new: &[u8]) -> usize
    requires { length old.now ≡ length new.now }
    ensures within { result ≤ length old.now }
    ensures same { SameCells old.now new.now result (length old.now) }
    ensures differs { 0 < result → slice_index old.now (result - 1) ≢ slice_index new.now (result - 1) }
{
    let ends = old.iter().rev().zip(new.iter().rev());
    old.len() - ends.take_while(|(a, b)| a == b).count()
}

/// From where on a row has only blanks.
fn blank_from(row: &[u8]) -> usize
    ensures within { result ≤ length row.now }
    ensures blanks { BlankCells row.now result }
    ensures inked { 0 < result → slice_index row.now (result - 1) ≢ blank }
{
    row.len() - row.iter().rev().take_while(|b| **b == b' ').count()
}

/// The cells from `from` to `run_end`, or those to `clear_end` and a clear, if that is shorter.
fn shorter(from: usize, run_end: usize, clear_end: usize) -> Update
    requires { clear_end + 3 < 2 ^ 64 }
    ensures from { result.from ≡ from }
    ensures shorter { MatchBool result.clear ((result.to ≡ clear_end) × (clear_end + 3 < run_end)) ((result.to ≡ run_end) × (run_end ≤ clear_end + 3)) }
{
    let clear = clear_end + CLEAR_LENGTH < run_end;
    let to = if clear { clear_end } else { run_end };
    Update { from, to, clear }
}

/// What turns `old` into `new`; None if they are the same.
pub fn shortest_update(old: &[u8], new: &[u8]) -> Option<Update>
    requires { length old.now ≡ length new.now }
    ensures { MatchOption result (old.now ≡ new.now) (λ u. Shortest old.now new.now u.from u.to u.clear) }
{
    let from = first_difference(old, new)?;
    let clear_end = from + blank_from(&new[from..]);
    Some(shorter(from, same_from(old, new), clear_end))
}

/// What turns any row into `new`.
pub fn whole_row(new: &[u8]) -> Update
    requires { 0 < length new.now }
    ensures from { result.from ≡ 0 }
    ensures whole { ShortestWhole new.now result.to result.clear }
{
    shorter(0, new.len(), blank_from(new))
}
