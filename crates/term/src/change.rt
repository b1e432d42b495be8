//! A change of picture, as it is read row by row.
ghost use Rattle.std.specs.Prelude.{◌≡◌, ℕ, ◌+◌, ◌<◌, ◌≤◌, T, List, [], length, slice_index_or};
ghost use Rattle.term.specs.Scene.{Scene};

use term_rows::Position;

/// Two pictures: what stands on the screen, and what shall. Rows are read mostly from the top; the
/// last row comes before them, and the cursor's row behind them.
// Kept: both pictures may lie in one mutable row of words, so they can't be two values of a trait; one method for both would take which of them, and each of its clauses would choose between the two.
pub trait Change {
    /// What reading leaves as it is.
    ghost scene: { Self → Scene };

    /// How many words were touched so far.
    ghost touched: { Self → ℕ };

    /// What reading needs, and keeps.
    ghost ready: { Self → Type 0 };

    fn rows(&self) -> u16
        requires { ready self.now }
        ensures { result ≡ length (scene self.now).before.rows };

    fn cursor_before(&self) -> Position
        requires { ready self.now }
        ensures row { result.row ≡ (scene self.now).before.cursor_row }
        ensures column { result.column ≡ (scene self.now).before.cursor_column };

    fn cursor_after(&self) -> Position
        requires { ready self.now }
        ensures row { result.row ≡ (scene self.now).after.cursor_row }
        ensures column { result.column ≡ (scene self.now).after.cursor_column };

    /// Whether a row is known to be the same without being read.
    fn unchanged(&self, row: u16) -> bool
        requires { (ready self.now) × (row < length (scene self.now).before.rows) }
        ensures { T result → slice_index_or (scene self.now).before.rows row [] ≡ slice_index_or (scene self.now).after.rows row [] };

    fn read_before(&mut self, row: u16, into: &mut [u8])
        requires ready { ready self.old }
        requires within { row < length (scene self.old).before.rows }
        requires width { length (slice_index_or (scene self.old).before.rows row []) ≡ length into.old }
        ensures copied { into.new ≡ slice_index_or (scene self.old).before.rows row [] }
        ensures same { scene self.new ≡ scene self.old }
        ensures still_ready { ready self.new }
        ensures touches { touched self.new ≤ touched self.old + (scene self.old).row_touches };

    fn read_after(&mut self, row: u16, into: &mut [u8])
        requires ready { ready self.old }
        requires within { row < length (scene self.old).after.rows }
        requires width { length (slice_index_or (scene self.old).after.rows row []) ≡ length into.old }
        ensures copied { into.new ≡ slice_index_or (scene self.old).after.rows row [] }
        ensures same { scene self.new ≡ scene self.old }
        ensures still_ready { ready self.new }
        ensures touches { touched self.new ≤ touched self.old + (scene self.old).row_touches };
}
