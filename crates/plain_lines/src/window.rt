//! The part of the text that is seen: how large it is, and where it begins.
ghost use Rattle.std.specs.Prelude.{◌≡◌, ◌+◌, ◌<◌, ◌≤◌, MatchOption};

// Rows, of which the last one shows the status, and columns.
// Kept: a size and a position of its own, as `pictures` and `term_rows` have theirs, since the second editor shares no code with the first.
#[derive(Clone, Copy)]
pub struct Size {
    rows: usize,
    columns: usize,
    ghost least: { (2 ≤ rows) × (1 ≤ columns) },
    ghost most: { (rows ≤ 9999) × (columns ≤ 9999) },
}

impl Size {
    // Of rows, and of columns.
    pub const MOST: usize = 9_999;

    pub fn new(rows: usize, columns: usize) -> Option<Size>
        ensures { MatchOption result
            ((2 ≤ rows) → (rows ≤ 9999) → (1 ≤ columns) → (columns ≤ 9999) → ⊥)
            (λ s. (s.rows ≡ rows) × (s.columns ≡ columns)) }
    {
        if rows < 2 || rows > Size::MOST || columns < 1 || columns > Size::MOST {
            return None;
        }
        Some(Size { rows, columns })
    }

    pub fn rows(self) -> usize
        ensures value { result ≡ self.rows }
        ensures least { 2 ≤ result }
        ensures most { result ≤ 9999 }
    {
        self.rows
    }

    pub fn columns(self) -> usize
        ensures value { result ≡ self.columns }
        ensures least { 1 ≤ result }
        ensures most { result ≤ 9999 }
    {
        self.columns
    }
}

// Where what is shown begins, moved as little as it must so that `at` is among as many as are shown.
fn scrolled(first: usize, shown: usize, at: usize) -> usize
    requires { 0 < shown }
    ensures up { at < first → result ≡ at }
    ensures down { first + shown ≤ at → result + shown ≡ at + 1 }
    ensures stays { first ≤ at → at < first + shown → result ≡ first }
{
    if at < first {
        at
    } else if at - first >= shown {
        at - (shown - 1)
    } else {
        first
    }
}

// A row and a column of the screen, counted from 0.
#[derive(Clone, Copy, Debug, PartialEq, Eq)]
pub struct Position {
    pub row: usize,
    pub column: usize,
}

// The first line and column that are seen, and where the cursor is on the screen.
#[derive(Clone, Copy)]
pub struct Window {
    pub size: Size,
    pub top: usize,
    pub left: usize,
    pub cursor: Position,
    ghost in_sight: { (cursor.row + 1 < size.rows) × (cursor.column < size.columns) },
}

impl Window {
    pub fn new(size: Size) -> Window
        ensures first { (result.top ≡ 0) × (result.left ≡ 0) }
        ensures cursor { (result.cursor.row ≡ 0) × (result.cursor.column ≡ 0) }
        ensures size { result.size ≡ size }
    {
        Window {
            size,
            top: 0,
            left: 0,
            cursor: Position { row: 0, column: 0 },
        }
    }

    // Moves as little as it must to show a line and a column.
    pub fn follow(self, line: usize, column: usize) -> Window
        ensures row { result.top + result.cursor.row ≡ line }
        ensures column { result.left + result.cursor.column ≡ column }
        ensures size { result.size ≡ self.size }
    {
        let size = self.size;
        let top = scrolled(self.top, size.rows() - 1, line);
        let left = scrolled(self.left, size.columns(), column);
        Window {
            size,
            top,
            left,
            cursor: Position {
                row: line - top,
                column: column - left,
            },
        }
    }
}
