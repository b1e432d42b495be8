//! A cell's words.
ghost use Rattle.std.specs.Prelude.{◌≡◌, ℕ, ◌+◌, ◌*◌, ◌<◌, ◌≤◌, length, ◌==◌};
ghost use Rattle.cells.specs.Layout.{at, put};

use words::Words;

/// A cell, or none.
#[derive(Clone, Copy, PartialEq, Eq)]
pub struct Ref(pub(crate) u32);

/// Refers to nothing.
// Kept: 0 and no `Option`: a reference lies in the row as one counted word (fixed memory), and 0 is the empty tree, which is passed on, joined and cut as any other; it also ends the list of dead cells.
pub const NONE: Ref = Ref(0);

/// The cell whose first words are the heap's own.
pub(crate) const HEADER: Ref = Ref(0);

/// In the header, how many cells were taken.
pub(crate) const TAKEN: usize = 0;

/// In the header, the first dead cell.
pub(crate) const FIRST_DEAD: usize = 1;

pub(crate) const COUNT: usize = 0;

pub(crate) const LEFT: usize = 1;

pub(crate) const RIGHT: usize = 2;

/// The first of a cell's data words.
pub(crate) const DATA: usize = 3;

/// In a dead cell, the next dead one: a data word, so that the children stay.
pub(crate) const LINK: usize = 3;

impl Ref {
    /// Whether it refers to nothing.
    pub fn is_none(self) -> bool
        ensures { result ≡ (self.0 == 0) }
    {
        self == NONE
    }
}

/// Word `k` of cell `p`.
// Kept: that cell `p` lies within the row stands in the contracts of this crate, since a `Ref` is a number that says nothing of a row, and a type for both would have to borrow the row.
pub(crate) fn word<W: Words>(words: &mut W, p: Ref, k: usize) -> u32
    requires word { k < 16 }
    requires within { 16 * p.0 + 16 ≤ length (W.Words.row words.old) }
    ensures value { result ≡ at (W.Words.row words.old) p.0 k }
    ensures same { W.Words.row words.new ≡ W.Words.row words.old }
    ensures touches { W.touched words.new ≤ W.touched words.old + 1 }
{
    words.get(16 * p.0 as usize + k)
}

/// Writes word `k` of cell `p`.
pub(crate) fn write<W: Words>(words: &mut W, p: Ref, k: usize, x: u32)
    requires word { k < 16 }
    requires within { 16 * p.0 + 16 ≤ length (W.Words.row words.old) }
    ensures same { W.Words.row words.new ≡ put (W.Words.row words.old) p.0 k x }
    ensures long { length (W.Words.row words.new) ≡ length (W.Words.row words.old) }
    ensures touches { W.touched words.new ≤ W.touched words.old + 1 }
{
    words.put(16 * p.0 as usize + k, x);
}
