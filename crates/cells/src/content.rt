//! The data words of a cell.
ghost use Rattle.std.specs.Prelude.{◌≡◌, ℕ, ◌+◌, ◌*◌, ◌<◌, ◌≤◌, length, drop};
ghost use Rattle.cells.specs.Layout.{at, cell, put, over};

use crate::cell::{DATA, Ref, word, write};
use words::Words;

/// What a cell holds besides its children.
pub type Data = [u32; 13];

/// Writes data word `k` of cell `p`.
fn store_word<W: Words>(words: &mut W, p: Ref, k: usize, x: u32)
    requires word { k < 13 }
    requires within { 16 * p.0 + 16 ≤ length (W.Words.row words.old) }
    ensures same { W.Words.row words.new ≡ put (W.Words.row words.old) p.0 (3 + k) x }
    ensures long { length (W.Words.row words.new) ≡ length (W.Words.row words.old) }
    ensures touches { W.touched words.new ≤ W.touched words.old + 1 }
{
    write(words, p, DATA + k, x);
}

/// Data word `k` of cell `p`.
// Kept: apart from `data_word`, as `load` is from `data_words`: these say which words of a cell are read, those what the node of a tree has; one contract for both would have to spell out both.
pub(crate) fn load_word<W: Words>(words: &mut W, p: Ref, k: usize) -> u32
    requires word { k < 13 }
    requires within { 16 * p.0 + 16 ≤ length (W.Words.row words.old) }
    ensures value { result ≡ at (W.Words.row words.old) p.0 (3 + k) }
    ensures same { W.Words.row words.new ≡ W.Words.row words.old }
    ensures touches { W.touched words.new ≤ W.touched words.old + 1 }
{
    word(words, p, DATA + k)
}

/// Writes the data words of cell `p`.
pub(crate) fn store<W: Words>(words: &mut W, p: Ref, data: Data)
    requires within { 16 * p.0 + 16 ≤ length (W.Words.row words.old) }
    ensures same { W.Words.row words.new ≡ over (W.Words.row words.old) (16 * p.0 + 3) «data» }
    ensures long { length (W.Words.row words.new) ≡ length (W.Words.row words.old) }
    ensures touches { W.touched words.new ≤ W.touched words.old + 13 }
{
    for (k, x) in data.iter().enumerate() {
        store_word(words, p, k, *x);
    }
}

/// The data words of cell `p`.
pub(crate) fn load<W: Words>(words: &mut W, p: Ref) -> Data
    requires within { 16 * p.0 + 16 ≤ length (W.Words.row words.old) }
    ensures value { result ≡ drop 3 (cell (W.Words.row words.old) p.0) }
    ensures same { W.Words.row words.new ≡ W.Words.row words.old }
    ensures touches { W.touched words.new ≤ W.touched words.old + 13 }
{
    let mut data = [0; 13];
    for (k, x) in data.iter_mut().enumerate() {
        *x = load_word(words, p, k);
    }
    data
}
