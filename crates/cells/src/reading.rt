//! Reading a node, which is lent and stays as it is.
ghost use Rattle.std.specs.Prelude.{◌≡◌, ℕ, ◌+◌, ◌*◌, ◌<◌, ◌≤◌, length};
ghost use Rattle.cells.specs.Layout.{at};
ghost use Rattle.cells.specs.Steps.{Reading, LeftRead, RightRead, WordRead, WordsRead};

use crate::cell::{LEFT, RIGHT, Ref, word};
use crate::content::{Data, load, load_word};
use words::Words;

/// The left child of cell `p`.
pub(crate) fn left_of<W: Words>(words: &mut W, p: Ref) -> Ref
    requires within { 16 * p.0 + 16 ≤ length (W.Words.row words.old) }
    ensures value { result.0 ≡ at (W.Words.row words.old) p.0 1 }
    ensures same { W.Words.row words.new ≡ W.Words.row words.old }
    ensures touches { W.touched words.new ≤ W.touched words.old + 1 }
{
    Ref(word(words, p, LEFT))
}

/// The right child of cell `p`.
pub(crate) fn right_of<W: Words>(words: &mut W, p: Ref) -> Ref
    requires within { 16 * p.0 + 16 ≤ length (W.Words.row words.old) }
    ensures value { result.0 ≡ at (W.Words.row words.old) p.0 2 }
    ensures same { W.Words.row words.new ≡ W.Words.row words.old }
    ensures touches { W.touched words.new ≤ W.touched words.old + 1 }
{
    Ref(word(words, p, RIGHT))
}

// Kept: `left` and `right` stay two, of a line each: one for both would take a side, and its clause would be a match on it.

/// The left child of the node `p`.
pub fn left<W: Words>(words: &mut W, p: Ref) -> Ref
    requires { Reading (W.Words.row words.old) p.0 }
    ensures lent { LeftRead (W.Words.row words.old) p.0 result.0 }
    ensures same { W.Words.row words.new ≡ W.Words.row words.old }
    ensures touches { W.touched words.new ≤ W.touched words.old + 1 }
{
    left_of(words, p)
}

/// The right child of the node `p`.
pub fn right<W: Words>(words: &mut W, p: Ref) -> Ref
    requires { Reading (W.Words.row words.old) p.0 }
    ensures lent { RightRead (W.Words.row words.old) p.0 result.0 }
    ensures same { W.Words.row words.new ≡ W.Words.row words.old }
    ensures touches { W.touched words.new ≤ W.touched words.old + 1 }
{
    right_of(words, p)
}

/// Data word `k` of the node `p`.
pub fn data_word<W: Words>(words: &mut W, p: Ref, k: usize) -> u32
    requires node { Reading (W.Words.row words.old) p.0 }
    requires word { k < 13 }
    ensures value { WordRead (W.Words.row words.old) p.0 k result }
    ensures same { W.Words.row words.new ≡ W.Words.row words.old }
    ensures touches { W.touched words.new ≤ W.touched words.old + 1 }
{
    load_word(words, p, k)
}

/// All data words of the node `p`.
pub fn data_words<W: Words>(words: &mut W, p: Ref) -> Data
    requires { Reading (W.Words.row words.old) p.0 }
    ensures value { WordsRead (W.Words.row words.old) p.0 result }
    ensures same { W.Words.row words.new ≡ W.Words.row words.old }
    ensures touches { W.touched words.new ≤ W.touched words.old + 13 }
{
    load(words, p)
}
