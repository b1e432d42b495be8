//! What a rope has in all.
ghost use Rattle.std.specs.Prelude.{◌≡◌, ◌+◌, ◌<◌, ◌≤◌, length};
ghost use Rattle.rope_cells.specs.Lending.{Lends};
ghost use Rattle.rope_read.specs.Text.{text};

use cells::Ref;
use rope_cells::Sum;
use words::Words;

// Kept: `len` and `sum` of rope_cells promise by a rope that is known, these by the text in the row, which is defined here: re-exported, those would leave each caller to prove this.

/// How many bytes the rope `p` has.
pub fn len<W: Words>(words: &mut W, p: Ref) -> u32
    requires rope { Lends (W.Words.row words.old) p.0 }
    ensures value { result ≡ length (text (W.Words.row words.old) p.0) }
    ensures few { result < 536870912 }
    ensures same { W.Words.row words.new ≡ W.Words.row words.old }
    ensures touches { W.touched words.new ≤ W.touched words.old + 2 }
{
    rope_cells::len(words, p)
}

/// The sum of all bytes of the rope `p`.
pub fn sum<S: Sum, W: Words>(words: &mut W, p: Ref) -> u32
    requires rope { Lends (W.Words.row words.old) p.0 }
    ensures value { result ≡ S.Sum.sums (text (W.Words.row words.old) p.0) }
    ensures same { W.Words.row words.new ≡ W.Words.row words.old }
    ensures touches { W.touched words.new ≤ W.touched words.old + 2 }
{
    rope_cells::sum::<S, W>(words, p)
}
