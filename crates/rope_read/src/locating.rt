//! The leaf of a rope in which a sum is reached, with its bytes and what is summed before it.
ghost use Rattle.std.specs.Prelude.{◌≡◌, ◌+◌, ◌≤◌, nat_le};
ghost use Rattle.rope_cells.specs.Lending.{LendsSome};
ghost use Rattle.rope_read.specs.Text.{text};
ghost use Rattle.rope_read.specs.Locating.{Located};

use cells::{Ref, left, right};
use rope_cells::{Leaf, Sum, left_sum, read_leaf, shape_of};
use words::Words;

/// A leaf of a rope, and two sums of the bytes before it.
#[derive(Clone, Copy)]
pub struct Spot {
    pub leaf: Leaf,
    pub by: u32,
    pub of: u32,
}

/// Whether the sum `n` is reached where the bytes sum to `up_to`.
fn is_reached(n: u32, up_to: u32) -> bool
    ensures { result ≡ nat_le n up_to }
{
    n <= up_to
}

/// The leaf of the rope `p` up to whose end the sum `By` is `n` or more, and before which it is less.
pub fn locate<By: Sum, Of: Sum, W: Words>(words: &mut W, p: Ref, n: u32) -> Spot
    requires rope { LendsSome (W.Words.row words.old) p.0 }
    requires reaches { n ≤ By.Sum.sums (text (W.Words.row words.old) p.0) }
    ensures value { Located By.Sum.sums Of.Sum.sums (text (W.Words.row words.old) p.0) n result }
    ensures same { W.Words.row words.new ≡ W.Words.row words.old }
    ensures touches { W.touched words.new ≤ W.touched words.old + 153 }
{
    let mut part = p;
    let mut by = 0;
    let mut of = 0;
    while shape_of(words, part).height > 1 {
        let up_to = by + left_sum::<By, W>(words, part);
        if is_reached(n, up_to) {
            part = left(words, part);
        } else {
            by = up_to;
            of += left_sum::<Of, W>(words, part);
            part = right(words, part);
        }
    }
    Spot {
        leaf: read_leaf(words, part),
        by,
        of,
    }
}
