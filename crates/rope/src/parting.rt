//! Taking a node apart.
ghost use Rattle.std.specs.Prelude.{◌≡◌, ℕ, ◌+◌, ◌≤◌};
ghost use Rattle.cells.specs.Steps.{Kept, Opening};
ghost use Rattle.rope.specs.Building.{Halved};

use crate::sided::Side;
use cells::{Ref, part};
use words::Words;

/// Lets the node `p` go for its children, the second the one on this side.
pub fn halve<W: Words>(words: &mut W, side: Side, p: Ref) -> (Ref, Ref)
    requires { Opening (W.Words.row words.old) p.0 }
    ensures halved { Halved side (W.Words.row words.old) (W.Words.row words.new) p.0 result.0.0 result.1.0 }
    ensures kept { Kept (W.Words.row words.old) (W.Words.row words.new) }
    ensures touches { W.touched words.new ≤ W.touched words.old + 11 }
{
    let children = part(words, p);
    side.ordered(children.left, children.right)
}
