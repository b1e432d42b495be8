//! Bringing a node back into balance whose second child became too high.
ghost use Rattle.std.specs.Prelude.{◌≡◌, ℕ, ◌+◌, ◌*◌, ◌<◌, ◌≤◌};
ghost use Rattle.cells.specs.Steps.{Kept};
ghost use Rattle.rope.specs.Sided.{rotate_on, balance_on, rotations_on};
ghost use Rattle.rope.specs.Building.{Two, Joins, Peak, Doubles, Leaning, Near};

use crate::making::node_on;
use crate::parting::halve;
use crate::sided::Side;
use cells::{Ref, or_release, release_both};
use rope_cells::shapes_of;
use words::Words;

/// Three parts as two nodes in one: `b` is parted between `a` and `c`.
fn rotate_double<W: Words>(words: &mut W, side: Side, a: Ref, b: Ref, c: Ref) -> Option<Ref>
    requires { Peak (W.Words.row words.old) a.0 b.0 c.0 }
    ensures doubles { Doubles side (W.Words.row words.old) (W.Words.row words.new) a.0 b.0 c.0 result (W.touched words.old) (W.touched words.new) }
    ensures kept { Kept (W.Words.row words.old) (W.Words.row words.new) }
{
    let (first, second) = halve(words, side, b);
    // Kept: two references are let go here, which `or_release` does for one.
    let Some(x) = node_on(words, side, a, first) else {
        release_both(words, second, c);
        return None;
    };
    let y = node_on(words, side, second, c);
    let y = or_release(words, y, x)?;
    node_on(words, side, x, y)
}

/// A part and one that is too high beside it, rotated.
fn rotate<W: Words>(words: &mut W, side: Side, a: Ref, b: Ref) -> Option<Ref>
    requires { Two Leaning (W.Words.row words.old) a.0 b.0 16 }
    ensures joins { Joins Leaning (rotate_on side) (λ _ _. 135) 1 (W.Words.row words.old) (W.Words.row words.new) a.0 b.0 16 result (W.touched words.old) (W.touched words.new) }
    ensures kept { Kept (W.Words.row words.old) (W.Words.row words.new) }
{
    let (first, second) = halve(words, side, b);
    let shapes = shapes_of(words, first, second);
    if shapes.first.height > shapes.second.height {
        return rotate_double(words, side, a, first, second);
    }
    let x = node_on(words, side, a, first);
    let x = or_release(words, x, second)?;
    node_on(words, side, x, second)
}

/// A node of two parts, of which the second may be too high, or what it is rotated to.
pub fn balance<W: Words>(words: &mut W, side: Side, a: Ref, b: Ref) -> Option<Ref>
    requires { Two Near (W.Words.row words.old) a.0 b.0 16 }
    ensures joins { Joins Near (balance_on side) (λ u v. 39 + 98 * rotations_on side u v) 1 (W.Words.row words.old) (W.Words.row words.new) a.0 b.0 16 result (W.touched words.old) (W.touched words.new) }
    ensures kept { Kept (W.Words.row words.old) (W.Words.row words.new) }
{
    let shapes = shapes_of(words, a, b);
    if shapes.first.height + 1 < shapes.second.height {
        rotate(words, side, a, b)
    } else {
        node_on(words, side, a, b)
    }
}
