//! Two ropes as one: the lower goes down the side of the higher to where it fits, and nodes are rebalanced on the way up.
ghost use Rattle.std.specs.Prelude.{◌≡◌, ℕ, ◌+◌, ◌*◌, ◌<◌, ◌≤◌};
ghost use Rattle.cells.specs.Steps.{Kept};
ghost use Rattle.rope_cells.specs.Lending.{beside};
ghost use Rattle.rope.specs.Sided.{attach as attached};
ghost use Rattle.ropes.specs.Join.{concat as concatenated};
ghost use Rattle.rope.specs.Building.{Two, Joins, Onto, attach_price, Any, concat_price};

use crate::balancing::balance;
use crate::making::node_on;
use crate::merging::merge;
use crate::parting::halve;
use crate::sided::Side;
use cells::{Ref, or_release};
use rope_cells::{Shape, shapes_of};
use words::Words;

/// Whether two ropes may be the children of a node, where the first is not lower.
fn fits_beside(a: Shape, b: Shape) -> bool
    requires { b.height < 4294967295 }
    ensures { result ≡ beside a b }
{
    a.height <= b.height + 1 && !b.small
}

/// The guest, which is not higher, onto this side of the host, whose height is at most `levels`.
fn attach<W: Words>(words: &mut W, side: Side, host: Ref, guest: Ref, levels: u32) -> Option<Ref>
    requires { Two (Onto levels) (W.Words.row words.old) host.0 guest.0 (levels + 32) }
    ensures joins { Joins (Onto levels) (attached side) (attach_price side) 1 (W.Words.row words.old) (W.Words.row words.new) host.0 guest.0 (levels + 32) result (W.touched words.old) (W.touched words.new) }
    ensures kept { Kept (W.Words.row words.old) (W.Words.row words.new) }
{
    let shapes = shapes_of(words, host, guest);
    if shapes.first.height == 1 {
        let (left, right) = side.ordered(host, guest);
        return merge(words, left, right);
    }
    if fits_beside(shapes.first, shapes.second) {
        return node_on(words, side, host, guest);
    }
    let (first, second) = halve(words, side, host);
    let inner = attach(words, side, second, guest, levels - 1);
    let inner = or_release(words, inner, first)?;
    balance(words, side, first, inner)
}

/// The bytes of one rope and then those of the other, as a rope.
pub fn concat<W: Words>(words: &mut W, left: Ref, right: Ref) -> Option<Ref>
    requires { Two Any (W.Words.row words.old) left.0 right.0 128 }
    ensures joins { Joins Any concatenated concat_price 1 (W.Words.row words.old) (W.Words.row words.new) left.0 right.0 128 result (W.touched words.old) (W.touched words.new) }
    ensures kept { Kept (W.Words.row words.old) (W.Words.row words.new) }
{
    if left.is_none() {
        return Some(right);
    }
    if right.is_none() {
        return Some(left);
    }
    let shapes = shapes_of(words, left, right);
    if shapes.second.height <= shapes.first.height {
        attach(words, Side::Right, left, right, shapes.first.height)
    } else {
        attach(words, Side::Left, right, left, shapes.second.height)
    }
}
