//! Making nodes and leaves.
ghost use Rattle.std.specs.Prelude.{◌≡◌, ℕ, ◌+◌, ◌<◌, ◌≤◌, length, IfSome};
ghost use Rattle.cells.specs.Steps.{Kept};
ghost use Rattle.ropes.specs.Rope.{Octets};
ghost use Rattle.ropes.specs.Rope.{node as node_of};
ghost use Rattle.ropes.specs.Layout.{node_data as data_of_node};
ghost use Rattle.rope.specs.Sided.{node_on};
ghost use Rattle.rope.specs.Building.{Two, Joins, Fit, Free, Leafed};
ghost use Rattle.rope.specs.Cutting.{Leaves};

use crate::cutting::Cut;
use crate::sided::Side;
use cells::{Data, NONE, Node, Ref, make, or_release};
use rope_cells::{node_data, pack, summary_of};
use words::Words;

/// The data words of a node of two ropes.
fn data_of<W: Words>(words: &mut W, left: Ref, right: Ref) -> Data
    requires { Two Fit (W.Words.row words.old) left.0 right.0 0 }
    ensures value { (x : Two Fit (W.Words.row words.old) left.0 right.0 0) → result ≡ data_of_node x.u x.v }
    ensures same { W.Words.row words.new ≡ W.Words.row words.old }
    ensures touches { W.touched words.new ≤ W.touched words.old + 6 }
{
    let a = summary_of(words, left);
    let b = summary_of(words, right);
    node_data(a, b)
}

/// A node of two ropes.
pub fn node<W: Words>(words: &mut W, left: Ref, right: Ref) -> Option<Ref>
    requires { Two Fit (W.Words.row words.old) left.0 right.0 0 }
    ensures joins { Joins Fit node_of (λ _ _. 37) 0 (W.Words.row words.old) (W.Words.row words.new) left.0 right.0 0 result (W.touched words.old) (W.touched words.new) }
    ensures kept { Kept (W.Words.row words.old) (W.Words.row words.new) }
{
    let data = data_of(words, left, right);
    make(words, Node { left, right, data })
}

/// A node of two ropes, of which the second is on this side.
pub fn node_on<W: Words>(words: &mut W, side: Side, first: Ref, second: Ref) -> Option<Ref>
    requires { Two Fit (W.Words.row words.old) first.0 second.0 0 }
    ensures joins { Joins Fit (node_on side) (λ _ _. 37) 0 (W.Words.row words.old) (W.Words.row words.new) first.0 second.0 0 result (W.touched words.old) (W.touched words.new) }
    ensures kept { Kept (W.Words.row words.old) (W.Words.row words.new) }
{
    let (left, right) = side.ordered(first, second);
    node(words, left, right)
}

/// A leaf of these bytes.
// Kept: a slice with its bound as a clause: a type that borrows it would be made, and its invariant proved, at each call.
pub fn leaf<W: Words>(words: &mut W, bytes: &[u8]) -> Option<Ref>
    requires heap { Free (W.Words.row words.old) 0 }
    requires fits { length bytes.now ≤ 48 }
    ensures leafed { Leafed (W.Words.row words.old) (W.Words.row words.new) bytes.now result (W.touched words.old) (W.touched words.new) }
    ensures octets { Octets bytes.now }
    ensures kept { Kept (W.Words.row words.old) (W.Words.row words.new) }
{
    let data = pack(bytes);
    make(
        words,
        Node {
            left: NONE,
            right: NONE,
            data,
        },
    )
}

/// A leaf of these bytes and one of those.
pub fn leaves<W: Words>(words: &mut W, front: &[u8], back: &[u8]) -> Option<Cut>
    requires heap { Free (W.Words.row words.old) 1 }
    requires front { length front.now ≤ 48 }
    requires back { length back.now ≤ 48 }
    ensures leaves { Leaves (W.Words.row words.old) (W.Words.row words.new) front.now back.now result (W.touched words.old) (W.touched words.new) }
    ensures octets { IfSome result (λ _. Octets front.now × Octets back.now) }
    ensures kept { Kept (W.Words.row words.old) (W.Words.row words.new) }
{
    let front = leaf(words, front)?;
    let back = leaf(words, back);
    let back = or_release(words, back, front)?;
    Some(Cut { front, back })
}
