//! Two leaves as one, where they fit in one, or as two that are filled.
ghost use Rattle.std.specs.Prelude.{◌≡◌, ℕ, ◌+◌, ◌*◌, ◌<◌, ◌≤◌, ◌&&◌, length};
ghost use Rattle.cells.specs.Steps.{Kept};
ghost use Rattle.ropes.specs.Join.{merge as merged};
ghost use Rattle.rope.specs.Merging.{stays};
ghost use Rattle.rope.specs.Building.{Two, Joins, Free, TwoLeaves, Spreads};

use crate::making::{leaf, leaves, node};
use cells::{Ref, release_both};
use rope_cells::{LEAF_MAX, LEAF_MIN, joined, read_leaf};
use words::Words;

/// One leaf of these bytes, or two where they are too many for one.
fn spread<W: Words>(words: &mut W, bytes: &[u8]) -> Option<Ref>
    requires heap { Free (W.Words.row words.old) 2 }
    requires few { length bytes.now ≤ 96 }
    requires some { 1 ≤ length bytes.now }
    ensures spreads { Spreads (W.Words.row words.old) (W.Words.row words.new) bytes.now result (W.touched words.old) (W.touched words.new) }
    ensures kept { Kept (W.Words.row words.old) (W.Words.row words.new) }
{
    if bytes.len() <= LEAF_MAX {
        return leaf(words, bytes);
    }
    let (front, back) = bytes.split_at(bytes.len() / 2);
    let halves = leaves(words, front, back)?;
    node(words, halves.front, halves.back)
}

/// Whether two leaves of so many bytes stay as they are: one leaf would be too small for their bytes, and neither is too small.
fn stay(a: usize, b: usize) -> bool
    requires { a + b < 128 }
    ensures { result ≡ stays a b }
{
    a + b > LEAF_MAX && a >= LEAF_MIN && b >= LEAF_MIN
}

/// Two leaves as one, or as two.
pub fn merge<W: Words>(words: &mut W, left: Ref, right: Ref) -> Option<Ref>
    requires { Two TwoLeaves (W.Words.row words.old) left.0 right.0 2 }
    ensures joins { Joins TwoLeaves merged (λ _ _. 135) 0 (W.Words.row words.old) (W.Words.row words.new) left.0 right.0 2 result (W.touched words.old) (W.touched words.new) }
    ensures kept { Kept (W.Words.row words.old) (W.Words.row words.new) }
{
    let a = read_leaf(words, left);
    let b = read_leaf(words, right);
    if stay(a.len(), b.len()) {
        return node(words, left, right);
    }
    release_both(words, left, right);
    spread(words, &joined(&a, &b))
}
