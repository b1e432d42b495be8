//! The bytes of a range of a rope, leaf by leaf. A path down the rope is gone at each end of the range, and nowhere else.
ghost use Rattle.std.specs.Prelude.{◌≡◌, ◌+◌, ◌<◌, ◌≤◌, length, take, drop, ◌==◌};
ghost use Rattle.ropes.specs.Rope.{height};
ghost use Rattle.rope_cells.specs.LeafBytes.{items};
ghost use Rattle.rope_cells.specs.Lending.{Lends};
ghost use Rattle.rope_cells.specs.Leaves.{LendsLeaf};
ghost use Rattle.rope_read.specs.Text.{text};
ghost use Rattle.rope_read.specs.Ranges.{Sized, tag_price, price};

use crate::totals::len;
use cells::{Ref, left, right};
use rope_cells::{Bytes, LEAF_MIN, Leaf, left_sum, read_leaf, shape_of};
use words::Words;

/// How many bytes two leaves have at least.
const TWO_LEAVES: u32 = 2 * LEAF_MIN as u32;

/// Whether a rope of `size` bytes is a leaf. Its cell is read only where the number of its bytes doesn't tell.
fn is_leaf<W: Words>(words: &mut W, p: Ref, size: u32) -> bool
    requires rope { Sized (W.Words.row words.old) p.0 size }
    ensures value { (x : Sized (W.Words.row words.old) p.0 size) → result ≡ (height x.lends.rope == 1) }
    ensures same { W.Words.row words.new ≡ W.Words.row words.old }
    ensures touches { W.touched words.new ≤ W.touched words.old + tag_price size }
{
    if size == TWO_LEAVES {
        shape_of(words, p).height == 1
    } else {
        size < TWO_LEAVES
    }
}

/// Copies the bytes of a leaf from index `from` on.
fn copy_part(leaf: &Leaf, from: usize, into: &mut [u8])
    requires { from + length into.old ≤ length (items leaf.now) }
    ensures { into.new ≡ take (length into.old) (drop from (items leaf.now)) }
{
    into.copy_from_slice(&leaf[from..from + into.len()]);
}

/// Reads the bytes of the leaf `p` from place `from` on.
fn read_in_leaf<W: Words>(words: &mut W, p: Ref, from: usize, into: &mut [u8])
    requires rope { LendsLeaf (W.Words.row words.old) p.0 }
    requires inside { from + length into.old ≤ length (text (W.Words.row words.old) p.0) }
    ensures value { into.new ≡ take (length into.old) (drop from (text (W.Words.row words.old) p.0)) }
    ensures same { W.Words.row words.new ≡ W.Words.row words.old }
    ensures touches { W.touched words.new ≤ W.touched words.old + 13 }
{
    let leaf = read_leaf(words, p);
    copy_part(&leaf, from, into);
}

/// Reads the bytes of a rope of `size` bytes from place `from` on.
fn read_part<W: Words>(words: &mut W, p: Ref, size: u32, from: u32, into: &mut [u8])
    requires rope { Sized (W.Words.row words.old) p.0 size }
    requires inside { from + length into.old ≤ size }
    ensures value { into.new ≡ take (length into.old) (drop from (text (W.Words.row words.old) p.0)) }
    ensures same { W.Words.row words.new ≡ W.Words.row words.old }
    ensures touches { (x : Sized (W.Words.row words.old) p.0 size) → W.touched words.new + 4 ≤ W.touched words.old + price (height x.lends.rope) size from (length into.old) }
{
    if is_leaf(words, p, size) {
        read_in_leaf(words, p, from as usize, into);
        return;
    }
    let middle = left_sum::<Bytes, W>(words, p);
    if from + into.len() as u32 <= middle {
        let q = left(words, p);
        read_part(words, q, middle, from, into);
        return;
    }
    if middle <= from {
        let q = right(words, p);
        read_part(words, q, size - middle, from - middle, into);
        return;
    }
    let (front, back) = into.split_at_mut((middle - from) as usize);
    let l = left(words, p);
    read_part(words, l, middle, from, front);
    let r = right(words, p);
    read_part(words, r, size - middle, 0, back);
}

/// Reads the bytes of the rope `p` from place `from` on.
pub fn read<W: Words>(words: &mut W, p: Ref, from: u32, into: &mut [u8])
    requires rope { Lends (W.Words.row words.old) p.0 }
    requires inside { from + length into.old ≤ length (text (W.Words.row words.old) p.0) }
    ensures value { into.new ≡ take (length into.old) (drop from (text (W.Words.row words.old) p.0)) }
    ensures same { W.Words.row words.new ≡ W.Words.row words.old }
    ensures touches { W.touched words.new ≤ W.touched words.old + (170 + length into.old) }
{
    if into.is_empty() {
        return;
    }
    let size = len(words, p);
    if size < LEAF_MIN as u32 {
        read_in_leaf(words, p, from as usize, into);
    } else {
        read_part(words, p, size, from, into);
    }
}
