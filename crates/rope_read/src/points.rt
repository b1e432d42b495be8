//! The byte at a place, the sum of the bytes before a place, and the place at which a sum is reached.
ghost use Rattle.std.specs.Prelude.{◌≡◌, ◌+◌, ◌<◌, ◌≤◌, length, take, drop, slice_index};
ghost use Rattle.rope_cells.specs.LeafBytes.{items};
ghost use Rattle.rope_cells.specs.Lending.{Lends};
ghost use Rattle.rope_read.specs.Text.{text};
ghost use Rattle.rope_read.specs.Reading.{Reached};

use crate::locating::locate;
use crate::totals::len;
use cells::Ref;
use rope_cells::{Bytes, Leaf, Sum};
use words::Words;

/// Byte `i` of a leaf.
fn byte_in(leaf: &Leaf, i: usize) -> u8
    requires { i < length (items leaf.now) }
    ensures { result ≡ slice_index (items leaf.now) i }
{
    leaf[i]
}

/// The sum of the first `n` bytes of a leaf.
fn front_sum<S: Sum>(leaf: &Leaf, n: usize) -> u32
    requires { n ≤ length (items leaf.now) }
    ensures { result ≡ S.Sum.sums (take n (items leaf.now)) }
{
    S::of(&leaf[..n])
}

/// The sum of byte `k` of some bytes.
fn sum_at<S: Sum>(part: &[u8], k: usize) -> u32
    requires inside { k < length part.now }
    requires few { length part.now ≤ 48 }
    ensures { result ≡ S.Sum.sums (take 1 (drop k part.now)) }
{
    S::of(&part[k..k + 1])
}

/// The byte at place `at` of the rope `p`.
pub fn byte_at<W: Words>(words: &mut W, p: Ref, at: u32) -> u8
    requires rope { Lends (W.Words.row words.old) p.0 }
    requires inside { at < length (text (W.Words.row words.old) p.0) }
    ensures value { result ≡ slice_index (text (W.Words.row words.old) p.0) at }
    ensures same { W.Words.row words.new ≡ W.Words.row words.old }
    ensures touches { W.touched words.new ≤ W.touched words.old + 160 }
{
    let spot = locate::<Bytes, Bytes, W>(words, p, at + 1);
    byte_in(&spot.leaf, (at - spot.by) as usize)
}

/// The sum of the bytes of the rope `p` before place `at`.
pub fn prefix<S: Sum, W: Words>(words: &mut W, p: Ref, at: u32) -> u32
    requires rope { Lends (W.Words.row words.old) p.0 }
    ensures value { result ≡ S.Sum.sums (take at (text (W.Words.row words.old) p.0)) }
    ensures same { W.Words.row words.new ≡ W.Words.row words.old }
    ensures touches { W.touched words.new ≤ W.touched words.old + 160 }
{
    if p.is_none() {
        return 0;
    }
    let end = at.min(len(words, p));
    let spot = locate::<Bytes, S, W>(words, p, end);
    spot.of + front_sum::<S>(&spot.leaf, (end - spot.by) as usize)
}

/// The least number of bytes at the front of `part` that sum to `n`.
fn reach_in<S: Sum>(part: &Leaf, n: u32) -> usize
    requires { n ≤ S.Sum.sums (items part.now) }
    ensures { Reached S.Sum.sums (items part.now) n result }
{
    let mut sum = 0;
    for k in 0..part.len() {
        if sum == n {
            return k;
        }
        sum += sum_at::<S>(part, k);
    }
    part.len()
}

/// The least place of the rope `p` before which the bytes sum to `n`.
pub fn seek<S: Sum, W: Words>(words: &mut W, p: Ref, n: u32) -> u32
    requires rope { Lends (W.Words.row words.old) p.0 }
    requires reached { n ≤ S.Sum.sums (text (W.Words.row words.old) p.0) }
    ensures value { Reached S.Sum.sums (text (W.Words.row words.old) p.0) n result }
    ensures same { W.Words.row words.new ≡ W.Words.row words.old }
    ensures touches { W.touched words.new ≤ W.touched words.old + 160 }
{
    if p.is_none() {
        return 0;
    }
    let spot = locate::<S, Bytes, W>(words, p, n);
    spot.of + reach_in::<S>(&spot.leaf, n - spot.by) as u32
}
