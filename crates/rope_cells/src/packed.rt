//! The data words of a leaf, which are its sums as the digits of one word and its bytes four to a word, and those of a node.
ghost use Rattle.std.specs.Prelude.{◌≡◌, ℕ, ◌+◌, ◌*◌, ◌<◌, ◌≤◌, max, List, length};
ghost use Rattle.ropes.specs.Rope.{Rope, bytes, height as height_of, leaf_max, Octets};
ghost use Rattle.ropes.specs.Layout.{sums_of, word_at, pack as packed, digit, byte_of as nth_byte, leaf_data, node_data as data_of_node};
ghost use Rattle.rope_cells.specs.LeafBytes.{LeafIs};
ghost use Rattle.rope_cells.specs.Packed.{Addable};
ghost use Rattle.rope_cells.specs.Lending.{SummaryIs};

use crate::leaf_bytes::{LEAF_MAX, Leaf};
use crate::reading::{NODE, Summary};
use crate::sums::{Sums, USED, sums_of};
use cells::Data;
use std::array;

/// From which word on a node's data have the sums of all its bytes.
pub const SUMS: usize = 1;

/// From which word on they have those of its left child.
pub const LEFT_SUMS: usize = 7;

/// The base of the digits of a first data word.
pub const BASE: u32 = 64;

/// The first data word of a leaf of these bytes: its sums, the first lowest.
// Kept: as a `fold` the proof didn't close: that each step may be taken, and what comes of all of them.
fn leaf_tag(bytes: &[u8]) -> u32
    requires { length bytes.now ≤ 48 }
    ensures { result ≡ packed (sums_of bytes.now) }
{
    let mut tag = 0;
    for sum in sums_of(bytes).iter().rev() {
        tag = BASE * tag + sum;
    }
    tag
}

/// Digit `k` of a leaf's first data word.
#[tactic(auto, using(ropes::proofs::Packs::digit_is))]
pub fn digit_of(tag: u32, k: usize) -> u32
    ensures { result ≡ digit tag k }
{
    let mut rest = tag;
    for _ in 0..k {
        rest /= BASE;
    }
    rest % BASE
}

/// The sums of the leaf with this first data word.
pub fn leaf_sums(tag: u32) -> Sums
    ensures { (xs : List ℕ) → length xs ≤ leaf_max → tag ≡ packed (sums_of xs) → result ≡ sums_of xs }
{
    let mut sums = [0; 6];
    for (k, sum) in sums[..USED].iter_mut().enumerate() {
        *sum = digit_of(tag, k);
    }
    sums
}

/// Word `k` of some bytes, with zeros behind them.
fn word_at(bytes: &[u8], k: usize) -> u32
    requires { k < 12 }
    ensures { result ≡ word_at bytes.now k }
{
    u32::from_le_bytes(array::from_fn(|j| bytes.get(4 * k + j).copied().unwrap_or(0)))
}

/// The data words of a leaf of these bytes.
// Kept: a slice with its bound as a clause: a type that borrows it would be made, and its invariant proved, at each call.
pub fn pack(bytes: &[u8]) -> Data
    requires { length bytes.now ≤ 48 }
    ensures value { result ≡ leaf_data bytes.now }
    ensures octets { Octets bytes.now }
{
    let words: [u32; 12] = array::from_fn(|k| word_at(bytes, k));
    let mut data = [0; 13];
    data[0] = leaf_tag(bytes);
    data[1..].copy_from_slice(&words);
    data
}

/// Byte `j` of a word.
#[tactic(auto, using(crate::proofs::Packings::le_byte))]
pub fn byte_of(word: u32, j: usize) -> u8
    requires { j < 4 }
    ensures { result ≡ nth_byte word j }
{
    word.to_le_bytes()[j]
}

/// The bytes of the leaf with these data words; behind them are zeros.
pub fn unpack(words: &Data) -> Leaf
    ensures { (xs : List ℕ) → length xs ≤ leaf_max → Octets xs → words.now ≡ leaf_data xs → LeafIs result xs }
{
    let mut bytes = [0; LEAF_MAX];
    for k in 0..12 {
        bytes[4 * k..4 * k + 4].copy_from_slice(&words[1 + k].to_le_bytes());
    }
    let len = (words[0] % BASE) as usize;
    Leaf {
        len: len.min(LEAF_MAX),
        bytes,
    }
}

/// The data words of a node of this height whose children have these sums.
pub fn node_data_at(height: u32, left: Sums, right: Sums) -> Data
    requires height { height < 67108863 }
    requires sums { Addable left right }
    ensures { (u v : Rope) → height ≡ max (height_of u) (height_of v) + 1 → left ≡ sums_of (bytes u) → right ≡ sums_of (bytes v) → result ≡ data_of_node u v }
{
    let both: Sums = array::from_fn(|k| left[k] + right[k]);
    let mut data = [0; 13];
    data[0] = NODE + BASE * height;
    data[SUMS..LEFT_SUMS].copy_from_slice(&both);
    data[LEFT_SUMS..].copy_from_slice(&left);
    data
}

/// The data words of a node of two ropes.
pub fn node_data(left: Summary, right: Summary) -> Data
    requires heights { max left.height right.height < 67108862 }
    requires sums { Addable left.sums right.sums }
    ensures { (u v : Rope) → SummaryIs u left → SummaryIs v right → result ≡ data_of_node u v }
{
    node_data_at(left.height.max(right.height) + 1, left.sums, right.sums)
}
