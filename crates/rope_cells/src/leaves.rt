//! Reading leaves, and the bytes of two of them as one.
ghost use Rattle.std.specs.Prelude.{◌≡◌, ℕ, ◌+◌, ◌≤◌, ◌++◌, List, length, ◌==◌};
ghost use Rattle.rope_cells.specs.LeafBytes.{items, LeafIs};
ghost use Rattle.rope_cells.specs.Leaves.{LendsLeaf};

use crate::leaf_bytes::{LEAF_MAX, Leaf};
use crate::packed::unpack;
use arrayvec::ArrayVec;
use cells::{Ref, data_words};
use std::ops::DerefSlice;
use words::Words;

/// How many bytes a leaf has at least beside other leaves.
pub const LEAF_MIN: usize = 24;

/// How many bytes two leaves have at most.
const TWO_LEAVES: usize = 2 * LEAF_MAX;

impl Leaf {
    /// How many bytes there are.
    pub fn len(&self) -> usize
        ensures value { result ≡ length (items self.now) }
        ensures few { result ≤ 48 }
    {
        self.deref().len()
    }

    /// Whether there are none.
    pub fn is_empty(&self) -> bool
        ensures { result ≡ (length (items self.now) == 0) }
    {
        self.deref().is_empty()
    }
}

impl DerefSlice for Leaf {
    type Elem = u8;

    ghost deref_gives = { λ s xs. (xs ≡ items s) × (length xs ≤ 48) };

    #[tactic(auto, using(crate::proofs::Packings::items_are, crate::proofs::Packings::items_few))]
    fn deref(&self) -> &[u8] {
        &self.bytes[..self.len]
    }
}

/// The bytes of the leaf `p`; behind them are zeros.
pub fn read_leaf<W: Words>(words: &mut W, p: Ref) -> Leaf
    requires { LendsLeaf (W.Words.row words.old) p.0 }
    ensures value { (x : LendsLeaf (W.Words.row words.old) p.0) → items result ≡ x.xs }
    ensures zeros { (x : LendsLeaf (W.Words.row words.old) p.0) → LeafIs result x.xs }
    ensures few { length (items result) ≤ 48 }
    ensures same { W.Words.row words.new ≡ W.Words.row words.old }
    ensures touches { W.touched words.new ≤ W.touched words.old + 13 }
{
    unpack(&data_words(words, p))
}

/// The bytes of two leaves, one behind the other.
pub fn joined(a: &Leaf, b: &Leaf) -> ArrayVec<u8, TWO_LEAVES>
    ensures { result.items ≡ items a.now ++ items b.now }
{
    let mut all = ArrayVec::new();
    all.try_extend_from_slice(a).unwrap();
    all.try_extend_from_slice(b).unwrap();
    all
}
