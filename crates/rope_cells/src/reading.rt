//! What a rope's cell says of it.
ghost use Rattle.std.specs.Prelude.{◌≡◌, ◌+◌, ◌<◌, ◌≤◌};
ghost use Rattle.ropes.specs.Rope.{bytes, size};
ghost use Rattle.ropes.specs.Layout.{sums_of, sum_at};
ghost use Rattle.rope_cells.specs.Coded.{tag_of as first_word};
ghost use Rattle.rope_cells.specs.Tags.{TagIs};
ghost use Rattle.rope_cells.specs.Lending.{Lends, LendsSome, LendsNode, LendsChildren, ShapeIs, SummaryIs};

use crate::leaves::LEAF_MIN;
use crate::packed::{BASE, LEFT_SUMS, SUMS, digit_of, leaf_sums};
use crate::sums::{Bytes, Sum, Sums, USED};
use cells::{Ref, data_word};
use words::Words;

/// The lowest digit of a node's first data word. A leaf's is its length.
// Kept: a number for a kind, since all that is kept lies in words (fixed memory); it is read as a `Tag`.
pub const NODE: u32 = 63;

/// What balancing asks of a rope.
// Kept: a yes or no beside the height: what attaches and rotates compares heights of both kinds, and asks in one place alone whether a leaf is small.
#[derive(Clone, Copy)]
pub struct Shape {
    pub height: u32,
    pub small: bool,
}

/// The shapes of two ropes.
#[derive(Clone, Copy)]
pub struct Shapes {
    pub first: Shape,
    pub second: Shape,
}

/// What a node says of a child.
#[derive(Clone, Copy)]
pub struct Summary {
    pub height: u32,
    pub sums: Sums,
}

/// What the cell of a rope says of it in one word.
#[derive(Clone, Copy)]
enum Tag {
    Leaf { word: u32 },
    Node { height: u32 },
}

/// The first data word.
#[tactic(auto, using(crate::proofs::Codes::tag_read))]
pub fn tag_of<W: Words>(words: &mut W, p: Ref) -> u32
    requires { LendsSome (W.Words.row words.old) p.0 }
    ensures value { (x : LendsSome (W.Words.row words.old) p.0) → result ≡ first_word x.lends.rope }
    ensures same { W.Words.row words.new ≡ W.Words.row words.old }
    ensures touches { W.touched words.new ≤ W.touched words.old + 1 }
{
    data_word(words, p, 0)
}

/// What the first data word says.
fn told<W: Words>(words: &mut W, p: Ref) -> Tag
    requires { LendsSome (W.Words.row words.old) p.0 }
    ensures value { (x : LendsSome (W.Words.row words.old) p.0) → TagIs x.lends.rope result }
    ensures same { W.Words.row words.new ≡ W.Words.row words.old }
    ensures touches { W.touched words.new ≤ W.touched words.old + 1 }
{
    let word = tag_of(words, p);
    if word % BASE == NODE {
        Tag::Node {
            height: word / BASE,
        }
    } else {
        Tag::Leaf { word }
    }
}

/// How high the rope of `p` is, and whether it is a small leaf.
pub fn shape_of<W: Words>(words: &mut W, p: Ref) -> Shape
    requires { LendsSome (W.Words.row words.old) p.0 }
    ensures value { (x : LendsSome (W.Words.row words.old) p.0) → ShapeIs x.lends.rope result }
    ensures same { W.Words.row words.new ≡ W.Words.row words.old }
    ensures touches { W.touched words.new ≤ W.touched words.old + 1 }
{
    match told(words, p) {
        Tag::Leaf { word } => Shape {
            height: 1,
            small: digit_of(word, Bytes::PLACE) < LEAF_MIN as u32,
        },
        Tag::Node { height } => Shape {
            height,
            small: false,
        },
    }
}

/// The shapes of two ropes.
pub fn shapes_of<W: Words>(words: &mut W, p: Ref, q: Ref) -> Shapes
    requires first { LendsSome (W.Words.row words.old) p.0 }
    requires second { LendsSome (W.Words.row words.old) q.0 }
    ensures first { (x : LendsSome (W.Words.row words.old) p.0) → ShapeIs x.lends.rope result.first }
    ensures second { (x : LendsSome (W.Words.row words.old) q.0) → ShapeIs x.lends.rope result.second }
    ensures same { W.Words.row words.new ≡ W.Words.row words.old }
    ensures touches { W.touched words.new ≤ W.touched words.old + 2 }
{
    let first = shape_of(words, p);
    let second = shape_of(words, q);
    Shapes { first, second }
}

/// The sums of the node `p`.
fn node_sums<W: Words>(words: &mut W, p: Ref) -> Sums
    requires { LendsNode (W.Words.row words.old) p.0 }
    ensures value { (x : LendsNode (W.Words.row words.old) p.0) → result ≡ sums_of (bytes x.lends.rope) }
    ensures same { W.Words.row words.new ≡ W.Words.row words.old }
    ensures touches { W.touched words.new ≤ W.touched words.old + 2 }
{
    let mut sums = [0; 6];
    for (k, sum) in sums[..USED].iter_mut().enumerate() {
        *sum = data_word(words, p, SUMS + k);
    }
    sums
}

/// The height and the sums of the rope of `p`.
pub fn summary_of<W: Words>(words: &mut W, p: Ref) -> Summary
    requires { LendsSome (W.Words.row words.old) p.0 }
    ensures value { (x : LendsSome (W.Words.row words.old) p.0) → SummaryIs x.lends.rope result }
    ensures same { W.Words.row words.new ≡ W.Words.row words.old }
    ensures touches { W.touched words.new ≤ W.touched words.old + 3 }
{
    match told(words, p) {
        Tag::Leaf { word } => {
            let sums = leaf_sums(word);
            Summary { height: 1, sums }
        }
        Tag::Node { height } => Summary {
            height,
            sums: node_sums(words, p),
        },
    }
}

/// The sum at place `k` of the left child of the node `p`.
#[tactic(auto, using(crate::proofs::Codes::left_sum_read))]
pub fn left_total<W: Words>(words: &mut W, p: Ref, k: usize) -> u32
    requires node { LendsChildren (W.Words.row words.old) p.0 }
    requires place { k < 6 }
    ensures value { (x : LendsChildren (W.Words.row words.old) p.0) → result ≡ sum_at (bytes x.left) k }
    ensures same { W.Words.row words.new ≡ W.Words.row words.old }
    ensures touches { W.touched words.new ≤ W.touched words.old + 1 }
{
    data_word(words, p, LEFT_SUMS + k)
}

/// The sum of the left child of the node `p`.
pub fn left_sum<S: Sum, W: Words>(words: &mut W, p: Ref) -> u32
    requires { LendsChildren (W.Words.row words.old) p.0 }
    ensures value { (x : LendsChildren (W.Words.row words.old) p.0) → result ≡ S.Sum.sums (bytes x.left) }
    ensures same { W.Words.row words.new ≡ W.Words.row words.old }
    ensures touches { W.touched words.new ≤ W.touched words.old + 1 }
{
    left_total(words, p, S::PLACE)
}

/// The sum at place `k` of the rope of `p`.
pub fn total<W: Words>(words: &mut W, p: Ref, k: usize) -> u32
    requires rope { Lends (W.Words.row words.old) p.0 }
    requires place { k < 6 }
    ensures value { (x : Lends (W.Words.row words.old) p.0) → result ≡ sum_at (bytes x.rope) k }
    ensures same { W.Words.row words.new ≡ W.Words.row words.old }
    ensures touches { W.touched words.new ≤ W.touched words.old + 2 }
{
    if p.is_none() {
        return 0;
    }
    match told(words, p) {
        Tag::Leaf { word } => digit_of(word, k),
        Tag::Node { .. } => data_word(words, p, SUMS + k),
    }
}

/// The sum of all bytes of the rope of `p`.
pub fn sum<S: Sum, W: Words>(words: &mut W, p: Ref) -> u32
    requires { Lends (W.Words.row words.old) p.0 }
    ensures value { (x : Lends (W.Words.row words.old) p.0) → result ≡ S.Sum.sums (bytes x.rope) }
    ensures same { W.Words.row words.new ≡ W.Words.row words.old }
    ensures touches { W.touched words.new ≤ W.touched words.old + 2 }
{
    total(words, p, S::PLACE)
}

/// How many bytes the rope of `p` has.
pub fn len<W: Words>(words: &mut W, p: Ref) -> u32
    requires { Lends (W.Words.row words.old) p.0 }
    ensures value { (x : Lends (W.Words.row words.old) p.0) → result ≡ size x.rope }
    ensures same { W.Words.row words.new ≡ W.Words.row words.old }
    ensures touches { W.touched words.new ≤ W.touched words.old + 2 }
{
    sum::<Bytes, W>(words, p)
}
