//! Whether the cells of a rope keep its balance, by a look at every one of them.
ghost use Rattle.std.specs.Prelude.{◌≡◌, ◌+◌, ◌<◌, Some, true};
ghost use Rattle.rope_cells.specs.Lending.{Lends, LendsSome};
ghost use Rattle.rope_text.specs.Balance.{LendsInner, extent_of, is_leaf_of, is_node_of};

use cells::{Ref, left, right};
use rope_cells::{Bytes, LEAF_MAX, LEAF_MIN, left_sum, len, read_leaf, shape_of};
use words::Words;

/// How high a rope is and how many bytes it has.
#[derive(Clone, Copy)]
struct Extent {
    height: u32,
    bytes: u32,
}

/// What the cell of `p` says.
fn told<W: Words>(words: &mut W, p: Ref) -> Extent
    requires { LendsSome (W.Words.row words.old) p.0 }
    ensures value { (x : LendsSome (W.Words.row words.old) p.0) → result ≡ extent_of x.lends.rope }
    ensures same { W.Words.row words.new ≡ W.Words.row words.old }
{
    let height = shape_of(words, p).height;
    let bytes = len(words, p);
    Extent { height, bytes }
}

/// Whether a leaf of `bytes` bytes is what its cell says, and filled.
fn is_leaf_of(told: Extent, bytes: usize) -> bool
    ensures { result ≡ is_leaf_of told bytes }
{
    LEAF_MIN <= bytes && bytes <= LEAF_MAX && told.bytes as usize == bytes
}

/// Whether a node of these two is what its cell says, and neither is too high beside the other.
fn is_node_of(told: Extent, before: u32, a: Extent, b: Extent) -> bool
    requires first { a.height < 36 }
    requires second { b.height < 36 }
    requires few { a.bytes + b.bytes < 536870912 }
    ensures { result ≡ is_node_of told before a b }
{
    a.height <= b.height + 1
        && b.height <= a.height + 1
        && told.height == a.height.max(b.height) + 1
        && before == a.bytes
        && told.bytes == a.bytes + b.bytes
}

/// How high the part `p` of a rope is and how many bytes it has, unless a cell of it says what isn't so, a leaf isn't filled, or one of two children is too high.
fn measure<W: Words>(words: &mut W, p: Ref) -> Option<Extent>
    requires { LendsInner (W.Words.row words.old) p.0 }
    ensures value { (x : LendsInner (W.Words.row words.old) p.0) → result ≡ Some (extent_of x.lends.rope) }
    ensures same { W.Words.row words.new ≡ W.Words.row words.old }
{
    let told = told(words, p);
    if told.height == 1 {
        let bytes = read_leaf(words, p).len();
        return is_leaf_of(told, bytes).then_some(told);
    }
    let before = left_sum::<Bytes, W>(words, p);
    let l = left(words, p);
    let a = measure(words, l)?;
    let r = right(words, p);
    let b = measure(words, r)?;
    is_node_of(told, before, a, b).then_some(told)
}

/// Whether the rope `root` is in balance, its leaves are filled, and its cells say what is so.
pub fn is_balanced<W: Words>(words: &mut W, root: Ref) -> bool
    requires { Lends (W.Words.row words.old) root.0 }
    ensures value { result ≡ true }
    ensures same { W.Words.row words.new ≡ W.Words.row words.old }
{
    if root.is_none() {
        return true;
    }
    if told(words, root).height == 1 {
        return !read_leaf(words, root).is_empty();
    }
    measure(words, root).is_some()
}
