//! A rope of given bytes, in balance, its leaves full but for the last two.
ghost use Rattle.std.specs.Prelude.{◌≡◌, ℕ, ◌+◌, ◌*◌, ◌/◌, ◌<◌, ◌≤◌, length};
ghost use Rattle.cells.specs.Steps.{Kept};
ghost use Rattle.rope.specs.Building.{Free};
ghost use Rattle.rope_edit.specs.Editing.{Builds};

use cells::{NONE, Ref, or_release};
use rope::{leaf, node};
use rope_cells::{LEAF_MAX, LEAF_MIN};
use words::Words;

/// How many bytes fill a leaf and give another as many as it needs beside others.
const TWO_LEAVES: usize = LEAF_MAX + LEAF_MIN;

/// How many of `n` bytes, too many for a leaf, go to the left.
fn left_part(n: usize) -> usize
    requires { n < 536870912 }
    ensures few { n < 72 → result ≡ n / 2 }
    ensures many { 72 ≤ n → result ≡ 48 * ((n + 47) / 96) }
{
    if n < TWO_LEAVES {
        n / 2
    } else {
        LEAF_MAX * (n.div_ceil(LEAF_MAX) / 2)
    }
}

/// A rope of these bytes.
pub fn from_bytes<W: Words>(words: &mut W, bytes: &[u8]) -> Option<Ref>
    requires heap { Free (W.Words.row words.old) (length bytes.now) }
    requires few { length bytes.now < 536870912 }
    ensures builds { Builds (W.Words.row words.old) (W.Words.row words.new) bytes.now result (W.touched words.old) (W.touched words.new) }
    ensures kept { Kept (W.Words.row words.old) (W.Words.row words.new) }
{
    if bytes.is_empty() {
        return Some(NONE);
    }
    if bytes.len() <= LEAF_MAX {
        return leaf(words, bytes);
    }
    let (front, back) = bytes.split_at(left_part(bytes.len()));
    let x = from_bytes(words, front)?;
    let y = from_bytes(words, back);
    let y = or_release(words, y, x)?;
    node(words, x, y)
}
