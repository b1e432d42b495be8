//! The first 8 cells: the heap's own two words, and the state of whoever uses it.
ghost use Rattle.std.specs.Prelude.{◌≡◌, ℕ, ◌+◌, ◌<◌, ◌≤◌, List, length, slice_index, slice_set};
ghost use Rattle.cells.specs.Layout.{state, roots, cleared};
ghost use Rattle.cells.specs.Sound.{Sound};
ghost use Rattle.cells.specs.Have.{Item, refs, Have};
ghost use Rattle.cells.specs.Steps.{Begun, Stays};

use crate::cell::{Ref, TAKEN};
use words::Words;

/// The first word of the state.
const STATE: usize = 16;

/// How many words of the state are references; the others, behind them, are numbers.
const ROOTS: usize = 16;

/// How many words the header has.
const HEADER_WORDS: usize = 128;

/// How many cells the header has.
const HEADER_CELLS: u32 = 8;

/// Writes 0 to each word of the header.
// Kept: that the row is as long as the header stands in each contract below, since the row is whatever implements `Words`, and a type around it would have to be made at each call.
fn clear<W: Words>(words: &mut W)
    requires { 128 ≤ length (W.Words.row words.old) }
    ensures same { W.Words.row words.new ≡ cleared (W.Words.row words.old) 128 }
    ensures long { length (W.Words.row words.new) ≡ length (W.Words.row words.old) }
    ensures touches { W.touched words.new ≤ W.touched words.old + 128 }
{
    for i in 0..HEADER_WORDS {
        words.put(i, 0);
    }
}

/// Takes the header's own cells.
fn take_header<W: Words>(words: &mut W)
    requires { 128 ≤ length (W.Words.row words.old) }
    ensures same { W.Words.row words.new ≡ slice_set (W.Words.row words.old) 0 8 }
    ensures touches { W.touched words.new ≤ W.touched words.old + 1 }
{
    words.put(TAKEN, HEADER_CELLS);
}

/// A heap with no cell taken but the header's, and a state of zeros.
pub fn new<W: Words>(words: &mut W)
    requires { 128 ≤ length (W.Words.row words.old) }
    ensures begun { Begun (W.Words.row words.old) (W.Words.row words.new) }
    ensures touches { W.touched words.new ≤ W.touched words.old + 129 }
{
    clear(words);
    take_header(words);
}

/// Word `i` of the state.
fn state_word<W: Words>(words: &mut W, i: usize) -> u32
    requires word { i < 112 }
    requires long { 128 ≤ length (W.Words.row words.old) }
    ensures value { result ≡ slice_index (state (W.Words.row words.old)) i }
    ensures same { W.Words.row words.new ≡ W.Words.row words.old }
    ensures touches { W.touched words.new ≤ W.touched words.old + 1 }
{
    words.get(STATE + i)
}

/// Writes word `i` of the state.
fn set_state_word<W: Words>(words: &mut W, i: usize, x: u32)
    requires word { i < 112 }
    requires long { 128 ≤ length (W.Words.row words.old) }
    ensures state { state (W.Words.row words.new) ≡ slice_set (state (W.Words.row words.old)) i x }
    ensures stays { Stays (W.Words.row words.old) (W.Words.row words.new) }
    ensures touches { W.touched words.new ≤ W.touched words.old + 1 }
{
    words.put(STATE + i, x);
}

/// Reference `k` of the state.
pub fn root<W: Words>(words: &mut W, k: usize) -> Ref
    requires root { k < 16 }
    requires long { 128 ≤ length (W.Words.row words.old) }
    ensures value { result.0 ≡ slice_index (state (W.Words.row words.old)) k }
    ensures same { W.Words.row words.new ≡ W.Words.row words.old }
    ensures touches { W.touched words.new ≤ W.touched words.old + 1 }
{
    Ref(state_word(words, k))
}

/// Writes reference `k` of the state. What is held stays held: it is the caller who then counts `p` as held by the state, and what stood there as held no more.
pub fn set_root<W: Words>(words: &mut W, k: usize, p: Ref)
    requires root { k < 16 }
    requires long { 128 ≤ length (W.Words.row words.old) }
    ensures state { state (W.Words.row words.new) ≡ slice_set (state (W.Words.row words.old)) k p.0 }
    ensures stays { Stays (W.Words.row words.old) (W.Words.row words.new) }
    ensures touches { W.touched words.new ≤ W.touched words.old + 1 }
{
    set_state_word(words, k, p.0);
}

/// Number `k` of the state.
pub fn scalar<W: Words>(words: &mut W, k: usize) -> u32
    requires scalar { k < 96 }
    requires long { 128 ≤ length (W.Words.row words.old) }
    ensures value { result ≡ slice_index (state (W.Words.row words.old)) (16 + k) }
    ensures same { W.Words.row words.new ≡ W.Words.row words.old }
    ensures touches { W.touched words.new ≤ W.touched words.old + 1 }
{
    state_word(words, ROOTS + k)
}

/// Writes number `k` of the state.
pub fn set_scalar<W: Words>(words: &mut W, k: usize, x: u32)
    requires scalar { k < 96 }
    requires long { 128 ≤ length (W.Words.row words.old) }
    ensures state { state (W.Words.row words.new) ≡ slice_set (state (W.Words.row words.old)) (16 + k) x }
    ensures stays { Stays (W.Words.row words.old) (W.Words.row words.new) }
    ensures touches { W.touched words.new ≤ W.touched words.old + 1 }
{
    set_state_word(words, ROOTS + k, x);
}

/// Takes up a heap that stands in the words already, with the state's references held. There is nothing to do: each of them stands for a tree.
pub fn attach<W: Words>(words: &W)
    requires { Sound (W.Words.row words.now) (roots (W.Words.row words.now)) }
    ensures { (items : List Item) × (refs items ≡ roots (W.Words.row words.now)) × Have (W.Words.row words.now) items }
{
    let _ = words;
}
