//! Making a node of a cell, and taking one apart.
ghost use Rattle.std.specs.Prelude.{◌≡◌, ℕ, ◌+◌, ◌*◌, ◌<◌, ◌≤◌, length, MatchOption};
ghost use Rattle.cells.specs.Layout.{at, put, filled};
ghost use Rattle.cells.specs.Steps.{Kept, Making, Made, Dropped, Reusing, Refused, GaveUp, Opening, Parted, Opened};

use crate::cell::{COUNT, FIRST_DEAD, HEADER, LEFT, LINK, RIGHT, Ref, TAKEN, word, write};
use crate::content::{Data, load, store};
use crate::holding::{release, share};
use crate::reading::{left_of, right_of};
use words::Words;

/// No more cells than this, so that each count fits a word.
const MOST_CELLS: u32 = 268435456;

/// What a cell is made of.
#[derive(Clone, Copy)]
pub struct Node {
    pub left: Ref,
    pub right: Ref,
    pub data: Data,
}

/// The children of a cell.
#[derive(Clone, Copy)]
pub struct Children {
    pub left: Ref,
    pub right: Ref,
}

/// The children of `p`.
fn children_of<W: Words>(words: &mut W, p: Ref) -> Children
    requires within { 16 * p.0 + 16 ≤ length (W.Words.row words.old) }
    ensures left { result.left.0 ≡ at (W.Words.row words.old) p.0 1 }
    ensures right { result.right.0 ≡ at (W.Words.row words.old) p.0 2 }
    ensures same { W.Words.row words.new ≡ W.Words.row words.old }
    ensures touches { W.touched words.new ≤ W.touched words.old + 2 }
{
    let left = left_of(words, p);
    let right = right_of(words, p);
    Children { left, right }
}

/// Gives `d` the count 1, and the children and data of `node`.
fn fill<W: Words>(words: &mut W, d: Ref, node: Node)
    requires within { 16 * d.0 + 16 ≤ length (W.Words.row words.old) }
    ensures same { W.Words.row words.new ≡ filled (W.Words.row words.old) d.0 node.left.0 node.right.0 node.«data» }
    ensures long { length (W.Words.row words.new) ≡ length (W.Words.row words.old) }
    ensures touches { W.touched words.new ≤ W.touched words.old + 16 }
{
    write(words, d, COUNT, 1);
    write(words, d, LEFT, node.left.0);
    write(words, d, RIGHT, node.right.0);
    store(words, d, node.data);
}

/// Takes the first dead cell `d` from the dead ones.
fn pop_dead<W: Words>(words: &mut W, d: Ref)
    requires within { 16 * d.0 + 16 ≤ length (W.Words.row words.old) }
    ensures same { W.Words.row words.new ≡ put (W.Words.row words.old) 0 1 (at (W.Words.row words.old) d.0 3) }
    ensures long { length (W.Words.row words.new) ≡ length (W.Words.row words.old) }
    ensures touches { W.touched words.new ≤ W.touched words.old + 2 }
{
    let next = word(words, d, LINK);
    write(words, HEADER, FIRST_DEAD, next);
}

/// Lets two references go.
pub fn release_both<W: Words>(words: &mut W, left: Ref, right: Ref)
    requires { Making (W.Words.row words.old) left.0 right.0 }
    ensures dropped { Dropped (W.Words.row words.old) (W.Words.row words.new) left.0 right.0 }
    ensures kept { Kept (W.Words.row words.old) (W.Words.row words.new) }
    ensures touches { W.touched words.new ≤ W.touched words.old + 10 }
{
    release(words, left);
    release(words, right);
}

/// Makes a node of the first dead cell `d`, and lets the children go that it still had.
fn reuse<W: Words>(words: &mut W, d: Ref, node: Node)
    requires { Reusing (W.Words.row words.old) d.0 node.left.0 node.right.0 }
    ensures made { Made (W.Words.row words.old) (W.Words.row words.new) d.0 node.left.0 node.right.0 node.«data» }
    ensures kept { Kept (W.Words.row words.old) (W.Words.row words.new) }
    ensures touches { W.touched words.new ≤ W.touched words.old + 30 }
{
    pop_dead(words, d);
    let old = children_of(words, d);
    fill(words, d, node);
    release_both(words, old.left, old.right);
}

/// One more in the number of cells that were taken.
fn raise_taken<W: Words>(words: &mut W, taken: u32)
    requires within { 16 ≤ length (W.Words.row words.old) }
    requires few { taken < 268435456 }
    ensures same { W.Words.row words.new ≡ put (W.Words.row words.old) 0 0 (taken + 1) }
    ensures touches { W.touched words.new ≤ W.touched words.old + 1 }
{
    write(words, HEADER, TAKEN, taken + 1);
}

/// Makes a node of a cell that was never taken, where there is room for one.
fn extend<W: Words>(words: &mut W, node: Node) -> Option<Ref>
    requires making { Making (W.Words.row words.old) node.left.0 node.right.0 }
    requires none_dead { at (W.Words.row words.old) 0 1 ≡ 0 }
    ensures made { MatchOption result (Refused (W.Words.row words.old) (W.Words.row words.new)) (λ d. Made (W.Words.row words.old) (W.Words.row words.new) d.0 node.left.0 node.right.0 node.«data») }
    ensures kept { Kept (W.Words.row words.old) (W.Words.row words.new) }
    ensures touches { W.touched words.new ≤ W.touched words.old + 18 }
{
    let taken = word(words, HEADER, TAKEN);
    if taken < MOST_CELLS && 16 * taken as usize + 16 <= words.count() {
        fill(words, Ref(taken), node);
        raise_taken(words, taken);
        Some(Ref(taken))
    } else {
        None
    }
}

/// A new node with these children, which take the caller's references over, or none, and nothing changed, where no cell is dead and there is no room.
pub fn alloc<W: Words>(words: &mut W, node: Node) -> Option<Ref>
    requires { Making (W.Words.row words.old) node.left.0 node.right.0 }
    ensures made { MatchOption result (Refused (W.Words.row words.old) (W.Words.row words.new)) (λ d. Made (W.Words.row words.old) (W.Words.row words.new) d.0 node.left.0 node.right.0 node.«data») }
    ensures kept { Kept (W.Words.row words.old) (W.Words.row words.new) }
    ensures touches { W.touched words.new ≤ W.touched words.old + 31 }
{
    let first = Ref(word(words, HEADER, FIRST_DEAD));
    if first.is_none() {
        return extend(words, node);
    }
    reuse(words, first, node);
    Some(first)
}

/// A new node with these children, or none, and both let go, where there is no room.
pub fn make<W: Words>(words: &mut W, node: Node) -> Option<Ref>
    requires { Making (W.Words.row words.old) node.left.0 node.right.0 }
    ensures made { MatchOption result (GaveUp (W.Words.row words.old) (W.Words.row words.new) node.left.0 node.right.0) (λ d. Made (W.Words.row words.old) (W.Words.row words.new) d.0 node.left.0 node.right.0 node.«data») }
    ensures kept { Kept (W.Words.row words.old) (W.Words.row words.new) }
    ensures touches { MatchOption result (W.touched words.new ≤ W.touched words.old + 41) (λ _. W.touched words.new ≤ W.touched words.old + 31) }
{
    let made = alloc(words, node);
    if made.is_none() {
        release_both(words, node.left, node.right);
    }
    made
}

/// Lets the node `p` go, for its children.
pub fn part<W: Words>(words: &mut W, p: Ref) -> Children
    requires { Opening (W.Words.row words.old) p.0 }
    ensures parted { Parted (W.Words.row words.old) (W.Words.row words.new) p.0 result.left.0 result.right.0 }
    ensures kept { Kept (W.Words.row words.old) (W.Words.row words.new) }
    ensures touches { W.touched words.new ≤ W.touched words.old + 11 }
{
    let old = children_of(words, p);
    share(words, old.right);
    share(words, old.left);
    release(words, p);
    old
}

/// Lets the node `p` go, for its children and its data.
pub fn open<W: Words>(words: &mut W, p: Ref) -> Node
    requires { Opening (W.Words.row words.old) p.0 }
    ensures opened { Opened (W.Words.row words.old) (W.Words.row words.new) p.0 result.left.0 result.right.0 result.«data» }
    ensures kept { Kept (W.Words.row words.old) (W.Words.row words.new) }
    ensures touches { W.touched words.new ≤ W.touched words.old + 24 }
{
    let data = load(words, p);
    let Children { left, right } = part(words, p);
    Node { left, right, data }
}
