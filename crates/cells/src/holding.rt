//! Sharing a reference and letting it go.
ghost use Rattle.std.specs.Prelude.{◌≡◌, ℕ, ◌+◌, ◌*◌, ◌<◌, ◌≤◌, length, IfNone, MatchOption};
ghost use Rattle.cells.specs.Layout.{at, put, with_dead};
ghost use Rattle.cells.specs.Steps.{Kept, Sharing, Shared, Holding, Released};

use crate::cell::{COUNT, FIRST_DEAD, HEADER, LINK, Ref, word, write};
use words::Words;

/// One more reference to what `p` refers to.
pub fn share<W: Words>(words: &mut W, p: Ref)
    requires { Sharing (W.Words.row words.old) p.0 }
    ensures shared { Shared (W.Words.row words.old) (W.Words.row words.new) p.0 }
    ensures kept { Kept (W.Words.row words.old) (W.Words.row words.new) }
    ensures touches { W.touched words.new ≤ W.touched words.old + 2 }
{
    if !p.is_none() {
        raise(words, p);
    }
}

/// One more in the count of `p`.
fn raise<W: Words>(words: &mut W, p: Ref)
    requires within { 16 * p.0 + 16 ≤ length (W.Words.row words.old) }
    requires fits { at (W.Words.row words.old) p.0 0 < 4294967295 }
    ensures same { W.Words.row words.new ≡ put (W.Words.row words.old) p.0 0 (at (W.Words.row words.old) p.0 0 + 1) }
    ensures touches { W.touched words.new ≤ W.touched words.old + 2 }
{
    let count = word(words, p, COUNT);
    write(words, p, COUNT, count + 1);
}

/// Lets a reference go. A cell that nothing refers to any more joins the dead ones, with its children.
pub fn release<W: Words>(words: &mut W, p: Ref)
    requires { Holding (W.Words.row words.old) p.0 }
    ensures released { Released (W.Words.row words.old) (W.Words.row words.new) p.0 }
    ensures kept { Kept (W.Words.row words.old) (W.Words.row words.new) }
    ensures touches { W.touched words.new ≤ W.touched words.old + 5 }
{
    if !p.is_none() {
        let count = lower(words, p);
        if count == 0 {
            push_dead(words, p);
        }
    }
}

/// What was made; where nothing was, `held` is let go.
pub fn or_release<T, W: Words>(words: &mut W, made: Option<T>, held: Ref) -> Option<T>
    requires { IfNone made (Holding (W.Words.row words.old) held.0) }
    ensures value { result ≡ made }
    ensures released { MatchOption result (Released (W.Words.row words.old) (W.Words.row words.new) held.0) (λ _. W.Words.row words.new ≡ W.Words.row words.old) }
    ensures kept { Kept (W.Words.row words.old) (W.Words.row words.new) }
    ensures touches { MatchOption result (W.touched words.new ≤ W.touched words.old + 5) (λ _. W.touched words.new ≡ W.touched words.old) }
{
    if made.is_none() {
        release(words, held);
    }
    made
}

/// One less in the count of `p`, and how many are left.
fn lower<W: Words>(words: &mut W, p: Ref) -> u32
    requires within { 16 * p.0 + 16 ≤ length (W.Words.row words.old) }
    requires live { 1 ≤ at (W.Words.row words.old) p.0 0 }
    ensures value { result + 1 ≡ at (W.Words.row words.old) p.0 0 }
    ensures same { W.Words.row words.new ≡ put (W.Words.row words.old) p.0 0 result }
    ensures long { length (W.Words.row words.new) ≡ length (W.Words.row words.old) }
    ensures touches { W.touched words.new ≤ W.touched words.old + 2 }
{
    let count = word(words, p, COUNT) - 1;
    write(words, p, COUNT, count);
    count
}

/// Puts `p` before the dead cells.
fn push_dead<W: Words>(words: &mut W, p: Ref)
    requires within { 16 * p.0 + 16 ≤ length (W.Words.row words.old) }
    ensures same { W.Words.row words.new ≡ with_dead (W.Words.row words.old) p.0 }
    ensures touches { W.touched words.new ≤ W.touched words.old + 3 }
{
    let first = word(words, HEADER, FIRST_DEAD);
    write(words, p, LINK, first);
    write(words, HEADER, FIRST_DEAD, p.0);
}
