//! A part of a rope, as a rope of its own.
ghost use Rattle.std.specs.Prelude.{◌≡◌, ℕ, ◌+◌, ◌≤◌};
ghost use Rattle.cells.specs.Steps.{Kept, Sharing, Shared, Holding, Released};
ghost use Rattle.ropes.specs.Cut.{front};
ghost use Rattle.rope.specs.Cutting.{One, Short};
ghost use Rattle.rope_edit.specs.Editing.{Lend, Keeps, Slices};

use cells::{Ref, release, share};
use rope::{Cut, split};
use words::Words;

/// One more reference to a rope that is lent.
fn another<W: Words>(words: &mut W, t: Ref) -> Ref
    requires { Sharing (W.Words.row words.old) t.0 }
    ensures value { result ≡ t }
    ensures shared { Shared (W.Words.row words.old) (W.Words.row words.new) t.0 }
    ensures kept { Kept (W.Words.row words.old) (W.Words.row words.new) }
    ensures touches { W.touched words.new ≤ W.touched words.old + 2 }
{
    share(words, t);
    t
}

/// The front of a rope that was cut. What is behind it is let go.
fn front_of<W: Words>(words: &mut W, cut: Cut) -> Ref
    requires { Holding (W.Words.row words.old) cut.back.0 }
    ensures value { result ≡ cut.front }
    ensures released { Released (W.Words.row words.old) (W.Words.row words.new) cut.back.0 }
    ensures kept { Kept (W.Words.row words.old) (W.Words.row words.new) }
    ensures touches { W.touched words.new ≤ W.touched words.old + 5 }
{
    release(words, cut.back);
    cut.front
}

/// The back of a rope that was cut. What is before it is let go.
fn back_of<W: Words>(words: &mut W, cut: Cut) -> Ref
    requires { Holding (W.Words.row words.old) cut.front.0 }
    ensures value { result ≡ cut.back }
    ensures released { Released (W.Words.row words.old) (W.Words.row words.new) cut.front.0 }
    ensures kept { Kept (W.Words.row words.old) (W.Words.row words.new) }
    ensures touches { W.touched words.new ≤ W.touched words.old + 5 }
{
    release(words, cut.front);
    cut.back
}

/// The part of a rope before place `at`. What is behind it is let go.
pub fn keep_front<W: Words>(words: &mut W, t: Ref, at: u32) -> Option<Ref>
    requires { One Short (W.Words.row words.old) t.0 160 }
    ensures keeps { Keeps front at (W.Words.row words.old) (W.Words.row words.new) t.0 result (W.touched words.old) (W.touched words.new) }
    ensures kept { Kept (W.Words.row words.old) (W.Words.row words.new) }
{
    let cut = split(words, t, at)?;
    Some(front_of(words, cut))
}

/// The bytes from place `a` up to place `b` of a rope that is lent.
pub fn slice<W: Words>(words: &mut W, t: Ref, a: u32, b: u32) -> Option<Ref>
    requires { Lend (W.Words.row words.old) t.0 }
    ensures slices { Slices a b (W.Words.row words.old) (W.Words.row words.new) t.0 result (W.touched words.old) (W.touched words.new) }
    ensures kept { Kept (W.Words.row words.old) (W.Words.row words.new) }
    ensures quick { W.touched words.new ≤ W.touched words.old + 25000 }
{
    let own = another(words, t);
    let front = keep_front(words, own, b)?;
    let cut = split(words, front, a)?;
    Some(back_of(words, cut))
}
