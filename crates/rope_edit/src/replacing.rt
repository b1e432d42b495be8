//! A rope with a part replaced by another rope.
ghost use Rattle.std.specs.Prelude.{ℕ, ◌+◌, ◌≤◌};
ghost use Rattle.cells.specs.Steps.{Kept};
ghost use Rattle.rope.specs.Building.{Two, Any};
ghost use Rattle.rope_edit.specs.Editing.{Following, Follows, Replaces};

use crate::slicing::keep_front;
use cells::{Ref, or_release};
use rope::{concat, split};
use words::Words;

/// The second rope behind the first, where that is there; else the second is let go.
fn concat_onto<W: Words>(words: &mut W, first: Option<Ref>, second: Ref) -> Option<Ref>
    requires { Following (W.Words.row words.old) first second.0 }
    ensures follows { Follows (W.Words.row words.old) (W.Words.row words.new) first second.0 result (W.touched words.old) (W.touched words.new) }
    ensures kept { Kept (W.Words.row words.old) (W.Words.row words.new) }
{
    let first = or_release(words, first, second)?;
    concat(words, first, second)
}

/// The rope with the bytes from place `a` up to place `b` replaced by those of `new`.
pub fn replace<W: Words>(words: &mut W, t: Ref, a: u32, b: u32, new: Ref) -> Option<Ref>
    requires { Two Any (W.Words.row words.old) t.0 new.0 200 }
    ensures replaces { Replaces a b (W.Words.row words.old) (W.Words.row words.new) t.0 new.0 result (W.touched words.old) (W.touched words.new) }
    ensures kept { Kept (W.Words.row words.old) (W.Words.row words.new) }
    ensures quick { W.touched words.new ≤ W.touched words.old + 30000 }
{
    let cut = split(words, t, b);
    let cut = or_release(words, cut, new)?;
    let front = keep_front(words, cut.front, a);
    let start = concat_onto(words, front, new);
    concat_onto(words, start, cut.back)
}
