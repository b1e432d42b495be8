//! A rope many times, by doubling.
ghost use Rattle.std.specs.Prelude.{◌≡◌, ℕ, ◌+◌, ◌/◌, ◌%◌, ◌≤◌, ◌==◌};
ghost use Rattle.cells.specs.Steps.{Kept};
ghost use Rattle.rope.specs.Building.{Two, Any};
ghost use Rattle.rope.specs.Cutting.{One};
ghost use Rattle.rope_edit.specs.Editing.{Copied, Adds, Twice, Doubles, Repeats, Times, Repeated};

use cells::{NONE, Ref, or_release, release, share};
use rope::concat;
use words::Words;

/// Whether a count is even.
fn is_even(n: u32) -> bool
    ensures { result ≡ (n % 2 == 0) }
{
    n % 2 == 0
}

/// How often two of a thing are in a count of it.
fn half(n: u32) -> u32
    ensures { result ≡ n / 2 }
{
    n / 2
}

/// The rope `before`, and `t` once behind it where `n` is odd. `t` is still held.
fn add_odd<W: Words>(words: &mut W, before: Ref, t: Ref, n: u32) -> Option<Ref>
    requires { Two Any (W.Words.row words.old) before.0 t.0 200 }
    ensures adds { Adds n (W.Words.row words.old) (W.Words.row words.new) before.0 t.0 result (W.touched words.old) (W.touched words.new) }
    ensures kept { Kept (W.Words.row words.old) (W.Words.row words.new) }
{
    if is_even(n) {
        return Some(before);
    }
    share(words, t);
    concat(words, before, t)
}

/// The rope twice.
fn double<W: Words>(words: &mut W, rope: Ref) -> Option<Ref>
    requires { One Twice (W.Words.row words.old) rope.0 160 }
    ensures doubles { Doubles (W.Words.row words.old) (W.Words.row words.new) rope.0 result (W.touched words.old) (W.touched words.new) }
    ensures kept { Kept (W.Words.row words.old) (W.Words.row words.new) }
{
    share(words, rope);
    concat(words, rope, rope)
}

/// The rope `before`, and `t` behind it `n` times.
fn repeat_onto<W: Words>(words: &mut W, before: Ref, t: Ref, n: u32) -> Option<Ref>
    requires { Two (Copied n) (W.Words.row words.old) before.0 t.0 200 }
    ensures repeats { Repeats n (W.Words.row words.old) (W.Words.row words.new) before.0 t.0 result (W.touched words.old) (W.touched words.new) }
    ensures kept { Kept (W.Words.row words.old) (W.Words.row words.new) }
{
    if n == 0 {
        release(words, t);
        return Some(before);
    }
    if n == 1 {
        return concat(words, before, t);
    }
    let start = add_odd(words, before, t, n);
    let start = or_release(words, start, t)?;
    let twice = double(words, t);
    let twice = or_release(words, twice, start)?;
    repeat_onto(words, start, twice, half(n))
}

/// The rope `n` times.
pub fn repeat<W: Words>(words: &mut W, t: Ref, n: u32) -> Option<Ref>
    requires { One (Times n) (W.Words.row words.old) t.0 200 }
    ensures repeated { Repeated n (W.Words.row words.old) (W.Words.row words.new) t.0 result (W.touched words.old) (W.touched words.new) }
    ensures kept { Kept (W.Words.row words.old) (W.Words.row words.new) }
    ensures quick { W.touched words.new ≤ W.touched words.old + 75000 }
{
    repeat_onto(words, NONE, t, n)
}
