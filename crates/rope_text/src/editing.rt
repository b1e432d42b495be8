//! Ropes made beside the one that is held, and taken in its place.
ghost use Rattle.std.specs.Prelude.{◌≡◌, ℕ, ◌+◌, ◌*◌, ◌<◌, ◌≤◌, ◌++◌, length, take, drop, IfOk, MatchResult};
ghost use Rattle.spec.specs.Text.{replaced, copies, part};
ghost use Rattle.rope_read.specs.Text.{text};
ghost use Rattle.rope_text.specs.Holding.{Stands, Holds, Offered, Settling};

use crate::rope_text::Full;
use cells::{Ref, release, share};
use rope::{concat, split};
use rope_edit::{from_bytes, repeat, replace, slice};
use rope_read::{len, read};
use words::Words;

/// Holds the rope that was made in the place of `root`, or `root` still, where there was no room for one.
pub fn settle<W: Words>(words: &mut W, root: &mut Ref, made: Option<Ref>) -> Result<(), Full>
    requires { Settling (W.Words.row words.old) root.old.0 made }
    ensures holds { Holds (W.Words.row words.new) root.new.0 }
    ensures text { (x : Settling (W.Words.row words.old) root.old.0 made) → MatchResult result (λ _. text (W.Words.row words.new) root.new.0 ≡ x.new) (λ _. text (W.Words.row words.new) root.new.0 ≡ x.old) }
{
    let Some(new) = made else {
        return Err(Full);
    };
    release(words, *root);
    *root = new;
    Ok(())
}

/// The rope with the bytes from place `from` up to place `to` replaced, beside the rope.
pub fn replaced<W: Words>(words: &mut W, root: Ref, from: u32, to: u32, bytes: &[u8]) -> Option<Ref>
    requires rope { Holds (W.Words.row words.old) root.0 }
    requires ordered { from ≤ to }
    requires few { length (text (W.Words.row words.old) root.0) + length bytes.now < 536870912 }
    ensures { Offered (W.Words.row words.new) root.0 (text (W.Words.row words.old) root.0) result (replaced (text (W.Words.row words.old) root.0) from to bytes.now) }
{
    let new = from_bytes(words, bytes)?;
    share(words, root);
    replace(words, root, from, to, new)
}

/// The rope `n` times, beside the rope.
pub fn repeated<W: Words>(words: &mut W, root: Ref, n: u32) -> Option<Ref>
    requires rope { Holds (W.Words.row words.old) root.0 }
    requires few { n * length (text (W.Words.row words.old) root.0) < 536870912 }
    ensures { Offered (W.Words.row words.new) root.0 (text (W.Words.row words.old) root.0) result (copies n (text (W.Words.row words.old) root.0)) }
{
    share(words, root);
    repeat(words, root, n)
}

/// The rope cut at place `at`, its front behind its back, beside the rope.
pub fn rotated<W: Words>(words: &mut W, root: Ref, at: u32) -> Option<Ref>
    requires { Holds (W.Words.row words.old) root.0 }
    ensures { Offered (W.Words.row words.new) root.0 (text (W.Words.row words.old) root.0) result (drop at (text (W.Words.row words.old) root.0) ++ take at (text (W.Words.row words.old) root.0)) }
{
    share(words, root);
    let cut = split(words, root, at)?;
    concat(words, cut.back, cut.front)
}

/// Reads the bytes from place `from` on by a rope of their own that is let go, or none, where there is no room for one.
pub fn sliced<W: Words>(words: &mut W, root: Ref, from: u32, into: &mut [u8]) -> Result<(), Full>
    requires rope { Holds (W.Words.row words.old) root.0 }
    requires inside { from + length into.old ≤ length (text (W.Words.row words.old) root.0) }
    ensures stands { Stands (W.Words.row words.new) root.0 (text (W.Words.row words.old) root.0) }
    ensures value { MatchResult result (λ _. into.new ≡ part (text (W.Words.row words.old) root.0) from (from + length into.old)) (λ _. into.new ≡ into.old) }
{
    let Some(part) = slice(words, root, from, from + into.len() as u32) else {
        return Err(Full);
    };
    read(words, part, 0, into);
    release(words, part);
    Ok(())
}

/// How many bytes a rope of those from place `from` up to place `to` has, which is made and let go.
pub fn slice_len<W: Words>(words: &mut W, root: Ref, from: u32, to: u32) -> Result<u32, Full>
    requires { Holds (W.Words.row words.old) root.0 }
    ensures stands { Stands (W.Words.row words.new) root.0 (text (W.Words.row words.old) root.0) }
    ensures value { IfOk result (λ n. n ≡ length (part (text (W.Words.row words.old) root.0) from to)) }
{
    let Some(taken) = slice(words, root, from, to) else {
        return Err(Full);
    };
    let bytes = len(words, taken);
    release(words, taken);
    Ok(bytes)
}
