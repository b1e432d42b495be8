//! Cutting a rope in two. At its ends and at the edge of a leaf nothing is made anew.
ghost use Rattle.std.specs.Prelude.{◌≡◌, ℕ, ◌+◌, ◌<◌, ◌≤◌};
ghost use Rattle.cells.specs.Steps.{Kept};
ghost use Rattle.rope.specs.Cutting.{One, Sized, Short, cut_price, Cuts, Splits, LeafCut, Beside, JoinsBeside};

use crate::joining::concat;
use crate::making::leaves;
use cells::{NONE, Ref, or_release, part, release};
use rope_cells::{Bytes, left_sum, len, read_leaf, shape_of};
use words::Words;

/// The parts of a rope.
#[derive(Clone, Copy)]
pub struct Cut {
    pub front: Ref,
    pub back: Ref,
}

/// Two ropes as one, with a third beside them, which is let go where there is no room.
fn concat_beside<W: Words>(words: &mut W, left: Ref, right: Ref, held: Ref) -> Option<Ref>
    requires { Beside (W.Words.row words.old) left.0 right.0 held.0 }
    ensures joins { JoinsBeside (W.Words.row words.old) (W.Words.row words.new) left.0 right.0 held.0 result (W.touched words.old) (W.touched words.new) }
    ensures kept { Kept (W.Words.row words.old) (W.Words.row words.new) }
{
    let joined = concat(words, left, right);
    or_release(words, joined, held)
}

/// A leaf cut inside.
fn split_leaf<W: Words>(words: &mut W, rope: Ref, at: usize) -> Option<Cut>
    requires { One (LeafCut at) (W.Words.row words.old) rope.0 160 }
    ensures cuts { Cuts (LeafCut at) (λ _. 100) at (W.Words.row words.old) (W.Words.row words.new) rope.0 result (W.touched words.old) (W.touched words.new) }
    ensures kept { Kept (W.Words.row words.old) (W.Words.row words.new) }
{
    let all = read_leaf(words, rope);
    release(words, rope);
    let (front, back) = all.split_at(at);
    leaves(words, front, back)
}

/// A rope of `size` bytes cut at place `at`.
fn split_sized<W: Words>(words: &mut W, rope: Ref, size: u32, at: u32) -> Option<Cut>
    requires { One (Sized size) (W.Words.row words.old) rope.0 160 }
    ensures cuts { Cuts (Sized size) (cut_price at) at (W.Words.row words.old) (W.Words.row words.new) rope.0 result (W.touched words.old) (W.touched words.new) }
    ensures kept { Kept (W.Words.row words.old) (W.Words.row words.new) }
{
    if at == 0 {
        return Some(Cut {
            front: NONE,
            back: rope,
        });
    }
    if at >= size {
        return Some(Cut {
            front: rope,
            back: NONE,
        });
    }
    if shape_of(words, rope).height == 1 {
        return split_leaf(words, rope, at as usize);
    }
    let middle = left_sum::<Bytes, W>(words, rope);
    let children = part(words, rope);
    // Kept: the arms mirror each other, but what a cut has is a front and a back, and not two by a side.
    if at < middle {
        let cut = split_sized(words, children.left, middle, at);
        let cut = or_release(words, cut, children.right)?;
        let back = concat_beside(words, cut.back, children.right, cut.front)?;
        Some(Cut { back, ..cut })
    } else {
        let cut = split_sized(words, children.right, size - middle, at - middle);
        let cut = or_release(words, cut, children.left)?;
        let front = concat_beside(words, children.left, cut.front, cut.back)?;
        Some(Cut { front, ..cut })
    }
}

/// The rope cut at place `at`.
pub fn split<W: Words>(words: &mut W, rope: Ref, at: u32) -> Option<Cut>
    requires { One Short (W.Words.row words.old) rope.0 160 }
    ensures cuts { Splits at (W.Words.row words.old) (W.Words.row words.new) rope.0 result (W.touched words.old) (W.touched words.new) }
    ensures kept { Kept (W.Words.row words.old) (W.Words.row words.new) }
{
    let size = len(words, rope);
    split_sized(words, rope, size, at)
}
