//! A row of words on C's heap. Its memory is reserved at once and touched only as words are first
//! written: what was never written is no item of the vector, and reads as 0.
ghost use Rattle.std.specs.Prelude.{◌≡◌, ◌<◌, ◌≤◌, length, IfOk, vec_len, vec_capacity, MatchResult, slice_index, slice_set};
ghost use Rattle.words.specs.Padded.{padded, zeros};
ghost use Rattle.words.specs.Counted.{Counted, WithinBounds, touched_once};

use crate::Words;
use std::alloc::{AllocError, Global};
use std::marker::Model;

/// The count of touches stops here.
const MOST_TOUCHES: u64 = 9223372036854775807;

// Kept: a size beside the vector, which has only the words up to the last that was written: those behind take no memory.
#[derive(Drop)]
pub struct HeapWords {
    items: Vec<u32>,
    size: usize,
    touches: u64,
}

impl Model for HeapWords {
    ghost Value = { Counted };

    ghost view = { λ s. record { row = padded s.items.items s.size; touched = s.touches; reserved = vec_capacity s.items } };

    ghost invariant = { λ s. (length s.items.items ≤ s.size) × (s.size ≤ vec_capacity s.items) × (s.touches ≤ 9223372036854775807) };
}

impl HeapWords {
    /// A row of `size` words, all 0, or an error where the memory can't be had.
    #[tactic(auto, using(crate::proofs::Bounds::within_bounds))]
    pub fn new(heap: Global, size: usize) -> Result<HeapWords, AllocError>
        ensures begun { IfOk result (λ w. (w.row ≡ zeros size) × (length w.row ≡ size) × (w.touched ≡ 0)) }
        ensures bounds { IfOk result WithinBounds }
    {
        let items = Vec::with_capacity(heap, size)?;
        Ok(HeapWords {
            items,
            size,
            touches: 0,
        })
    }

    /// The row with zeros behind it up to `size` words, or an error where the memory can't be had, and the row as it was.
    #[tactic(auto, using(crate::proofs::Bounds::within_bounds))]
    pub fn grow(&mut self, size: usize) -> Result<(), AllocError>
        ensures cases { MatchResult result (λ _. self.new.row ≡ padded self.old.row size) (λ _. self.new.row ≡ self.old.row) }
        ensures touches { self.new.touched ≡ self.old.touched }
        ensures bounds { WithinBounds self.new }
    {
        if size > self.size {
            self.items.reserve_exact(size - self.items.len())?;
            self.size = size;
        }
        Ok(())
    }
}

/// One touch more, up to where the count stops.
fn touch(touches: &mut u64)
    requires { touches.old ≤ 9223372036854775807 }
    ensures { touches.new ≡ touched_once touches.old }
{
    *touches = (*touches + 1).min(MOST_TOUCHES);
}

/// The item at `i`, or 0 behind them.
fn item(items: &Vec<u32>, i: usize) -> u32
    ensures { result ≡ slice_index items.now.items i }
{
    items.get(i).copied().unwrap_or(0)
}

/// Another item at `i`, where the items are.
fn overwrite(items: &mut Vec<u32>, i: usize, x: u32)
    requires { i < vec_len items.old }
    ensures items { items.new.items ≡ slice_set items.old.items i x }
    ensures capacity { vec_capacity items.new ≡ vec_capacity items.old }
{
    items[i] = x;
}

/// Zeros behind the items up to `n` of them, for which there is room.
// Kept: a loop and no `resize`, which doesn't promise that the memory stays the one that was reserved.
#[tactic(auto, using(crate::proofs::Padding::padded_push, crate::proofs::Padding::padded_enough))]
fn fill_up(items: &mut Vec<u32>, n: usize)
    requires { n ≤ vec_capacity items.old }
    ensures items { items.new.items ≡ padded items.old.items n }
    ensures long { n ≤ vec_len items.new }
    ensures capacity { vec_capacity items.new ≡ vec_capacity items.old }
{
    while items.len() < n {
        items.push_reserved(0);
    }
}

impl Words for HeapWords {
    ghost row = { λ s. s.row };

    ghost touched = { λ s. s.touched };

    #[tactic(auto, using(crate::proofs::Bounds::within_bounds))]
    fn count(&self) -> usize
        ensures value { result ≡ length self.now.row }
        ensures bounds { WithinBounds self.now }
    {
        self.size
    }

    #[tactic(auto, using(crate::proofs::Bounds::within_bounds))]
    fn get(&mut self, i: usize) -> u32
        requires { i < length self.old.row }
        ensures value { result ≡ slice_index self.old.row i }
        ensures same { self.new.row ≡ self.old.row }
        ensures touches { self.new.touched ≡ touched_once self.old.touched }
        ensures reserved { self.new.reserved ≡ self.old.reserved }
        ensures bounds { WithinBounds self.new }
    {
        touch(&mut self.touches);
        item(&self.items, i)
    }

    fn put(&mut self, i: usize, x: u32)
        requires { i < length self.old.row }
        ensures written { self.new.row ≡ slice_set self.old.row i x }
        ensures touches { self.new.touched ≡ touched_once self.old.touched }
        ensures reserved { self.new.reserved ≡ self.old.reserved }
        ensures bounds { WithinBounds self.new }
    {
        touch(&mut self.touches);
        fill_up(&mut self.items, i + 1);
        overwrite(&mut self.items, i, x);
    }
}
