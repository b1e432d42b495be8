//! A text and the words in which it lies.
ghost use Rattle.std.specs.Prelude.{◌≡◌, ℕ, ◌+◌, ◌*◌, ◌<◌, ◌≤◌, [], ◌++◌, true, length, take, drop, slice_index, IfOk, MatchOption, MatchResult};
ghost use Rattle.spec.specs.Text.{replaced, copies, part};
ghost use Rattle.rope_read.specs.Finding.{Absent, First, Last};
ghost use Rattle.rope_read.specs.Reading.{Reached};

use crate::balance;
use crate::editing::{repeated, replaced, rotated, settle, slice_len, sliced};
use cells::{NONE, Ref};
use rope_cells::Sum;
use std::marker::Model;
use thiserror::Error;
use words::Words;

/// There is no room for what a call would make. The text is as before.
#[derive(Clone, Copy, Debug, PartialEq, Eq, Error)]
#[error("there is no room")]
pub struct Full;

/// A text of fewer than 2^29 bytes.
#[derive(Drop)]
pub struct RopeText<W: Words> {
    words: W,
    root: Ref,
}

impl<W: Words> Model for RopeText<W> {
    ghost use Rattle.std.specs.Prelude.{ℕ, List};
    ghost use Rattle.rope_read.specs.Text.{text};
    ghost use Rattle.rope_text.specs.Holding.{Holds};

    ghost Value = { List ℕ };

    ghost view = { λ s. text (W.Words.row s.words) s.root.0 };

    ghost invariant = { λ s. Holds (W.Words.row s.words) s.root.0 };
}

impl<W: Words> RopeText<W> {
    /// No text, in these words, whatever stood in them.
    pub fn new(mut words: W) -> RopeText<W>
        requires { 128 ≤ length (W.Words.row words) }
        ensures { result ≡ [] }
    {
        cells::new(&mut words);
        RopeText { words, root: NONE }
    }

    /// Replaces the bytes from place `from` up to place `to`.
    pub fn replace(&mut self, from: u32, to: u32, bytes: &[u8]) -> Result<(), Full>
        requires ordered { from ≤ to }
        requires few { length self.old + length bytes.now < 536870912 }
        ensures { MatchResult result (λ _. self.new ≡ replaced self.old from to bytes.now) (λ _. self.new ≡ self.old) }
    {
        let made = replaced(&mut self.words, self.root, from, to, bytes);
        settle(&mut self.words, &mut self.root, made)
    }

    /// Repeats the text, `n` times in all.
    pub fn repeat(&mut self, n: u32) -> Result<(), Full>
        requires few { n * length self.old < 536870912 }
        ensures { MatchResult result (λ _. self.new ≡ copies n self.old) (λ _. self.new ≡ self.old) }
    {
        let made = repeated(&mut self.words, self.root, n);
        settle(&mut self.words, &mut self.root, made)
    }

    /// Cuts the text at place `at`, and puts its front behind its back.
    pub fn rotate(&mut self, at: u32) -> Result<(), Full>
        ensures { MatchResult result (λ _. self.new ≡ drop at self.old ++ take at self.old) (λ _. self.new ≡ self.old) }
    {
        let made = rotated(&mut self.words, self.root, at);
        settle(&mut self.words, &mut self.root, made)
    }

    /// Reads the bytes from place `from` on by a rope of their own, or none, where there is no room for one.
    pub fn slice(&mut self, from: u32, into: &mut [u8]) -> Result<(), Full>
        requires inside { from + length into.old ≤ length self.old }
        ensures same { self.new ≡ self.old }
        ensures value { MatchResult result (λ _. into.new ≡ part self.old from (from + length into.old)) (λ _. into.new ≡ into.old) }
    {
        sliced(&mut self.words, self.root, from, into)
    }

    /// Makes a rope of the bytes from place `from` up to place `to`, says how many they are, and lets it go.
    pub fn slice_len(&mut self, from: u32, to: u32) -> Result<u32, Full>
        ensures same { self.new ≡ self.old }
        ensures value { IfOk result (λ n. n ≡ length (part self.old from to)) }
    {
        slice_len(&mut self.words, self.root, from, to)
    }

    /// How many bytes there are.
    pub fn len(&mut self) -> u32
        ensures value { result ≡ length self.old }
        ensures few { result < 536870912 }
        ensures same { self.new ≡ self.old }
    {
        rope_read::len(&mut self.words, self.root)
    }

    /// The sum of all bytes.
    pub fn sum<S: Sum>(&mut self) -> u32
        ensures value { result ≡ S.Sum.sums self.old }
        ensures small { result ≤ length self.old }
        ensures same { self.new ≡ self.old }
    {
        rope_read::sum::<S, W>(&mut self.words, self.root)
    }

    /// The bytes from place `from` on.
    pub fn read(&mut self, from: u32, into: &mut [u8])
        requires inside { from + length into.old ≤ length self.old }
        ensures value { into.new ≡ take (length into.old) (drop from self.old) }
        ensures same { self.new ≡ self.old }
    {
        rope_read::read(&mut self.words, self.root, from, into);
    }

    /// The byte at place `at`.
    pub fn byte_at(&mut self, at: u32) -> u8
        requires inside { at < length self.old }
        ensures value { result ≡ slice_index self.old at }
        ensures same { self.new ≡ self.old }
    {
        rope_read::byte_at(&mut self.words, self.root, at)
    }

    /// The sum of the bytes before place `at`.
    pub fn prefix<S: Sum>(&mut self, at: u32) -> u32
        ensures value { result ≡ S.Sum.sums (take at self.old) }
        ensures same { self.new ≡ self.old }
    {
        rope_read::prefix::<S, W>(&mut self.words, self.root, at)
    }

    /// The least place before which the bytes sum to `n`.
    pub fn seek<S: Sum>(&mut self, n: u32) -> u32
        requires reached { n ≤ S.Sum.sums self.old }
        ensures value { Reached S.Sum.sums self.old n result }
        ensures same { self.new ≡ self.old }
    {
        rope_read::seek::<S, W>(&mut self.words, self.root, n)
    }

    /// The place of the first byte `byte` from place `from` up to place `to`.
    pub fn find(&mut self, from: u32, to: u32, byte: u8) -> Option<u32>
        requires inside { to ≤ length self.old }
        ensures value { MatchOption result (Absent self.old from to byte) (λ k. First self.old from to byte k) }
        ensures same { self.new ≡ self.old }
    {
        rope_read::find(&mut self.words, self.root, from, to, byte)
    }

    /// The place of the last byte `byte` from place `from` up to place `to`.
    pub fn find_back(&mut self, from: u32, to: u32, byte: u8) -> Option<u32>
        requires inside { to ≤ length self.old }
        ensures value { MatchOption result (Absent self.old from to byte) (λ k. Last self.old from to byte k) }
        ensures same { self.new ≡ self.old }
    {
        rope_read::find_back(&mut self.words, self.root, from, to, byte)
    }

    /// Whether the rope is in balance, its leaves are filled, and its cells say what is counted.
    pub fn is_balanced(&mut self) -> bool
        ensures value { result ≡ true }
        ensures same { self.new ≡ self.old }
    {
        balance::is_balanced(&mut self.words, self.root)
    }
}
