//! A text twice, as a rope in words and as a vector, and random edits of both.
ghost use Rattle.std.specs.Prelude.{◌≤◌, ◌<◌};

use crate::compare::{agreed_len, compare, compare_places};
use anyhow::ensure;
use dice::Dice;
use rope_text::{Full, RopeText};
use std::alloc::{AllocError, Global};
use words::HeapWords;

/// A longer text is cut down.
const LONG: u32 = 12_000;

/// The text is never longer than this.
const LONGEST: u32 = 40_000;

#[derive(Drop)]
pub struct Pair {
    text: RopeText<HeapWords>,
    bytes: Vec<u8>,
    /// How many bytes there were at most.
    pub longest: u32,
    /// How many edits were refused for want of room.
    pub refused: u32,
}

/// A byte, often a line end.
fn random_byte(dice: &mut Dice) -> u8 {
    if dice.below(8) == 0 {
        b'\n'
    } else {
        dice.below(256) as u8
    }
}

fn random_bytes(heap: Global, dice: &mut Dice, count: u32) -> Result<Vec<u8>, AllocError> {
    (0..count).map(|_| random_byte(dice)).collect(heap)
}

/// Two places of `len` bytes, at most `most` bytes apart.
fn random_range(dice: &mut Dice, len: u32, most: u32) -> (u32, u32)
    requires few { len < 536870912 }
    requires most { most < 536870912 }
    ensures ordered { result.0 ≤ result.1 }
    ensures inside { result.1 ≤ len }
{
    let from = dice.below(len + 1);
    let to = from + dice.below((len - from).min(most) + 1);
    (from, to)
}

/// Whether an edit was done. One that was refused is counted.
fn was_done(refused: &mut u32, done: Result<(), Full>) -> bool {
    if done.is_err() {
        *refused = refused.saturating_add(1);
    }
    done.is_ok()
}

impl Pair {
    /// Both empty.
    pub fn new(heap: Global, words: usize) -> anyhow::Result<Pair>
        requires { 128 ≤ words }
    {
        let words = HeapWords::new(heap, words)?;
        Ok(Pair {
            text: RopeText::new(words),
            bytes: Vec::new(heap),
            longest: 0,
            refused: 0,
        })
    }

    /// A random edit of both, and a look whether they are the same.
    pub fn step(&mut self, heap: Global, dice: &mut Dice) -> anyhow::Result<()> {
        let len = agreed_len(&mut self.text, &self.bytes)?;
        self.longest = self.longest.max(len);
        if len > LONG {
            self.shorten(dice, len)?;
        } else {
            self.edit(heap, dice, len)?;
        }
        compare(heap, &mut self.text, &self.bytes)?;
        for _ in 0..4 {
            compare_places(&mut self.text, &self.bytes, dice)?;
        }
        Ok(())
    }

    /// Leaves two ends of the text, or nothing, which takes no room.
    fn shorten(&mut self, dice: &mut Dice, len: u32) -> anyhow::Result<()> {
        let kept = dice.below(2) * (len / 9);
        self.replace(kept, len - kept, b"")
    }

    fn edit(&mut self, heap: Global, dice: &mut Dice, len: u32) -> anyhow::Result<()>
        requires { len < 536870912 }
    {
        match dice.below(32) {
            0 => self.repeat(heap, dice.below(4)),
            1..=4 => self.rotate(dice.below(len + 1)),
            5..=7 => {
                let (from, to) = random_range(dice, len, len);
                self.slice(heap, from, to)
            }
            8 => {
                let count = dice.below(6_000);
                let new = random_bytes(heap, dice, count)?;
                self.replace(0, len, &new)
            }
            9 => self.shorten(dice, len),
            _ => {
                let (from, to) = random_range(dice, len, 60);
                let count = dice.below(4) * dice.below(60);
                let new = random_bytes(heap, dice, count)?;
                self.replace(from, to, &new)
            }
        }
    }

    fn replace(&mut self, from: u32, to: u32, new: &[u8]) -> anyhow::Result<()> {
        let len = agreed_len(&mut self.text, &self.bytes)?;
        ensure!(from <= to && to <= len, "no such places");
        ensure!(
            len < LONGEST && new.len() < LONGEST as usize,
            "too many bytes"
        );
        let done = self.text.replace(from, to, new);
        if was_done(&mut self.refused, done) {
            self.bytes
                .splice(from as usize..to as usize, new.iter().copied())?;
        }
        Ok(())
    }

    fn repeat(&mut self, heap: Global, n: u32) -> anyhow::Result<()> {
        let len = agreed_len(&mut self.text, &self.bytes)?;
        ensure!(n < 4 && len < LONGEST, "too many bytes");
        let done = self.text.repeat(n);
        if was_done(&mut self.refused, done) {
            self.bytes = self.bytes.repeat(heap, n as usize)?;
        }
        Ok(())
    }

    fn rotate(&mut self, at: u32) -> anyhow::Result<()> {
        let len = agreed_len(&mut self.text, &self.bytes)?;
        ensure!(at <= len, "no such place");
        let done = self.text.rotate(at);
        if was_done(&mut self.refused, done) {
            self.bytes.rotate_left(at as usize);
        }
        Ok(())
    }

    fn slice(&mut self, heap: Global, from: u32, to: u32) -> anyhow::Result<()> {
        let len = agreed_len(&mut self.text, &self.bytes)?;
        ensure!(from <= to && to <= len, "no such places");
        let mut found = vec![in heap; 0u8; (to - from) as usize]?;
        let done = self.text.slice(from, &mut found);
        if was_done(&mut self.refused, done) {
            let expected = &self.bytes[from as usize..to as usize];
            ensure!(found.as_slice() == expected, "a slice differs");
        }
        Ok(())
    }
}
