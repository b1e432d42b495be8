//! The text in one piece, with the cursor in it.
ghost use Rattle.std.specs.Prelude.{◌≡◌, ◌+◌, ◌-◌, ◌≤◌, min, ◌++◌, length, take, drop, vec_len, MatchResult};

use plain_lines::Place;
use std::alloc::{AllocError, Global};

#[derive(Drop)]
pub struct Buffer {
    text: Vec<u8>,
    cursor: usize,
    ghost ok: { cursor ≤ vec_len text },
}

impl Buffer {
    pub fn new(text: Vec<u8>) -> Buffer
        ensures text { result.text.items ≡ text.items }
        ensures cursor { result.cursor ≡ 0 }
    {
        Buffer { text, cursor: 0 }
    }

    // Where the cursor is.
    pub fn here(&self) -> Place<'_>
        ensures text { result.text.now ≡ self.now.text.items }
        ensures cursor { result.at ≡ self.now.cursor }
    {
        Place {
            text: self.text.as_slice(),
            at: self.cursor,
        }
    }

    // A place of the text, at most its end.
    pub fn place(&self, at: usize) -> Place<'_>
        ensures text { result.text.now ≡ self.now.text.items }
        ensures at { result.at ≡ min at (vec_len self.now.text) }
    {
        Place {
            text: self.text.as_slice(),
            at: at.min(self.text.len()),
        }
    }

    // To a place, at most behind the text.
    pub fn move_to(&mut self, place: usize)
        ensures cursor { self.new.cursor ≡ min place (vec_len self.old.text) }
        ensures text { self.new.text ≡ self.old.text }
    {
        self.cursor = place.min(self.text.len());
    }

    // Puts bytes in the place of those between two places, at the first of which the cursor is then.
    // Kept: by `[..].concat(heap)` the proof didn't close: that the bytes are the three parts, since `concat` tells of clones.
    pub fn replace(
        &mut self,
        heap: Global,
        from: usize,
        to: usize,
        new: &[u8],
    ) -> Result<(), AllocError>
        requires { (from ≤ to) × (to ≤ vec_len self.old.text) }
        ensures { MatchResult result
            (λ _. (self.new.text.items ≡ take from self.old.text.items ++ new.now ++ drop to self.old.text.items) × (self.new.cursor ≡ from))
            (λ _. self.new ≡ self.old) }
    {
        let mut text = Vec::new(heap);
        text.extend_from_slice(&self.text[0..from])?;
        text.extend_from_slice(new)?;
        text.extend_from_slice(&self.text[to..])?;
        self.text = text;
        self.cursor = from;
        Ok(())
    }

    // Takes another text for this one, which the other is then; the cursor is at the beginning.
    pub fn exchange(&mut self, other: &mut Vec<u8>)
        ensures text { self.new.text ≡ other.old }
        ensures other { other.new ≡ self.old.text }
        ensures cursor { self.new.cursor ≡ 0 }
    {
        self.cursor = 0;
        std::mem::swap(&mut self.text, other);
    }
}
