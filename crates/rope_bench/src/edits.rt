//! A large text of lines, and the edits of it that are measured.
ghost use Rattle.std.specs.Prelude.{◌<◌};

use anyhow::ensure;
use dice::Dice;
use rope_cells::LineEnds;
use rope_text::RopeText;
use std::alloc::Global;
use std::fmt;
use words::HeapWords;

/// A line's bytes, its end among them.
const WIDTH: u32 = 41;

/// There are as many words as bytes, and these besides.
const WORDS_BESIDES: usize = 10_000_000;

/// No text is longer.
const LONGEST: u32 = 500_000_000;

#[derive(Clone, Copy)]
pub enum Edit {
    Insert,
    Delete,
    Slice,
    Line,
}

impl Edit {
    pub const ALL: [Edit; 4] = [Edit::Insert, Edit::Delete, Edit::Slice, Edit::Line];
}

impl fmt::Display for Edit {
    fn fmt<W: fmt::Write>(&self, f: &mut fmt::Formatter<W>) -> fmt::Result {
        match self {
            Edit::Insert => write!(f, "insert"),
            Edit::Delete => write!(f, "delete"),
            Edit::Slice => write!(f, "slice"),
            Edit::Line => write!(f, "line"),
        }
    }
}

/// A text, and where it is edited next.
#[derive(Drop)]
pub struct Bench {
    text: RopeText<HeapWords>,
    dice: Dice,
}

/// Lines of letters.
pub fn source(heap: Global, bytes: u32) -> anyhow::Result<Vec<u8>> {
    let letters = (0..bytes).map(|i| {
        if i % WIDTH == WIDTH - 1 {
            b'\n'
        } else {
            (i % 26) as u8 + b'a'
        }
    });
    Ok(letters.collect(heap)?)
}

impl Bench {
    /// A text of these bytes.
    pub fn new(heap: Global, bytes: &[u8]) -> anyhow::Result<Bench> {
        ensure!(bytes.len() < LONGEST as usize, "too many bytes");
        let words = HeapWords::new(heap, WORDS_BESIDES.saturating_add(bytes.len()))?;
        let mut text = RopeText::new(words);
        text.replace(0, 0, bytes)?;
        Ok(Bench {
            text,
            dice: Dice::new(),
        })
    }

    pub fn len(&mut self) -> u32 {
        self.text.len()
    }

    /// A random place of the text.
    fn place(&mut self) -> u32 {
        let len = self.text.len();
        self.dice.below(len.saturating_add(1))
    }

    pub fn edit(&mut self, edit: Edit) -> anyhow::Result<()> {
        let at = self.place();
        match edit {
            Edit::Insert if self.text.len() < LONGEST => self.text.replace(at, at, b"x")?,
            Edit::Insert => {}
            Edit::Delete => {
                let end = at.saturating_add(1).min(self.text.len());
                self.text.replace(at.min(end), end, b"")?;
            }
            Edit::Slice => {
                let tenth = self.text.len() / 10;
                let from = at / 10 * 9;
                self.text.slice_len(from, from.saturating_add(tenth))?;
            }
            Edit::Line => {
                let lines = self.text.sum::<LineEnds>();
                let line = self.dice.below(lines.saturating_add(1));
                self.text.seek::<LineEnds>(line);
            }
        }
        Ok(())
    }
}
