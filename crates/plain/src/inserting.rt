//! Where inserting begins, and what keys do then.
use crate::editor::{Editor, Mode};
use plain_keys::{ESCAPE, Opening};
use std::alloc::AllocError;

const BACKSPACE: u8 = 0x08;

const DELETE: u8 = 0x7f;

impl Editor {
    pub(crate) fn insert_at(&mut self, place: usize) {
        self.buffer.move_to(place);
        self.mode = Mode::Inserting;
    }

    pub(crate) fn begin_inserting(&mut self, opening: Opening) -> Result<(), AllocError> {
        let here = self.buffer.here();
        let place = match opening {
            Opening::Before => here.at,
            Opening::Behind => here.right(1).at,
            Opening::FirstNonblank => here.first_nonblank().at,
            Opening::LineEnd => here.line_end().at,
            Opening::LineBelow => {
                let end = here.line_end().at;
                self.replace(end, end, b"\n")?;
                end.saturating_add(1)
            }
            Opening::LineAbove => {
                let start = here.line_start().at;
                self.replace(start, start, b"\n")?;
                start
            }
        };
        self.insert_at(place);
        Ok(())
    }

    pub(crate) fn insert_key(&mut self, key: u8) -> Result<(), AllocError> {
        match key {
            ESCAPE => {
                self.end_inserting();
                Ok(())
            }
            BACKSPACE | DELETE => self.delete_before(),
            b'\n' | b'\r' => self.insert_byte(b'\n'),
            b'\t' | 32..=126 | 128..=255 => self.insert_byte(key),
            _ => Ok(()),
        }
    }

    fn insert_byte(&mut self, byte: u8) -> Result<(), AllocError> {
        let at = self.buffer.here().at;
        self.replace(at, at, &[byte])?;
        self.buffer.move_to(at.saturating_add(1));
        Ok(())
    }

    fn delete_before(&mut self) -> Result<(), AllocError> {
        let at = self.buffer.here().at;
        self.replace(at.saturating_sub(1), at, b"")
    }

    // The cursor goes left by one, if it can.
    fn end_inserting(&mut self) {
        self.mode = Mode::at_rest();
        let place = self.buffer.here().left(1).at;
        self.stand(place);
    }
}
