//! The writer over lent bytes.
ghost use Rattle.std.specs.Prelude.{◌≤◌, length, take};

use crate::writer::ByteWriter;

/// Lent bytes, of which the first `used` were written.
// Kept: a length beside the bytes: the caller lends them, with no heap, and a slice cut off as it is written would no longer hold what was written.
#[derive(Drop)]
pub struct Output<'a> {
    pub bytes: &'a mut [u8],
    pub used: usize,
    ghost ok: { used ≤ length bytes.now },
}

impl ByteWriter for Output<'_> {
    ghost written = { λ s. take s.used s.bytes.now };

    ghost lent = { λ s. record { lender = s.bytes.ghost_name; capacity = length s.bytes.now } };

    fn left(&self) -> usize {
        self.bytes.len() - self.used
    }

    fn count(&self) -> usize {
        self.used
    }

    fn write_byte(&mut self, byte: u8) {
        let at = self.used;
        self.bytes[at] = byte;
        self.used = at + 1;
    }
}
