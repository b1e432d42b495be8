//! A writer of bytes, and what is written by it: runs and numbers.
ghost use Rattle.std.specs.Prelude.{◌≡◌, ℕ, ◌+◌, ◌<◌, ◌≤◌, List, [], ◌∷◌, ◌++◌, length};
ghost use Rattle.spec.specs.Screen.{decimal};
ghost use Rattle.term_rows.specs.Lent.{Lent, HasRoom};

use itoa::Buffer;

/// Bytes are written one behind the other, into room that was lent.
pub trait ByteWriter {
    /// What was written so far.
    ghost written: { Self → List ℕ };

    /// Where it is written, which never changes.
    ghost lent: { Self → Lent };

    /// How many more bytes there is room for.
    fn left(&self) -> usize
        ensures { length (written self.now) + result ≡ (lent self.now).capacity };

    /// How many bytes were written.
    fn count(&self) -> usize
        ensures { result ≡ length (written self.now) };

    fn write_byte(&mut self, byte: u8)
        requires { length (written self.old) < (lent self.old).capacity }
        ensures says { written self.new ≡ written self.old ++ (byte ∷ []) }
        ensures long { length (written self.new) ≡ length (written self.old) + 1 }
        ensures same { lent self.new ≡ lent self.old };
}

pub fn write_bytes<W: ByteWriter>(writer: &mut W, bytes: &[u8])
    requires { HasRoom (W.written writer.old) (W.lent writer.old) (length bytes.now) }
    ensures says { W.written writer.new ≡ W.written writer.old ++ bytes.now }
    ensures long { length (W.written writer.new) ≡ length (W.written writer.old) + length bytes.now }
    ensures same { W.lent writer.new ≡ W.lent writer.old }
{
    for b in bytes {
        writer.write_byte(*b);
    }
}

/// A number of at most four digits, in decimal.
#[tactic(auto, using(crate::proofs::Numbers::decimal_is, terminals::proofs::Decimals::decimal_short))]
pub fn write_number<W: ByteWriter>(writer: &mut W, n: u16)
    requires { (n ≤ 9999) × HasRoom (W.written writer.old) (W.lent writer.old) 4 }
    ensures says { W.written writer.new ≡ W.written writer.old ++ decimal n }
    ensures long { length (W.written writer.new) ≤ length (W.written writer.old) + 4 }
    ensures same { W.lent writer.new ≡ W.lent writer.old }
{
    let mut digits = Buffer::new();
    write_bytes(writer, digits.format(n).as_bytes());
}
