//! The first and the last byte of a value in a range of a rope, looked for in chunks.
ghost use Rattle.std.specs.Prelude.{◌≡◌, ◌+◌, ◌-◌, ◌*◌, ◌≤◌, min, length, MatchOption};
ghost use Rattle.rope_cells.specs.Lending.{Lends};
ghost use Rattle.rope_read.specs.Text.{text};
ghost use Rattle.rope_read.specs.Finding.{Absent, First, Last};

use crate::ranges::read;
use cells::Ref;
use words::Words;

/// How many bytes are read at a time.
const CHUNK: usize = 64;

/// How many of the bytes from place `from` up to place `to` are read next.
fn chunk_len(from: u32, to: u32) -> usize
    requires ordered { from ≤ to }
    ensures { result ≡ min (to - from) 64 }
{
    ((to - from) as usize).min(CHUNK)
}

/// The index of the first byte `byte` of a chunk.
fn first_in(chunk: &[u8], byte: u8) -> Option<usize>
    ensures { MatchOption result (Absent chunk.now 0 (length chunk.now) byte) (λ k. First chunk.now 0 (length chunk.now) byte k) }
{
    chunk.iter().position(|b| *b == byte)
}

/// The index of the last byte `byte` of a chunk.
fn last_in(chunk: &[u8], byte: u8) -> Option<usize>
    ensures { MatchOption result (Absent chunk.now 0 (length chunk.now) byte) (λ k. Last chunk.now 0 (length chunk.now) byte k) }
{
    chunk.iter().rposition(|b| *b == byte)
}

/// The place of the first byte `byte` from place `from` up to place `to`.
// Kept: `find` and `find_back` stay two loops: one loop would take the chunks' places and the search in a chunk as closures, and would have to state what it finds and what that costs by what the closures promise, which is longer than the second loop.
pub fn find<W: Words>(words: &mut W, p: Ref, from: u32, to: u32, byte: u8) -> Option<u32>
    requires rope { Lends (W.Words.row words.old) p.0 }
    requires inside { to ≤ length (text (W.Words.row words.old) p.0) }
    ensures value { MatchOption result (Absent (text (W.Words.row words.old) p.0) from to byte) (λ k. First (text (W.Words.row words.old) p.0) from to byte k) }
    ensures same { W.Words.row words.new ≡ W.Words.row words.old }
    ensures touches { MatchOption result (W.touched words.new ≤ W.touched words.old + 4 * (to - from) + 234) (λ k. W.touched words.new ≤ W.touched words.old + 4 * (k - from) + 234) }
{
    let mut chunk = [0; CHUNK];
    for at in (from..to).step_by(CHUNK) {
        let part = &mut chunk[..chunk_len(at, to)];
        read(words, p, at, part);
        if let Some(k) = first_in(part, byte) {
            return Some(at + k as u32);
        }
    }
    None
}

/// The place of the last byte `byte` from place `from` up to place `to`.
pub fn find_back<W: Words>(words: &mut W, p: Ref, from: u32, to: u32, byte: u8) -> Option<u32>
    requires rope { Lends (W.Words.row words.old) p.0 }
    requires inside { to ≤ length (text (W.Words.row words.old) p.0) }
    ensures value { MatchOption result (Absent (text (W.Words.row words.old) p.0) from to byte) (λ k. Last (text (W.Words.row words.old) p.0) from to byte k) }
    ensures same { W.Words.row words.new ≡ W.Words.row words.old }
    ensures touches { MatchOption result (W.touched words.new ≤ W.touched words.old + 4 * (to - from) + 234) (λ k. W.touched words.new ≤ W.touched words.old + 4 * (to - k) + 234) }
{
    let mut chunk = [0; CHUNK];
    for behind in (0..to.saturating_sub(from)).step_by(CHUNK) {
        let end = to - behind;
        let len = chunk_len(from, end);
        let at = end - len as u32;
        let part = &mut chunk[..len];
        read(words, p, at, part);
        if let Some(k) = last_in(part, byte) {
            return Some(at + k as u32);
        }
    }
    None
}
