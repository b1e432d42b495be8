//! Whether a rope's text is the same as a vector's.
ghost use Rattle.std.specs.Prelude.{◌≡◌, ◌<◌, length, IfOk};

use anyhow::ensure;
use dice::Dice;
use rope_cells::LineEnds;
use rope_text::RopeText;
use std::alloc::Global;
use words::HeapWords;

/// How many bytes both have.
pub fn agreed_len(text: &mut RopeText<HeapWords>, bytes: &[u8]) -> anyhow::Result<u32>
    ensures same { text.new ≡ text.old }
    ensures long { IfOk result (λ n. n ≡ length text.old) }
    ensures agreed { IfOk result (λ n. n ≡ length bytes.now) }
    ensures few { IfOk result (λ n. n < 536870912) }
{
    let len = text.len();
    ensure!(len as usize == bytes.len(), "the length differs");
    Ok(len)
}

fn line_ends(bytes: &[u8]) -> usize {
    bytes.iter().filter(|b| **b == b'\n').count()
}

/// The least place before which there are `n` line ends.
fn nth_line(bytes: &[u8], n: usize) -> Option<usize> {
    if n == 0 {
        return Some(0);
    }
    let mut ends = bytes.iter().enumerate().filter(|(_, b)| **b == b'\n');
    let (k, _) = ends.nth(n - 1)?;
    Some(k + 1)
}

/// Whether the two are the same, and the rope is in balance.
pub fn compare(heap: Global, text: &mut RopeText<HeapWords>, bytes: &[u8]) -> anyhow::Result<()> {
    let len = agreed_len(text, bytes)?;
    let mut found = vec![in heap; 0u8; len as usize]?;
    text.read(0, &mut found);
    ensure!(found.as_slice() == bytes, "the text differs");
    let ends = text.sum::<LineEnds>();
    ensure!(
        ends as usize == line_ends(bytes),
        "the number of line ends differs"
    );
    ensure!(text.is_balanced(), "the rope is out of balance");
    Ok(())
}

/// Whether what is read of the two at random places is the same.
pub fn compare_places(
    text: &mut RopeText<HeapWords>,
    bytes: &[u8],
    dice: &mut Dice,
) -> anyhow::Result<()> {
    let len = agreed_len(text, bytes)?;
    let at = dice.below(len + 1);
    if at < len {
        let byte = text.byte_at(at);
        ensure!(byte == bytes[at as usize], "a byte differs");
    }
    let before = text.prefix::<LineEnds>(at);
    ensure!(
        before as usize == line_ends(&bytes[..at as usize]),
        "the line ends before a place differ"
    );
    let n = dice.below(text.sum::<LineEnds>() + 1);
    let line = text.seek::<LineEnds>(n);
    ensure!(
        Some(line as usize) == nth_line(bytes, n as usize),
        "a line begins elsewhere"
    );
    let byte = dice.below(16) as u8;
    let to = at + dice.below(len - at + 1);
    let part = &bytes[at as usize..to as usize];
    let next = text.find(at, to, byte);
    ensure!(
        next.map(|k| (k - at) as usize) == part.iter().position(|b| *b == byte),
        "a byte is found elsewhere"
    );
    let last = text.find_back(at, to, byte);
    ensure!(
        last.map(|k| (k - at) as usize) == part.iter().rposition(|b| *b == byte),
        "a byte is found elsewhere from behind"
    );
    Ok(())
}
