//! A row of 32-bit words by a trait that counts every touch, and such a row on C's heap.
#![tactic(auto)]

ghost use Rattle.std.specs.Prelude.{◌≡◌, ℕ, ◌<◌, List, length, slice_index, slice_set};
ghost use Rattle.words.specs.Counted.{touched_once};

mod heap_words;

pub use heap_words::HeapWords;

/// A row of words. Whoever has it by this trait alone is counted, word by word.
pub trait Words {
    ghost row: { Self → List ℕ };

    ghost touched: { Self → ℕ };

    /// How many words there are.
    fn count(&self) -> usize
        ensures { result ≡ length (row self.now) };

    /// The word at `i`.
    fn get(&mut self, i: usize) -> u32
        requires { i < length (row self.old) }
        ensures value { result ≡ slice_index (row self.old) i }
        ensures same { row self.new ≡ row self.old }
        ensures touches { touched self.new ≡ touched_once (touched self.old) };

    /// Writes `x` at `i`.
    fn put(&mut self, i: usize, x: u32)
        requires { i < length (row self.old) }
        ensures written { row self.new ≡ slice_set (row self.old) i x }
        ensures touches { touched self.new ≡ touched_once (touched self.old) };
}
