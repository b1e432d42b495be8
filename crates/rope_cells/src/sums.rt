//! What is summed over the bytes of a rope. A sum has a place in each cell; `sums_of` names every one of them.
ghost use Rattle.std.specs.Prelude.{◌≡◌, ℕ, ◌+◌, ◌^◌, ◌<◌, ◌≤◌, List, ◌++◌, length};
ghost use Rattle.std.proofs.Math.Path.{refl};
ghost use Rattle.std.proofs.Common.{length-append, rules};
ghost use Rattle.spec.specs.Text.{newlines};
ghost use Rattle.ropes.specs.Layout.{sums_of, sum_at};
ghost use Rattle.ropes.proofs.Sums.{sum_first, newlines_append, newlines_few};

/// The sums of some bytes, each at its place.
pub type Sums = [u32; 6];

/// How many places are taken.
// Kept: a length beside the array, since to read all six words of a node would touch more than the two that its readers promise.
pub const USED: usize = 2;

/// A number that each byte sequence has, such that the parts of one have the whole's in all.
pub trait Sum {
    ghost sums: { List ℕ → ℕ };

    ghost PLACE: { ℕ };

    /// Where the sum stands in a cell.
    const PLACE: usize;

    /// The sum of these bytes.
    fn of(part: &[u8]) -> u32
        requires { length part.now < 2 ^ 32 }
        ensures { result ≡ sums part.now };

    ghost whole: { (a b : List ℕ) → sums (a ++ b) ≡ sums a + sums b };

    ghost small: { (a : List ℕ) → sums a ≤ length a };

    ghost stands: { (a : List ℕ) → sum_at a PLACE ≡ sums a };

    ghost known: { PLACE < 4 };
}

/// How many bytes there are.
pub struct Bytes;

/// How many of them are line ends.
pub struct LineEnds;

impl Sum for Bytes {
    ghost sums = { λ a. length a };

    ghost PLACE = { 0 };

    const PLACE: usize = 0;

    ghost whole = { λ a b. length-append a b };

    ghost small = { Prim.search rules };

    ghost stands = { λ a. sum_first a };

    ghost known = { Prim.search rules };

    fn of(part: &[u8]) -> u32 {
        part.len() as u32
    }
}

impl Sum for LineEnds {
    ghost sums = { newlines };

    ghost PLACE = { 1 };

    const PLACE: usize = 1;

    ghost whole = { λ a b. newlines_append a b };

    ghost small = { λ a. newlines_few a };

    ghost stands = { unfold sums_of in λ a. refl };

    ghost known = { Prim.search rules };

    fn of(part: &[u8]) -> u32 {
        let mut n = 0;
        for b in part {
            if *b == b'\n' {
                n += 1;
            }
        }
        n
    }
}

/// All sums of these bytes.
pub fn sums_of(part: &[u8]) -> Sums
    requires { length part.now < 2 ^ 32 }
    ensures { result ≡ sums_of part.now }
{
    [Bytes::of(part), LineEnds::of(part), 0, 0, 0, 0]
}
