//! Lists of cells, to try how cells are taken, let go and taken again.
#![tactic(auto)]

ghost use Rattle.std.specs.Prelude.{◌≡◌, ℕ, ◌<◌, ◌≤◌, List, [], ◌∷◌, length};
ghost use Rattle.cells.specs.Have.{Have, Item, item, opt};
ghost use Rattle.chain.specs.Chains.{Built, Pair, Stored, paired, numbered_node};

use cells::{NONE, Node, Ref, alloc, data_word, left, make, new, open, release, set_root, share};
use words::Words;

/// A list of cells, and how many it has.
#[derive(Clone, Copy)]
pub struct CellList {
    pub first: Ref,
    pub cells: u32,
}

/// Cell `k`, with these children.
fn numbered(k: u32, left: Ref, right: Ref) -> Node
    ensures { result ≡ numbered_node k left right }
{
    let mut data = [0; 13];
    data[0] = k;
    Node { left, right, data }
}

/// As many cells, one behind another, as there is room for, at most `most`.
pub fn build<W: Words>(words: &mut W, most: u32) -> CellList
    requires { Have (W.Words.row words.old) [] }
    ensures built { Built (W.Words.row words.new) result.first.0 result.cells most }
    ensures long { length (W.Words.row words.new) ≡ length (W.Words.row words.old) }
{
    let mut first = NONE;
    for k in 0..most {
        let Some(cell) = alloc(words, numbered(k, NONE, first)) else {
            return CellList { first, cells: k };
        };
        first = cell;
    }
    CellList { first, cells: most }
}

/// How many cells a list had, and how many the next one had, which was made of them.
#[derive(Clone, Copy)]
pub struct TakenBack {
    pub first: u32,
    pub second: u32,
}

/// Makes a list, lets it go at once, and gives how many cells it had.
fn build_and_release<W: Words>(words: &mut W, most: u32) -> u32
    requires { Have (W.Words.row words.old) [] }
    ensures { Have (W.Words.row words.new) [] }
{
    let list = build(words, most);
    release(words, list.first);
    list.cells
}

/// Begins a heap, makes a list, lets it go at once, and makes another.
pub fn take_back<W: Words>(words: &mut W, most: u32) -> TakenBack
    requires { 128 ≤ length (W.Words.row words.old) }
    ensures { Have (W.Words.row words.new) [] }
{
    new(words);
    TakenBack {
        first: build_and_release(words, most),
        second: build_and_release(words, most),
    }
}

/// A number that most likely differs where a word of the row does.
fn checksum<W: Words>(words: &mut W) -> u32
    ensures { W.Words.row words.new ≡ W.Words.row words.old }
{
    let mut sum = 0u32;
    // Kept: a loop, since after a `fold` whose closure holds the row no proof knows that the row is the same.
    for i in 0..words.count() {
        sum = sum.wrapping_mul(31).wrapping_add(words.get(i));
    }
    sum
}

/// Two cells, one below the other, with the numbers `n` and `n` + 1, the first below, or none where there is no room.
pub fn pair<W: Words>(words: &mut W, n: u32) -> Option<Ref>
    requires have { Have (W.Words.row words.old) [] }
    requires fits { n < 1000 }
    ensures { Have (W.Words.row words.new) (opt result (paired n) []) }
{
    let below = make(words, numbered(n, NONE, NONE))?;
    make(words, numbered(n + 1, below, NONE))
}

/// The number of the cell below `p`.
pub fn number_below<W: Words>(words: &mut W, p: Ref) -> u32
    requires { Pair (W.Words.row words.old) p.0 }
    ensures value { (n : ℕ) → Have (W.Words.row words.old) (item p.0 (paired n) ∷ []) → result ≡ n }
    ensures same { W.Words.row words.new ≡ W.Words.row words.old }
{
    let below = left(words, p);
    data_word(words, below, 0)
}

/// Stores the pair `p` as the first reference of the state, and gives the number of its upper cell.
pub fn store<W: Words>(words: &mut W, p: Ref) -> u32
    requires { Pair (W.Words.row words.old) p.0 }
    ensures { Stored (W.Words.row words.old) (W.Words.row words.new) p.0 result }
{
    share(words, p);
    set_root(words, 0, p);
    let node = open(words, p);
    release(words, node.left);
    release(words, node.right);
    node.data[0]
}

/// Whether another cell is refused, and the row then as before.
pub fn refuses<W: Words>(words: &mut W) -> bool
    requires { (items : List Item) × Have (W.Words.row words.old) items }
{
    let before = checksum(words);
    let refused = alloc(words, numbered(0, NONE, NONE)).is_none();
    refused && checksum(words) == before
}

#[cfg(test)]
mod tests {
    use super::*;
    use cells::root;
    use std::test::Fail;
    use words::HeapWords;

    #[test]
    fn takes_two_again(rt: HostRuntime) -> Result<(), Fail> {
        let mut words = HeapWords::new(rt.alloc(), 160)?;
        new(&mut words);
        let first = pair(&mut words, 1).ok_or("there was no room for two cells")?;
        release(&mut words, first);
        let second = pair(&mut words, 3).ok_or("the two cells were not used again")?;
        assert_eq!(rt; number_below(&mut words, second), 3);
        assert!(rt;
            refuses(&mut words),
            "there is room for two, and a refusal changes nothing"
        );
        Ok(())
    }

    #[test]
    fn stays_in_a_longer_row(rt: HostRuntime) -> Result<(), Fail> {
        let mut words = HeapWords::new(rt.alloc(), 160)?;
        new(&mut words);
        let two = pair(&mut words, 1).ok_or("there was no room for two cells")?;
        words.grow(176)?;
        assert_eq!(rt; number_below(&mut words, two), 1);
        assert!(rt;
            make(&mut words, numbered(3, two, NONE)).is_some(),
            "there is room for a third"
        );
        Ok(())
    }

    #[test]
    fn finds_what_it_stored(rt: HostRuntime) -> Result<(), Fail> {
        let mut words = HeapWords::new(rt.alloc(), 160)?;
        new(&mut words);
        let two = pair(&mut words, 5).ok_or("there was no room for two cells")?;
        assert_eq!(rt; store(&mut words, two), 6);
        let found = root(&mut words, 0);
        assert_eq!(rt; number_below(&mut words, found), 5);
        Ok(())
    }

    #[test]
    fn takes_all_back(rt: HostRuntime) -> Result<(), Fail> {
        let mut words = HeapWords::new(rt.alloc(), 1600128)?;
        let taken = take_back(&mut words, 200000);
        assert_eq!(rt; taken.first, 100000);
        assert_eq!(rt; taken.second, 100000);
        Ok(())
    }
}
