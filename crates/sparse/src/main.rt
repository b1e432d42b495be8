//! A row of 300,000,000 words of which a thousand cells are taken. Memory is used for what was written alone.
#![tactic(auto)]

use cells::new;
use chain::build;
use words::{HeapWords, Words};

const WORDS: usize = 300000000;

const CELLS: u32 = 1000;

fn main(rt: HostRuntime) -> anyhow::Result<()> {
    let mut words = HeapWords::new(rt.alloc(), WORDS)?;
    new(&mut words);
    let list = build(&mut words, CELLS);
    let count = words.count();
    let cells = list.cells;
    println!(rt; "{cells} cells in a row of {count} words")?;
    Ok(())
}
