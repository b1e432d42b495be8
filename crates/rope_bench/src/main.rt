//! Edits a large rope at random places, and prints how long an edit took. Without words it edits a small one, and says nothing of time.
#![tactic(auto)]

mod edits;
mod memory;

use crate::edits::{Bench, Edit, source};
use std::alloc::Global;
use std::env;
use std::time::Instant;

/// How many bytes a small text has, and how often it is edited.
const SMALL: u32 = 10_000;

const FEW: u32 = 100;

/// How often a large text is edited, each way.
const MANY: u32 = 100_000;

/// How many bytes the first word asks for.
fn size_asked(rt: &HostRuntime) -> anyhow::Result<Option<u32>> {
    let mut words = env::args(rt)?;
    let _program = words.next();
    let Some(word) = words.next() else {
        return Ok(None);
    };
    Ok(Some(word.parse::<u32>()?))
}

/// Each edit some times on a small text.
fn edit_small(heap: Global) -> anyhow::Result<u32> {
    let mut bench = Bench::new(heap, &source(heap, SMALL)?)?;
    for edit in Edit::ALL {
        for _ in 0..FEW {
            bench.edit(edit)?;
        }
    }
    Ok(bench.len())
}

/// Prints how many nanoseconds each edit of a text takes, and how many bytes of memory it takes for each of its own.
fn measure(rt: &HostRuntime, bytes: u32) -> anyhow::Result<()> {
    let bytes = source(rt.alloc(), bytes)?;
    let before = memory::resident_kilobytes(rt)?;
    let start = Instant::now(rt)?;
    let mut bench = Bench::new(rt.alloc(), &bytes)?;
    let took = start.elapsed(rt)?.as_nanos();
    println!(rt; "build {took}")?;
    let kilobytes = memory::resident_kilobytes(rt)?.saturating_sub(before);
    println!(rt; "kilobytes {kilobytes}")?;
    for edit in Edit::ALL {
        let start = Instant::now(rt)?;
        for _ in 0..MANY {
            bench.edit(edit)?;
        }
        let each = start.elapsed(rt)?.as_nanos() / u128::from(MANY);
        println!(rt; "{edit} {each}")?;
    }
    Ok(())
}

fn main(rt: HostRuntime) -> anyhow::Result<()> {
    match size_asked(&rt)? {
        Some(bytes) => measure(&rt, bytes),
        None => {
            let bytes = edit_small(rt.alloc())?;
            println!(&rt; "{bytes} bytes")?;
            Ok(())
        }
    }
}
