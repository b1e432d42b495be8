//! Random edits of a text as a rope in words, each done to a vector too: the two are compared after each step,
//! and every cell of the rope is looked at.
#![tactic(auto)]

ghost use Rattle.std.specs.Prelude.{◌≤◌};

mod compare;
mod pair;

use crate::pair::Pair;
use anyhow::ensure;
use dice::Dice;

/// As many words as no step needs.
const ROOMY: usize = 1_000_000;

/// So few words that many a step is refused.
const TIGHT: usize = 4_000;

const STEPS: u32 = 40_000;

fn play(rt: &HostRuntime, dice: &mut Dice, words: usize) -> anyhow::Result<Pair>
    requires { 128 ≤ words }
{
    let mut pair = Pair::new(rt.alloc(), words)?;
    for _ in 0..STEPS {
        pair.step(rt.alloc(), dice)?;
    }
    Ok(pair)
}

fn main(rt: HostRuntime) -> anyhow::Result<()> {
    let mut dice = Dice::new();
    let roomy = play(&rt, &mut dice, ROOMY)?;
    ensure!(
        roomy.refused == 0,
        "an edit was refused where there is room"
    );
    let longest = roomy.longest;
    println!(rt; "{STEPS} edits of up to {longest} bytes: all as in a vector")?;
    let tight = play(&rt, &mut dice, TIGHT)?;
    let longest = tight.longest;
    let refused = tight.refused;
    println!(rt;
        "{STEPS} edits of up to {longest} bytes, {refused} of them refused: all as in a vector"
    )?;
    Ok(())
}
