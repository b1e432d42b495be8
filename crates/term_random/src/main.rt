//! Random pictures, drawn one over the other, on the second editor's terminal: each is compared cell by cell,
//! and what was sent is held to the bound.
#![tactic(auto)]

mod picture;
mod screen;

use crate::screen::Screen;
use dice::Dice;

const SCREENS: u32 = 2_000;

const CHANGES: u32 = 10;

fn play_screen(rt: &HostRuntime, dice: &mut Dice) -> anyhow::Result<usize> {
    let mut screen = Screen::painted(rt.alloc(), dice)?;
    let mut sent = 0usize;
    for _ in 0..CHANGES {
        sent = sent.saturating_add(screen.change(rt.alloc(), dice)?);
    }
    Ok(sent)
}

fn main(rt: HostRuntime) -> anyhow::Result<()> {
    let mut dice = Dice::new();
    let mut sent = 0usize;
    for _ in 0..SCREENS {
        sent = sent.saturating_add(play_screen(&rt, &mut dice)?);
    }
    println!(rt;
        "{SCREENS} screens, {CHANGES} changes of each, {sent} bytes: all shown as expected"
    )?;
    Ok(())
}
