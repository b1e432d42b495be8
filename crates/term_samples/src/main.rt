//! Prints some changes of a full screen with what is sent for them, so that a real terminal can be fed with it.
#![tactic(auto)]

mod report;
mod samples;
mod view;

fn main(rt: HostRuntime) -> anyhow::Result<()> {
    let text = view::text(rt.alloc(), 40)?;
    let wide = view::text(rt.alloc(), 80)?;
    samples::letter_at_end(&rt, &text)?;
    samples::letter_inside(&rt, &text)?;
    samples::join(&rt, &text)?;
    samples::step(&rt, &text)?;
    samples::step_and_scroll(&rt, &text)?;
    samples::scroll_full_rows(&rt, &wide)
}
