//! The changes.
use crate::report::print_change;
use crate::view::{Mode, View};
use anyhow::Context;
use pictures::Position;
use std::alloc::{AllocError, Global};
use std::iter::once;

/// The text with another line in the place of one or two.
fn with_line(
    heap: Global,
    text: &[Vec<u8>],
    at: usize,
    taken: usize,
    line: &[u8],
) -> Result<Vec<Vec<u8>>, AllocError> {
    let above = text.iter().take(at);
    let below = text.iter().skip(at.saturating_add(taken));
    above
        .map(|old| old.as_slice())
        .chain(once(line))
        .chain(below.map(|old| old.as_slice()))
        .map(|line| -> Result<Vec<u8>, AllocError> { Vec::from_slice(heap, line) })
        .try_collect(heap)
}

/// A line with a letter put in.
fn with_letter(heap: Global, line: &[u8], column: usize) -> Result<Vec<u8>, AllocError> {
    let mut out = Vec::from_slice(heap, line)?;
    out.insert(column.min(line.len()), b'Z')?;
    Ok(out)
}

fn letter(rt: &HostRuntime, name: &str, text: &[Vec<u8>], column: u16) -> anyhow::Result<()> {
    let line = text.get(5).context("no line")?;
    let line = with_letter(rt.alloc(), line, column as usize)?;
    let longer = with_line(rt.alloc(), text, 5, 1, &line)?;
    let before = View {
        text,
        top: 0,
        cursor: Position { row: 5, column },
        mode: Mode::Insert,
    };
    let after = View {
        text: &longer,
        cursor: Position {
            row: 5,
            column: column.saturating_add(1),
        },
        ..before
    };
    print_change(rt, name, &before, &after)
}

pub fn letter_at_end(rt: &HostRuntime, text: &[Vec<u8>]) -> anyhow::Result<()> {
    letter(rt, "a letter typed at the end of a line", text, 40)
}

pub fn letter_inside(rt: &HostRuntime, text: &[Vec<u8>]) -> anyhow::Result<()> {
    letter(rt, "a letter typed in the middle of a line of 40", text, 20)
}

pub fn join(rt: &HostRuntime, text: &[Vec<u8>]) -> anyhow::Result<()> {
    let upper = text.get(11).context("no line")?;
    let lower = text.get(12).context("no line")?;
    let line = [upper.as_slice(), b" ".as_slice(), lower.as_slice()].concat(rt.alloc())?;
    let joined = with_line(rt.alloc(), text, 11, 2, &line)?;
    let before = View {
        text,
        top: 0,
        cursor: Position { row: 11, column: 3 },
        mode: Mode::Normal,
    };
    let after = View {
        text: &joined,
        cursor: Position {
            row: 11,
            column: 40,
        },
        ..before
    };
    print_change(
        rt,
        "two lines joined in the middle of the screen",
        &before,
        &after,
    )
}

pub fn step(rt: &HostRuntime, text: &[Vec<u8>]) -> anyhow::Result<()> {
    let before = View {
        text,
        top: 0,
        cursor: Position { row: 5, column: 10 },
        mode: Mode::Normal,
    };
    let after = View {
        cursor: Position { row: 6, column: 10 },
        ..before
    };
    print_change(rt, "a step down", &before, &after)
}

fn scroll(rt: &HostRuntime, name: &str, text: &[Vec<u8>]) -> anyhow::Result<()> {
    let before = View {
        text,
        top: 0,
        cursor: Position {
            row: 22,
            column: 10,
        },
        mode: Mode::Normal,
    };
    let after = View { top: 1, ..before };
    print_change(rt, name, &before, &after)
}

pub fn step_and_scroll(rt: &HostRuntime, text: &[Vec<u8>]) -> anyhow::Result<()> {
    scroll(rt, "a step down that scrolls", text)
}

pub fn scroll_full_rows(rt: &HostRuntime, text: &[Vec<u8>]) -> anyhow::Result<()> {
    scroll(
        rt,
        "a step down that scrolls lines as wide as the screen",
        text,
    )
}
