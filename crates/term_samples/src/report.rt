//! What is printed of a change: both pictures, what paints the first, what leads to the second, and the bound.
use crate::view::{COLUMNS, SIZE, View};
use pictures::{Snapshot, bound, draw, paint};
use std::alloc::Global;

/// More than a screen may cost.
const ROOM: usize = 4_096;

fn print_picture(rt: &HostRuntime, name: &str, view: &View, cells: &[u8]) -> anyhow::Result<()> {
    let row = view.cursor.row.saturating_add(1);
    let column = view.cursor.column.saturating_add(1);
    println!(rt; "{name} {row},{column}")?;
    for cells in cells.chunks(COLUMNS) {
        let text = String::from_utf8_lossy(rt.alloc(), cells)?;
        println!(rt; "|{text}|")?;
    }
    Ok(())
}

/// What paints a picture, in hexadecimal.
fn painting(heap: Global, shot: Snapshot) -> anyhow::Result<String> {
    let mut out = vec![in heap; 0u8; ROOM]?;
    let mut new = [0; COLUMNS];
    let n = paint(SIZE, shot, &mut new, &mut out)?;
    Ok(hex::encode(heap, &out[..n])?)
}

/// What leads from one picture to another, in hexadecimal, and how many bytes that is.
fn drawing<'a>(
    heap: Global,
    before: Snapshot<'a>,
    after: Snapshot<'a>,
) -> anyhow::Result<(String, usize)> {
    let mut out = vec![in heap; 0u8; ROOM]?;
    let mut old = [0; COLUMNS];
    let mut new = [0; COLUMNS];
    let n = draw(SIZE, before, after, &mut old, &mut new, &mut out)?;
    Ok((hex::encode(heap, &out[..n])?, n))
}

pub fn print_change(
    rt: &HostRuntime,
    name: &str,
    before: &View,
    after: &View,
) -> anyhow::Result<()> {
    let heap = rt.alloc();
    let old = before.cells(heap)?;
    let new = after.cells(heap)?;
    println!(rt; "== {name}")?;
    print_picture(rt, "before", before, &old)?;
    print_picture(rt, "after", after, &new)?;
    let first = before.shot(&old);
    let last = after.shot(&new);
    let paint = painting(heap, first)?;
    let (draw, n) = drawing(heap, first, last)?;
    let most = bound(SIZE, first, last)?;
    println!(rt; "paint {paint}\ndraw {draw}\nbytes {n} of {most}")?;
    Ok(())
}
