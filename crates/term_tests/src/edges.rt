//! The smallest and the largest screens.
ghost use Rattle.std.specs.Prelude.{◌≤◌, length, IfOk};

use crate::shots::at_home;
use pictures::{Fault, Size, draw};
use std::alloc::Global;
use std::test::Fail;

const SMALLEST: Size = Size {
    rows: 2,
    columns: 1,
};

const TALLEST: Size = Size {
    rows: 9999,
    columns: 1,
};

const WIDEST: Size = Size {
    rows: 2,
    columns: 9999,
};

const NO_COLUMNS: Size = Size {
    rows: 2,
    columns: 0,
};

#[test]
fn two_rows_of_one_column(rt: HostRuntime) -> Result<(), Fail> {
    let mut out = [0; 80];
    let n = draw(
        SMALLEST,
        at_home(b"aN"),
        at_home(b"bI"),
        &mut [0],
        &mut [0],
        &mut out,
    )?;
    assert_eq!(rt; &out[..n], b"\x1b[2HI\x1b[Hb\x1b[H".as_slice());
    Ok(())
}

/// Blank cells, and the same with an x in the last one.
fn corner(heap: Global, size: Size, out: &mut [u8]) -> Result<usize, Fail>
    ensures { IfOk result (λ n. n ≤ length out.old) }
{
    let count = size.rows as usize * size.columns as usize;
    let columns = size.columns as usize;
    let blank = vec![in heap; b' '; count]?;
    let mut marked = blank.clone()?;
    if let Some(cell) = marked.last_mut() {
        *cell = b'x';
    }
    let mut old = vec![in heap; 0; columns]?;
    let mut new = vec![in heap; 0; columns]?;
    Ok(draw(
        size,
        at_home(&blank),
        at_home(&marked),
        &mut old,
        &mut new,
        out,
    )?)
}

#[test]
fn most_rows(rt: HostRuntime) -> Result<(), Fail> {
    let mut out = [0; 80];
    let n = corner(rt.alloc(), TALLEST, &mut out)?;
    assert_eq!(rt; &out[..n], b"\x1b[9999Hx\x1b[H".as_slice());
    Ok(())
}

#[test]
fn most_columns(rt: HostRuntime) -> Result<(), Fail> {
    let mut out = vec![in rt.alloc(); 0; 10_047]?;
    let n = corner(rt.alloc(), WIDEST, &mut out)?;
    assert_eq!(rt; &out[..n], b"\x1b[2;9999Hx\x1b[H".as_slice());
    Ok(())
}

#[test]
fn refused_for_want_of_room(rt: HostRuntime) {
    let r = draw(
        SMALLEST,
        at_home(b"aN"),
        at_home(b"bN"),
        &mut [0],
        &mut [0],
        &mut [0; 16],
    );
    assert_eq!(rt; r, Err(Fault::NoRoom));
}

#[test]
fn no_picture_without_cells(rt: HostRuntime) {
    let shot = at_home(b"");
    let r = draw(NO_COLUMNS, shot, shot, &mut [], &mut [], &mut []);
    assert_eq!(rt; r, Err(Fault::NoPicture));
}
