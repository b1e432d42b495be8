//! Screens of a few cells.
use crate::shots::{at_home, shot};
use pictures::{Size, Snapshot, bound, draw, paint};
use std::process::Abort;
use std::test::Fail;

/// Draws one picture of 8 columns over another, and holds what is sent to the bytes that are expected.
fn sends(
    rt: &impl Abort,
    rows: u16,
    before: Snapshot,
    after: Snapshot,
    expected: &[u8],
) -> Result<(), Fail> {
    let size = Size { rows, columns: 8 };
    let mut out = [0; 200];
    let n = draw(size, before, after, &mut [0; 8], &mut [0; 8], &mut out)?;
    assert_eq!(rt; &out[..n], expected);
    Ok(())
}

#[test]
fn nothing_for_equal_pictures(rt: HostRuntime) -> Result<(), Fail> {
    let shot = at_home(b"ab      N 1,1   ");
    sends(&rt, 2, shot, shot, b"")
}

#[test]
fn only_the_cursor(rt: HostRuntime) -> Result<(), Fail> {
    let before = at_home(b"ab      N       ");
    let after = shot(b"ab      N       ", 1);
    sends(&rt, 2, before, after, b"\x1b[;2H")
}

#[test]
fn status_row_first_and_no_last_move(rt: HostRuntime) -> Result<(), Fail> {
    let before = shot(b"a       I 1,2   ", 1);
    let after = shot(b"ab      I 1,3   ", 2);
    sends(&rt, 2, before, after, b"\x1b[2;5H3\x1b[;2Hb")
}

#[test]
fn last_move_behind_a_full_row(rt: HostRuntime) -> Result<(), Fail> {
    let before = shot(b"abcdefg I       ", 7);
    let after = shot(b"abcdefghI       ", 7);
    sends(&rt, 2, before, after, b"h\x1b[;8H")
}

#[test]
fn cleared_where_that_is_shorter(rt: HostRuntime) -> Result<(), Fail> {
    let before = at_home(b"abcdefghabcd    N       ");
    let after = at_home(b"ax      ab      N       ");
    sends(&rt, 3, before, after, b"\x1b[2;3H  \x1b[;2Hx\x1b[K\x1b[H")
}

#[test]
fn painted(rt: HostRuntime) -> Result<(), Fail> {
    let size = Size {
        rows: 2,
        columns: 8,
    };
    let mut out = [0; 200];
    let n = paint(size, shot(b"ab      N 1,2   ", 1), &mut [0; 8], &mut out)?;
    assert_eq!(rt;
        &out[..n],
        b"\x18\x1b[Hab\x1b[K\x1b[2HN 1,2   \x1b[;2H".as_slice()
    );
    Ok(())
}

#[test]
fn bound_of_one_row(rt: HostRuntime) -> Result<(), Fail> {
    let size = Size {
        rows: 2,
        columns: 8,
    };
    let before = at_home(b"ab      N       ");
    let after = at_home(b"abc     N       ");
    assert_eq!(rt; bound(size, before, after)?, 32 + 16 + 8);
    Ok(())
}
