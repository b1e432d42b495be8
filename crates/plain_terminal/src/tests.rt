//! The terminal's rules.
use crate::terminal::Terminal;
use plain_lines::{Position, Size};
use std::test::Fail;

// What is sent to two rows of five dots, what they then show, and where the cursor is.
const CASES: [(&[u8], &[u8], &[u8], usize, usize); 24] = [
    (b"abc", b"abc..", b".....", 0, 3),
    // behind the row bytes are lost
    (b"abcdefg", b"abcde", b".....", 0, 5),
    // counted from 1, at most to the last
    (b"\x1b[2;3Hx", b".....", b"..x..", 1, 3),
    (b"\x1b[9;9Hx", b".....", b"....x", 1, 5),
    // a number left out is 1, and so is 0
    (b"\x1b[2;5H\x1b[Hx", b"x....", b".....", 0, 1),
    (b"\x1b[2Hx", b".....", b"x....", 1, 1),
    (b"\x1b[;4Hx", b"...x.", b".....", 0, 4),
    (b"\x1b[2;Hx", b".....", b"x....", 1, 1),
    (b"\x1b[0;0Hx", b"x....", b".....", 0, 1),
    // numbers stop at 9,999
    (b"\x1b[18446744073709551617;2Hx", b".....", b".x...", 1, 2),
    // the rest of the row, and with any number
    (b"\x1b[1;3H\x1b[K", b"..   ", b".....", 0, 2),
    (b"\x1b[2;4H\x1b[5K", b".....", b"...  ", 1, 3),
    (b"\x1b[1;2H\x1b[7;7K", b".    ", b".....", 0, 1),
    (b"abcde\x1b[K", b"abcde", b".....", 0, 5),
    // bytes that do nothing
    (b"a\tb\r\n\x00\x7f\xffc", b"abc..", b".....", 0, 3),
    // what does not fit ends a sequence, and is swallowed
    (b"\x1bxa", b"a....", b".....", 0, 1),
    (b"\x1b[2xa", b"a....", b".....", 0, 1),
    (b"\x1b[1;2;3Ha", b"3Ha..", b".....", 0, 3),
    (b"\x1b[2;4\x18a", b"a....", b".....", 0, 1),
    // escape in a sequence ends it, and begins none
    (b"\x1b\x1b[Ka", b"[Ka..", b".....", 0, 3),
    (b"\x1b[2\x1b[Ka", b"[Ka..", b".....", 0, 3),
    // a sequence that has no end yet does nothing
    (b"a\x1b", b"a....", b".....", 0, 1),
    (b"a\x1b[", b"a....", b".....", 0, 1),
    (b"a\x1b[2;2", b"a....", b".....", 0, 1),
];

// Sends bytes in two parts.
fn sent(rt: &HostRuntime, size: Size, bytes: &[u8], cut: usize) -> Result<Terminal, Fail> {
    let mut terminal = Terminal::new(rt.alloc(), size, b'.')?;
    let cut = cut.min(bytes.len());
    terminal.feed(&bytes[0..cut])?;
    terminal.feed(&bytes[cut..])?;
    Ok(terminal)
}

#[test]
fn rules(rt: HostRuntime) -> Result<(), Fail> {
    let size = Size::new(2, 5).ok_or("no size")?;
    for (bytes, first, second, row, column) in CASES {
        for cut in 0..bytes.len() {
            let terminal = sent(&rt, size, bytes, cut)?;
            assert_eq!(rt; terminal.row(0), Some(first));
            assert_eq!(rt; terminal.row(1), Some(second));
            assert_eq!(rt; terminal.cursor(), Position { row, column });
        }
    }
    Ok(())
}
