//! Worked keys on a text of five lines, the last of them empty.
use crate::played::{check_painting, played};
use plain::Position;
use std::test::Fail;

const TEXT: &[u8] = b"the quick brown fox\n  jumps over\n\nthe lazy dog_1, 42\n";

// Keys, the text behind them, and where the cursor then is.
const CASES: [(&[u8], &[u8], usize); 22] = [
    (b"3w", TEXT, 16),
    (b"G", TEXT, 53),
    (b"2G", TEXT, 22),
    (b"jj0b", TEXT, 28),
    (b"$b", TEXT, 16),
    (b"je", TEXT, 26),
    (
        b"ddp",
        b"  jumps over\nthe quick brown fox\n\nthe lazy dog_1, 42\n",
        13,
    ),
    (b"5dd", b"", 0),
    (
        b"5ddP",
        b"the quick brown fox\n  jumps over\n\nthe lazy dog_1, 42\n\n",
        0,
    ),
    (
        b"Gdd",
        b"the quick brown fox\n  jumps over\n\nthe lazy dog_1, 42",
        34,
    ),
    (b"dk", TEXT, 0),
    (
        b"cwslow\x1bw.",
        b"slowquick slowfox\n  jumps over\n\nthe lazy dog_1, 42\n",
        13,
    ),
    (
        b"cwslow\x1bw.u",
        b"slowquick brown fox\n  jumps over\n\nthe lazy dog_1, 42\n",
        10,
    ),
    (b"cwslow\x1bw.uu", TEXT, 0),
    (
        b"dwjj.",
        b"quick brown fox\n  jumps over\nthe lazy dog_1, 42\n",
        29,
    ),
    (
        b"2jdw",
        b"the quick brown fox\n  jumps over\nthe lazy dog_1, 42\n",
        33,
    ),
    (b"25rZ", TEXT, 0),
    (
        b"3rZ",
        b"ZZZ quick brown fox\n  jumps over\n\nthe lazy dog_1, 42\n",
        2,
    ),
    (
        b"3J",
        b"the quick brown fox jumps over \nthe lazy dog_1, 42\n",
        30,
    ),
    (
        b"ohello\x1bu\x12",
        b"the quick brown fox\nhello\n  jumps over\n\nthe lazy dog_1, 42\n",
        24,
    ),
    (
        b"xxuux",
        b"he quick brown fox\n  jumps over\n\nthe lazy dog_1, 42\n",
        0,
    ),
    (
        b"xxuux\x12",
        b"he quick brown fox\n  jumps over\n\nthe lazy dog_1, 42\n",
        0,
    ),
];

#[test]
fn keys(rt: HostRuntime) -> Result<(), Fail> {
    for (keys, text, place) in CASES {
        let editor = played(&rt, TEXT, 8, 12, keys)?;
        assert_eq!(rt; editor.text(), text);
        assert_eq!(rt; editor.cursor(), place);
        check_painting(&rt, &editor)?;
    }
    Ok(())
}

const ROWS: [&[u8]; 5] = [
    b"ick brown fo",
    b"s over      ",
    b"            ",
    b"zy dog_1, 42",
    b"N 4,18      ",
];

#[test]
fn screen(rt: HostRuntime) -> Result<(), Fail> {
    let editor = played(&rt, TEXT, 5, 12, b"jjj$")?;
    for (row, cells) in ROWS.iter().enumerate() {
        assert_eq!(rt; editor.row(row)?.as_slice(), *cells);
    }
    assert_eq!(rt; editor.screen_cursor(), Position { row: 3, column: 11 });
    Ok(())
}
