//! What is refused, and how it is said.
use crate::refusal::Refusal;
use crate::words::{Words, screen_size};
use std::process::Abort;
use std::test::Fail;

const USAGE: &str = "play TEXT KEYS";

fn check_refused<T: Drop>(
    rt: &(impl Abort + AllocGlobal),
    res: Result<T, Refusal>,
    said: &str,
) -> Result<(), Fail> {
    match res {
        Ok(_) => Err(Fail::new("not refused")),
        Err(refusal) => {
            assert_eq!(rt; refusal.to_string(rt.alloc())?.as_str(), said);
            Ok(())
        },
    }
}

// Rows, columns, and what is said of them.
const SIZES: [(&str, &str, &str); 6] = [
    ("1", "80", "ROWS is a number from 2 to 9999"),
    ("10000", "80", "ROWS is a number from 2 to 9999"),
    ("-24", "80", "ROWS is a number from 2 to 9999"),
    ("24", "0", "COLS is a number from 1 to 9999"),
    ("24", "10000", "COLS is a number from 1 to 9999"),
    ("24", "", "COLS is a number from 1 to 9999"),
];

#[test]
fn refusals(rt: HostRuntime) -> Result<(), Fail> {
    assert!(rt; screen_size("2", "1").is_ok());
    assert!(rt; screen_size("9999", "9999").is_ok());
    for (rows, columns, said) in SIZES {
        check_refused(&rt, screen_size(rows, columns), said)?;
    }
    let mut words = Words::new(Vec::new(rt.alloc()), USAGE);
    assert!(rt; words.end().is_ok());
    check_refused(&rt, words.take(), "usage: play TEXT KEYS")
}
