//! What a byte means as a key where a command is typed.
use crate::motion::Motion;

pub const ESCAPE: u8 = 0x1b;

#[derive(Clone, Copy, PartialEq, Eq)]
pub enum Operator {
    Delete,
    Yank,
    Change,
}

// Where inserting begins.
#[derive(Clone, Copy)]
pub enum Opening {
    Before,
    Behind,
    FirstNonblank,
    LineEnd,
    LineBelow,
    LineAbove,
}

#[derive(Clone, Copy)]
pub enum Side {
    Before,
    Behind,
}

// A key that waits for another one.
#[derive(Clone, Copy)]
pub enum Awaiting {
    Goto,
    Find,
    Till,
    Replace,
}

#[derive(Clone, Copy)]
pub enum Key {
    // 1 to 9
    Digit(u8),
    // a digit of a count that has begun, or else a motion
    Zero,
    Motion(Motion),
    Operator(Operator),
    Await(Awaiting),
    DeleteBytes,
    Join,
    Put(Side),
    Insert(Opening),
    Undo,
    Redo,
    Repeat,
    // escape, and what is no key
    Cancel,
}

impl From<u8> for Key {
    fn from(byte: u8) -> Key {
        match byte {
            b'1'..=b'9' => Key::Digit(byte - b'0'),
            b'0' => Key::Zero,
            b'h' => Key::Motion(Motion::Left),
            b'l' => Key::Motion(Motion::Right),
            b'j' => Key::Motion(Motion::Down),
            b'k' => Key::Motion(Motion::Up),
            b'^' => Key::Motion(Motion::FirstNonblank),
            b'$' => Key::Motion(Motion::LineEnd),
            b'w' => Key::Motion(Motion::WordForward),
            b'b' => Key::Motion(Motion::WordBack),
            b'e' => Key::Motion(Motion::WordEnd),
            b'G' => Key::Motion(Motion::ToLine),
            b'd' => Key::Operator(Operator::Delete),
            b'y' => Key::Operator(Operator::Yank),
            b'c' => Key::Operator(Operator::Change),
            b'g' => Key::Await(Awaiting::Goto),
            b'f' => Key::Await(Awaiting::Find),
            b't' => Key::Await(Awaiting::Till),
            b'r' => Key::Await(Awaiting::Replace),
            b'x' => Key::DeleteBytes,
            b'J' => Key::Join,
            b'p' => Key::Put(Side::Behind),
            b'P' => Key::Put(Side::Before),
            b'i' => Key::Insert(Opening::Before),
            b'a' => Key::Insert(Opening::Behind),
            b'I' => Key::Insert(Opening::FirstNonblank),
            b'A' => Key::Insert(Opening::LineEnd),
            b'o' => Key::Insert(Opening::LineBelow),
            b'O' => Key::Insert(Opening::LineAbove),
            b'u' => Key::Undo,
            0x12 => Key::Redo,
            b'.' => Key::Repeat,
            _ => Key::Cancel,
        }
    }
}
