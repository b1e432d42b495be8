//! What bytes ask of a terminal: to write, to move the cursor, or to clear the rest of a row.
ghost use Rattle.std.specs.Prelude.{◌≡◌, ◌-◌, ◌<◌, ◌≤◌, max, length, IfSome};

use plain_lines::Position;

// Kept: `plain_keys` names this byte as a key; sharing it would make the terminal depend on the keys for one constant.
const ESCAPE: u8 = 0x1b;

// Numbers stop here.
const MOST: usize = 9_999;

#[derive(Clone, Copy)]
pub enum Action {
    Write(u8),
    Move(Position),
    ClearRest,
    Nothing,
}

// The digits at the beginning as a number, 0 if there are none, and what is behind them.
fn read_number(bytes: &[u8]) -> (usize, &[u8])
    ensures most { result.0 ≤ 9999 }
    ensures rest { length result.1.now ≤ length bytes.now }
{
    let mut number = 0;
    let mut rest = bytes;
    while let [digit @ b'0'..=b'9', behind @ ..] = rest {
        number = (number * 10 + (*digit - b'0') as usize).min(MOST);
        rest = behind;
    }
    (number, rest)
}

// The position of a row and a column that are sent: counted from 1, and 0 is as 1.
fn sent_position(row: usize, column: usize) -> Position
    ensures row { result.row ≡ max row 1 - 1 }
    ensures column { result.column ≡ max column 1 - 1 }
{
    Position {
        row: row.max(1) - 1,
        column: column.max(1) - 1,
    }
}

// What a control sequence asks, from behind its bracket; none while it has no end.
fn read_control(bytes: &[u8]) -> Option<(Action, &[u8])>
    ensures { IfSome result (λ p. length p.1.now < length bytes.now) }
{
    let (row, rest) = read_number(bytes);
    let (column, rest) = match rest {
        [b';', second @ ..] => read_number(second),
        _ => (0, rest),
    };
    match rest {
        [] => None,
        [b'H', behind @ ..] => Some((Action::Move(sent_position(row, column)), behind)),
        [b'K', behind @ ..] => Some((Action::ClearRest, behind)),
        [_, behind @ ..] => Some((Action::Nothing, behind)),
    }
}

// What the first bytes ask, and those behind; none at the end, or while a sequence has no end.
pub fn read_action(bytes: &[u8]) -> Option<(Action, &[u8])>
    ensures { IfSome result (λ p. length p.1.now < length bytes.now) }
{
    match bytes {
        [] | [ESCAPE] => None,
        [ESCAPE, b'[', control @ ..] => read_control(control),
        [ESCAPE, _, behind @ ..] => Some((Action::Nothing, behind)),
        [byte @ 32..=126, behind @ ..] => Some((Action::Write(*byte), behind)),
        [_, behind @ ..] => Some((Action::Nothing, behind)),
    }
}
