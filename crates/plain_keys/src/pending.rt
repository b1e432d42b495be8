//! A command as far as it is typed, and what the next key makes of it.
use crate::count::Count;
use crate::keys::{Awaiting, ESCAPE, Key, Opening, Operator, Side};
use crate::motion::Motion;

#[derive(Clone, Copy)]
pub enum Pending {
    // a count, perhaps none
    Counting(Count),
    // an operator, the count before it and the count behind it
    Operating(Operator, Count, Count),
    // a key that waits, perhaps behind an operator, and the count in all
    Waiting(Awaiting, Option<Operator>, Count),
}

#[derive(Clone, Copy)]
pub enum Command {
    Move(Motion, Count),
    Operate(Operator, Motion, Count),
    OperateLines(Operator, Count),
    Replace(u8, Count),
    Join(Count),
    Put(Side, Count),
    Insert(Opening),
    Undo(Count),
    Redo(Count),
}

#[derive(Clone, Copy)]
pub enum Next {
    More(Pending),
    Run(Command),
    Repeat(Count),
    Cancel,
}

impl Pending {
    pub fn nothing() -> Pending {
        Pending::Counting(Count::none())
    }

    pub fn is_nothing(self) -> bool {
        matches!(self, Pending::Counting(count) if !count.has_begun())
    }

    pub fn next(self, byte: u8) -> Next {
        match self {
            Pending::Counting(count) => after_count(count, Key::from(byte)),
            Pending::Operating(operator, before, behind) => after_operator(
                operator,
                before,
                behind,
                Key::from(byte),
            ),
            Pending::Waiting(awaiting, operator, count) => after_wait(
                awaiting, operator, count, byte,
            ),
        }
    }
}

fn after_count(count: Count, key: Key) -> Next {
    match key {
        Key::Digit(digit) => Next::More(Pending::Counting(count.with_digit(digit))),
        Key::Zero if count.has_begun() => Next::More(Pending::Counting(count.with_digit(0))),
        Key::Zero => Next::Run(Command::Move(Motion::LineStart, count)),
        Key::Motion(motion) => Next::Run(Command::Move(motion, count)),
        Key::Operator(operator) => Next::More(Pending::Operating(operator, count, Count::none())),
        Key::Await(awaiting) => Next::More(Pending::Waiting(awaiting, None, count)),
        Key::DeleteBytes => Next::Run(Command::Operate(Operator::Delete, Motion::Right, count)),
        Key::Join => Next::Run(Command::Join(count)),
        Key::Put(side) => Next::Run(Command::Put(side, count)),
        Key::Insert(opening) => Next::Run(Command::Insert(opening)),
        Key::Undo => Next::Run(Command::Undo(count)),
        Key::Redo => Next::Run(Command::Redo(count)),
        Key::Repeat => Next::Repeat(count),
        Key::Cancel => Next::Cancel,
    }
}

fn after_operator(operator: Operator, before: Count, behind: Count, key: Key) -> Next {
    let count = before.combined(behind);
    match key {
        Key::Digit(digit) => Next::More(Pending::Operating(
            operator,
            before,
            behind.with_digit(digit),
        )),
        Key::Zero if behind.has_begun() => Next::More(Pending::Operating(
            operator,
            before,
            behind.with_digit(0),
        )),
        Key::Zero => Next::Run(Command::Operate(operator, Motion::LineStart, count)),
        Key::Motion(motion) => Next::Run(Command::Operate(operator, motion, count)),
        Key::Operator(same) if same == operator => Next::Run(Command::OperateLines(
            operator, count,
        )),
        Key::Await(Awaiting::Replace) => Next::Cancel,
        Key::Await(awaiting) => Next::More(Pending::Waiting(awaiting, Some(operator), count)),
        _ => Next::Cancel,
    }
}

fn after_wait(awaiting: Awaiting, operator: Option<Operator>, count: Count, byte: u8) -> Next {
    let motion = match (awaiting, byte) {
        (_, ESCAPE) => return Next::Cancel,
        (Awaiting::Goto, b'g') => Motion::ToFirstLine,
        (Awaiting::Goto, _) => return Next::Cancel,
        (Awaiting::Find, _) => Motion::Find(byte),
        (Awaiting::Till, _) => Motion::Till(byte),
        (Awaiting::Replace, _) => return Next::Run(Command::Replace(byte, count)),
    };
    match operator {
        Some(operator) => Next::Run(Command::Operate(operator, motion, count)),
        None => Next::Run(Command::Move(motion, count)),
    }
}
