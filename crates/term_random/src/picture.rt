//! A picture that changes.
use dice::Dice;
use pictures::{Position, Size, Snapshot};
use std::alloc::{AllocError, Global};

#[derive(Drop)]
pub struct Cells {
    pub bytes: Vec<u8>,
    pub cursor: Position,
}

/// Printable bytes, most of them blanks, so that rows often end in some.
fn cell(dice: &mut Dice) -> u8 {
    if dice.below(3) > 0 {
        b' '
    } else {
        dice.below(95) as u8 + b' '
    }
}

fn place(dice: &mut Dice, size: Size) -> Position {
    let row = dice.below(size.rows.max(1).into()) as u16;
    let column = dice.below(size.columns.max(1).into()) as u16;
    Position { row, column }
}

/// What is written anew.
#[derive(Clone, Copy)]
enum Part {
    Nothing,
    Cell,
    /// It is made blank.
    RowEnd,
    Row,
    /// Every third cell of the screen.
    Scattered,
}

impl Part {
    fn random(dice: &mut Dice) -> Part {
        match dice.below(5) {
            1 => Part::Cell,
            2 => Part::RowEnd,
            3 => Part::Row,
            4 => Part::Scattered,
            _ => Part::Nothing,
        }
    }

    /// The cell `here`, where the part begins at `at`.
    fn changed(self, dice: &mut Dice, at: Position, here: Position, old: u8) -> u8 {
        match self {
            Part::Cell if here == at => cell(dice),
            Part::RowEnd if here.row == at.row && here.column >= at.column => b' ',
            Part::Row if here.row == at.row => cell(dice),
            Part::Scattered if dice.below(3) == 0 => cell(dice),
            _ => old,
        }
    }
}

impl Cells {
    pub fn random(heap: Global, dice: &mut Dice, size: Size) -> Result<Cells, AllocError> {
        let count = usize::from(size.rows) * usize::from(size.columns);
        let bytes = (0..count).map(|_| cell(dice)).collect(heap)?;
        Ok(Cells {
            bytes,
            cursor: place(dice, size),
        })
    }

    pub fn shot(&self) -> Snapshot {
        Snapshot {
            cells: self.bytes.as_slice(),
            cursor: self.cursor,
        }
    }

    pub fn next(&self, heap: Global, dice: &mut Dice, size: Size) -> Result<Cells, AllocError> {
        let part = Part::random(dice);
        let at = place(dice, size);
        let columns = size.columns.max(1) as usize;
        let mut bytes = Vec::new(heap);
        for (row, cells) in (0..size.rows).zip(self.bytes.chunks(columns)) {
            for (column, old) in (0..size.columns).zip(cells) {
                bytes.push(part.changed(dice, at, Position { row, column }, *old))?;
            }
        }
        let cursor = if dice.below(3) == 0 {
            self.cursor
        } else {
            place(dice, size)
        };
        Ok(Cells { bytes, cursor })
    }
}
