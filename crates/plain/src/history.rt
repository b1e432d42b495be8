//! The commands that can be undone and redone, each with a whole text.
use crate::buffer::Buffer;
use std::alloc::{AllocError, Global};

#[derive(Drop)]
pub struct UndoUnit {
    // the text on the other side of the command: before it while it can be undone, else behind it
    pub text: Vec<u8>,
    // where the cursor was at the beginning of the command
    pub began: usize,
    // where its last change was made
    pub changed: usize,
}

#[derive(Drop)]
pub struct History {
    undo: Vec<UndoUnit>,
    redo: Vec<UndoUnit>,
}

impl History {
    pub fn new(heap: Global) -> History {
        History {
            undo: Vec::new(heap),
            redo: Vec::new(heap),
        }
    }

    // A new change forgets what could be redone.
    pub fn record(&mut self, unit: UndoUnit) -> Result<(), AllocError> {
        self.redo.clear();
        self.undo.push(unit)?;
        Ok(())
    }

    // Undoes a command, and gives the place where it began.
    pub fn undo(&mut self, buffer: &mut Buffer) -> Result<Option<usize>, AllocError> {
        exchange(buffer, &mut self.undo, &mut self.redo, |unit| unit.began)
    }

    // Does an undone command again, and gives the place of its last change.
    pub fn redo(&mut self, buffer: &mut Buffer) -> Result<Option<usize>, AllocError> {
        exchange(buffer, &mut self.redo, &mut self.undo, |unit| unit.changed)
    }
}

// Exchanges the text with the one of the last unit, which can then be done the other way.
fn exchange<F: FnOnce(&UndoUnit) -> usize>(
    buffer: &mut Buffer,
    from: &mut Vec<UndoUnit>,
    to: &mut Vec<UndoUnit>,
    place: F,
) -> Result<Option<usize>, AllocError>
    requires { F.IsAlwaysCallable place }
{
    let Some(mut unit) = from.pop() else {
        return Ok(None);
    };
    let place = place(&unit);
    buffer.exchange(&mut unit.text);
    to.push(unit)?;
    Ok(Some(place))
}
