//! What each command does. One that can't be done returns with nothing changed.
use crate::buffer::Buffer;
use crate::editor::Editor;
use crate::history::History;
use plain_keys::{Command, Count, Motion, Shape, Side, destination, lines_from, taken_by};
use std::alloc::{AllocError, Global};

// Lines as they are put above a line, or below one.
fn with_line_end(heap: Global, lines: &[u8], side: Side) -> Result<Vec<u8>, AllocError> {
    let line_end = b"\n".as_slice();
    match side {
        Side::Before => [lines, line_end].concat(heap),
        Side::Behind => [line_end, lines].concat(heap),
    }
}

impl Editor {
    pub(crate) fn run(&mut self, command: Command) -> Result<(), AllocError> {
        match command {
            Command::Move(motion, count) => {
                self.go(motion, count);
                Ok(())
            }
            Command::Operate(operator, motion, count) => {
                let taken = taken_by(self.buffer.here(), motion, count);
                self.operate(operator, taken)
            }
            Command::OperateLines(operator, count) => {
                let taken = lines_from(self.buffer.here(), count);
                self.operate(operator, taken)
            }
            Command::Replace(byte, count) => self.replace_here(byte, count),
            Command::Join(count) => self.join(count),
            Command::Put(side, count) => match self.register.shape {
                Shape::Bytes => self.put_bytes(side, count),
                Shape::Lines => self.put_lines(side, count),
            },
            Command::Insert(opening) => self.begin_inserting(opening),
            Command::Undo(count) => self.travel(count, History::undo),
            Command::Redo(count) => self.travel(count, History::redo),
        }
    }

    fn go(&mut self, motion: Motion, count: Count) {
        let Some(place) = destination(self.buffer.here(), self.column, motion, count) else {
            return;
        };
        let place = place.at;
        match motion {
            Motion::Down | Motion::Up => self.buffer.move_to(place),
            _ => self.stand(place),
        }
    }

    fn replace_here(&mut self, byte: u8, count: Count) -> Result<(), AllocError> {
        let times = count.times();
        let here = self.buffer.here();
        let at = here.at;
        if times > here.line_end().at - at || byte < b' ' || byte == 127 {
            return Ok(());
        }
        let new = vec![in self.heap; byte; times]?;
        self.replace(at, at + times, new.as_slice())?;
        self.stand((at + times).saturating_sub(1));
        Ok(())
    }

    fn join(&mut self, count: Count) -> Result<(), AllocError> {
        for _ in 1..count.times().max(2) {
            let end = self.buffer.here().line_end();
            let Some(next) = end.next_line() else {
                break;
            };
            let end = end.at;
            let next = next.past_blanks().at;
            self.replace(end, next, b" ")?;
            self.stand(end);
        }
        Ok(())
    }

    fn put_bytes(&mut self, side: Side, count: Count) -> Result<(), AllocError> {
        let here = self.buffer.here();
        let place = match side {
            Side::Before => here.at,
            Side::Behind => here.right(1).at,
        };
        let new = self.register.bytes.repeat(self.heap, count.times())?;
        if !new.is_empty() {
            self.replace(place, place, new.as_slice())?;
            self.stand(place.saturating_add(new.len() - 1));
        }
        Ok(())
    }

    fn put_lines(&mut self, side: Side, count: Count) -> Result<(), AllocError> {
        let once = with_line_end(self.heap, self.register.bytes.as_slice(), side)?;
        let new = once.repeat(self.heap, count.times())?;
        let here = self.buffer.here();
        let (place, first) = match side {
            Side::Before => {
                let start = here.line_start().at;
                (start, start)
            }
            Side::Behind => {
                let end = here.line_end().at;
                (end, end.saturating_add(1))
            }
        };
        self.replace(place, place, new.as_slice())?;
        self.stand_on_nonblank(first);
        Ok(())
    }

    // Through the history, so many steps or as many as there are.
    fn travel<F: Fn(&mut History, &mut Buffer) -> Result<Option<usize>, AllocError>>(
        &mut self,
        count: Count,
        step: F,
    ) -> Result<(), AllocError>
        requires { F.IsAlwaysCallable step }
    {
        for _ in 0..count.times() {
            let Some(place) = step(&mut self.history, &mut self.buffer)? else {
                break;
            };
            self.stand(place);
        }
        Ok(())
    }
}
