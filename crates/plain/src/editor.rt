//! The editor: one key after the other, each command with its undo unit.
ghost use Rattle.std.specs.Prelude.{◌≡◌, ◌≤◌, length, vec_len};

use crate::buffer::Buffer;
use crate::history::{History, UndoUnit};
use plain_keys::{Next, Pending, Shape};
use plain_lines::{Size, Window};
use std::alloc::{AllocError, Global};
use std::{fmt, mem};

// Kept: `term_samples` has modes of its own, but the second editor shares no code with the first.
#[derive(Clone, Copy)]
pub enum Mode {
    // with the command as far as it is typed
    Normal(Pending),
    Inserting,
}

impl Mode {
    // Where no key of a command was typed yet.
    pub fn at_rest() -> Mode {
        Mode::Normal(Pending::nothing())
    }

    fn is_at_rest(self) -> bool {
        matches!(self, Mode::Normal(pending) if pending.is_nothing())
    }
}

impl fmt::Display for Mode {
    fn fmt<W: fmt::Write>(&self, f: &mut fmt::Formatter<W>) -> fmt::Result {
        match self {
            Mode::Normal(_) => write!(f, "N"),
            Mode::Inserting => write!(f, "I"),
        }
    }
}

// What was last taken. Lines have no line end behind the last one.
#[derive(Drop)]
pub struct Register {
    pub bytes: Vec<u8>,
    pub shape: Shape,
}

// The command that is being typed: its keys, where it began, and how it is undone once it has
// changed the text.
#[derive(Drop)]
pub struct OpenCommand {
    keys: Vec<u8>,
    began: usize,
    unit: Option<UndoUnit>,
}

#[derive(Drop)]
pub struct Editor {
    pub(crate) heap: Global,
    pub(crate) buffer: Buffer,
    // the one that j and k keep to
    pub(crate) column: usize,
    pub(crate) mode: Mode,
    pub(crate) register: Register,
    pub(crate) history: History,
    pub(crate) open: OpenCommand,
    // the keys of the last command that changed something
    pub(crate) last_keys: Vec<u8>,
    pub(crate) window: Window,
}

impl Editor {
    pub fn new(heap: Global, text: Vec<u8>, size: Size) -> Editor
        ensures text { result.buffer.text.items ≡ text.items }
        ensures cursor { result.buffer.cursor ≡ 0 }
        ensures size { result.window.size ≡ size }
    {
        Editor {
            heap,
            buffer: Buffer::new(text),
            column: 0,
            mode: Mode::at_rest(),
            register: Register {
                bytes: Vec::new(heap),
                shape: Shape::Bytes,
            },
            history: History::new(heap),
            open: OpenCommand {
                keys: Vec::new(heap),
                began: 0,
                unit: None,
            },
            last_keys: Vec::new(heap),
            window: Window::new(size),
        }
    }

    pub fn text(&self) -> &[u8]
        ensures { result.now ≡ self.now.buffer.text.items }
    {
        self.buffer.here().text
    }

    pub fn cursor(&self) -> usize
        ensures value { result ≡ self.now.buffer.cursor }
        ensures within { result ≤ length self.now.buffer.text.items }
    {
        self.buffer.here().at
    }

    // To a place or, where one can't stand on it, the one before; its column is kept from now on.
    pub(crate) fn stand(&mut self, place: usize) {
        let place = self.buffer.place(place).clamp();
        self.column = place.column();
        let at = place.at;
        self.buffer.move_to(at);
    }

    // To the first byte that is not blank of a place's line.
    pub(crate) fn stand_on_nonblank(&mut self, place: usize) {
        let first = self.buffer.place(place).first_nonblank().at;
        self.stand(first);
    }

    // Changes the text, as a part of the open command.
    pub(crate) fn replace(&mut self, from: usize, to: usize, new: &[u8]) -> Result<(), AllocError>
        requires { (from ≤ to) × (to ≤ vec_len self.old.buffer.text) }
    {
        if from == to && new.is_empty() {
            return Ok(());
        }
        if let Some(unit) = &mut self.open.unit {
            unit.changed = from;
        } else {
            self.open.unit = Some(UndoUnit {
                text: Vec::from_slice(self.heap, self.buffer.here().text)?,
                began: self.open.began,
                changed: from,
            });
        }
        self.buffer.replace(self.heap, from, to, new)
    }

    // Does one key.
    pub fn press(&mut self, key: u8) -> Result<(), AllocError> {
        match self.mode {
            Mode::Normal(pending) => self.press_in_command(pending, key)?,
            Mode::Inserting => self.type_key(key)?,
        }
        let here = self.buffer.here();
        self.window = self.window.follow(here.line(), here.column());
        Ok(())
    }

    fn press_in_command(&mut self, pending: Pending, key: u8) -> Result<(), AllocError> {
        match pending.next(key) {
            Next::Repeat(count) => self.repeat(count.times()),
            _ => self.type_key(key),
        }
    }

    fn type_key(&mut self, key: u8) -> Result<(), AllocError> {
        if self.mode.is_at_rest() {
            self.open.keys.clear();
            self.open.began = self.buffer.here().at;
        }
        self.open.keys.push(key)?;
        match self.mode {
            Mode::Inserting => self.insert_key(key)?,
            Mode::Normal(pending) => self.command_key(pending.next(key))?,
        }
        if self.mode.is_at_rest() {
            self.close_command()
        } else {
            Ok(())
        }
    }

    fn command_key(&mut self, next: Next) -> Result<(), AllocError> {
        self.mode = Mode::at_rest();
        match next {
            Next::More(pending) => {
                self.mode = Mode::Normal(pending);
                Ok(())
            }
            Next::Run(command) => self.run(command),
            Next::Repeat(_) | Next::Cancel => Ok(()),
        }
    }

    // A command that changed something can be undone and repeated.
    fn close_command(&mut self) -> Result<(), AllocError> {
        if let Some(unit) = self.open.unit.take() {
            self.history.record(unit)?;
            self.last_keys = mem::replace(&mut self.open.keys, Vec::new(self.heap));
        }
        Ok(())
    }

    fn repeat(&mut self, times: usize) -> Result<(), AllocError> {
        self.mode = Mode::at_rest();
        let keys = mem::replace(&mut self.last_keys, Vec::new(self.heap));
        let replayed = self.replay(keys.as_slice(), times);
        self.last_keys = keys;
        replayed
    }

    // Types keys so often, each time until the command has ended.
    fn replay(&mut self, keys: &[u8], times: usize) -> Result<(), AllocError> {
        'repetitions: for _ in 0..times {
            for key in keys {
                self.type_key(*key)?;
                if self.mode.is_at_rest() {
                    continue 'repetitions;
                }
            }
        }
        Ok(())
    }
}
