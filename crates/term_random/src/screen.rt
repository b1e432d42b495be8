//! A terminal, what it shall show, and what is sent to it.
ghost use Rattle.std.specs.Prelude.{◌<◌};

use crate::picture::Cells;
use anyhow::{Context, ensure};
use dice::Dice;
use pictures::{Size, bound, draw, paint};
use plain_lines::Position;
use plain_terminal::Terminal;
use std::alloc::Global;

/// More than the largest screen may cost.
const ROOM: usize = 1_000;

#[derive(Drop)]
pub struct Screen {
    size: Size,
    terminal: Terminal,
    shown: Cells,
}

impl Screen {
    /// A terminal in the middle of a sequence, with cells that it may not keep, made to show a random picture.
    pub fn painted(heap: Global, dice: &mut Dice) -> anyhow::Result<Screen> {
        let size = Size {
            rows: dice.below(9) as u16 + 2,
            columns: dice.below(20) as u16 + 1,
        };
        let columns = size.columns as usize;
        let plain = plain_lines::Size::new(size.rows as usize, columns).context("no size")?;
        let mut terminal = Terminal::new(heap, plain, b'#')?;
        terminal.feed(b"\x1b[2;2Hx\x1b[1")?;
        let shown = Cells::random(heap, dice, size)?;
        let mut new = vec![in heap; 0u8; columns]?;
        let mut out = vec![in heap; 0u8; ROOM]?;
        let n = paint(size, shown.shot(), &mut new, &mut out)?;
        terminal.feed(&out[..n])?;
        let screen = Screen {
            size,
            terminal,
            shown,
        };
        screen.compare()?;
        Ok(screen)
    }

    fn compare(&self) -> anyhow::Result<()> {
        let cursor = self.shown.cursor;
        let expected = Position {
            row: cursor.row as usize,
            column: cursor.column as usize,
        };
        ensure!(
            self.terminal.cursor() == expected,
            "the cursor is elsewhere"
        );
        let columns = self.size.columns.max(1) as usize;
        for (row, expected) in self.shown.bytes.chunks(columns).enumerate() {
            let found = self.terminal.row(row).context("a row is missing")?;
            ensure!(found == expected, "a row differs");
        }
        Ok(())
    }

    /// Draws another picture, and says how many bytes that took.
    pub fn change(&mut self, heap: Global, dice: &mut Dice) -> anyhow::Result<usize> {
        let next = self.shown.next(heap, dice, self.size)?;
        let columns = self.size.columns as usize;
        let mut old = vec![in heap; 0u8; columns]?;
        let mut new = vec![in heap; 0u8; columns]?;
        let mut out = vec![in heap; 0u8; ROOM]?;
        let n = draw(
            self.size,
            self.shown.shot(),
            next.shot(),
            &mut old,
            &mut new,
            &mut out,
        )?;
        let most = bound(self.size, self.shown.shot(), next.shot())?;
        ensure!(n <= most, "too many bytes");
        self.terminal.feed(&out[..n])?;
        self.shown = next;
        self.compare()?;
        Ok(n)
    }
}
