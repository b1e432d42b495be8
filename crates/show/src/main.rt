//! Plays keys from a file on a text from a file, and prints the screen at the beginning and after each.
#![tactic(auto)]

use arguments::{Refusal, Words, exit_code, read_file, screen_size, write_output};
use plain::{Editor, Position};
use std::alloc::{AllocError, Global};
use std::process::ExitCode;

const USAGE: &str = "show TEXT KEYS ROWS COLS";

// The number of keys so far, the rows, and the cursor counted from 1.
fn screen(heap: Global, editor: &Editor, keys: usize) -> Result<Vec<u8>, AllocError> {
    let mut out = format!(in heap; "== {keys}\n")?.into_bytes();
    for row in 0..editor.size().rows() {
        out.extend_from_slice(editor.row(row)?.as_slice())?;
        out.push(b'\n')?;
    }
    let Position { row, column } = editor.screen_cursor();
    let row = row.saturating_add(1);
    let column = column.saturating_add(1);
    let foot = format!(in heap; "@ {row},{column}\n")?;
    out.extend_from_slice(foot.as_bytes())?;
    Ok(out)
}

fn print_screen(rt: &HostRuntime, editor: &Editor, keys: usize) -> Result<(), Refusal> {
    let out = screen(rt.alloc(), editor, keys)?;
    write_output(rt, out.as_slice())
}

fn print_screens(rt: &HostRuntime, mut editor: Editor, keys: &[u8]) -> Result<(), Refusal> {
    print_screen(rt, &editor, 0)?;
    for (before, key) in keys.iter().enumerate() {
        editor.press(*key)?;
        print_screen(rt, &editor, before.saturating_add(1))?;
    }
    Ok(())
}

fn run(rt: &HostRuntime) -> Result<(), Refusal> {
    let mut words = Words::of_program(rt, USAGE)?;
    let text = words.take()?;
    let keys = words.take()?;
    let rows = words.take()?;
    let columns = words.take()?;
    words.end()?;
    let size = screen_size(rows.as_str(), columns.as_str())?;
    let text = read_file(rt, text)?;
    let keys = read_file(rt, keys)?;
    print_screens(rt, Editor::new(rt.alloc(), text, size), keys.as_slice())
}

fn main(rt: HostRuntime) -> ExitCode {
    exit_code(&rt, "show", run(&rt))
}
