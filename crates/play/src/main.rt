//! Plays keys from a file on a text from a file, and writes what the text then is.
#![tactic(auto)]

use arguments::{Refusal, Words, exit_code, read_file, write_output};
use plain::{Editor, Size};
use std::alloc::{AllocError, Global};
use std::process::ExitCode;

const USAGE: &str = "play TEXT KEYS";

// The text after all keys, on a screen of 24 rows and 80 columns.
fn played(heap: Global, text: Vec<u8>, keys: &[u8]) -> Result<Editor, AllocError> {
    let mut editor = Editor::new(heap, text, Size::new(24, 80).unwrap());
    for key in keys {
        editor.press(*key)?;
    }
    Ok(editor)
}

fn run(rt: &HostRuntime) -> Result<(), Refusal> {
    let mut words = Words::of_program(rt, USAGE)?;
    let text = words.take()?;
    let keys = words.take()?;
    words.end()?;
    let text = read_file(rt, text)?;
    let keys = read_file(rt, keys)?;
    let editor = played(rt.alloc(), text, keys.as_slice())?;
    write_output(rt, editor.text())
}

fn main(rt: HostRuntime) -> ExitCode {
    exit_code(&rt, "play", run(&rt))
}
