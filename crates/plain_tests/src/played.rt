//! An editor after some keys, and a terminal that has been shown the screen.
use plain::{Editor, Size};
use plain_terminal::Terminal;
use std::process::Abort;
use std::test::Fail;

pub fn played(
    rt: &HostRuntime,
    text: &[u8],
    rows: usize,
    columns: usize,
    keys: &[u8],
) -> Result<Editor, Fail> {
    let size = Size::new(rows, columns).ok_or("no such size")?;
    let heap = rt.alloc();
    let mut editor = Editor::new(heap, Vec::from_slice(heap, text)?, size);
    // Kept: the same loop as in the program `play`, of three lines; a function of the editor for it would say no more than `press`.
    for key in keys {
        editor.press(*key)?;
    }
    Ok(editor)
}

// A terminal in the middle of a sequence shows after the painting what the editor says.
pub fn check_painting(rt: &(impl Abort + AllocGlobal), editor: &Editor) -> Result<(), Fail> {
    let size = editor.size();
    let mut terminal = Terminal::new(rt.alloc(), size, b'x')?;
    terminal.feed(b"\x1b[3")?;
    terminal.feed(editor.painting()?.as_slice())?;
    for row in 0..size.rows() {
        assert_eq!(rt; terminal.row(row), Some(editor.row(row)?.as_slice()));
    }
    assert_eq!(rt; terminal.cursor(), editor.screen_cursor());
    Ok(())
}
