//! A second editor: the text in one piece, and the screen drawn whole.
//! It is written from the description of the keys alone, so that it can disagree with the first.
#![tactic(auto)]

mod buffer;
mod commands;
mod editor;
mod history;
mod inserting;
mod operators;
mod screen;

pub use editor::Editor;
pub use plain_lines::{Position, Size};
