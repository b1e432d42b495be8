//! A text as lines and words, and the window through which its lines are seen.
#![tactic(auto)]

mod text;
mod window;
mod words;

pub use text::Place;
pub use window::{Position, Size, Window};
