//! From two pictures of a screen to bytes that lead every terminal from the one to the other.
#![tactic(auto)]

mod change;
mod cursor;
mod drawing;
mod painting;

pub use change::Change;
pub use drawing::redraw;
pub use painting::repaint;
pub use term_rows::Position;
