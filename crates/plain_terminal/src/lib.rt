//! A terminal: cells, a cursor, and what it makes of the bytes that are sent to it.
#![tactic(auto)]

mod sequences;
mod terminal;
#[cfg(test)]
mod tests;

pub use terminal::Terminal;
