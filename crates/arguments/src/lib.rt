//! The words of a command line, the files that they name, and why a program refuses them.
#![tactic(auto)]

mod files;
mod refusal;
#[cfg(test)]
mod tests;
mod words;

pub use files::{exit_code, read_file, write_output};
pub use refusal::Refusal;
pub use words::{Words, screen_size};
