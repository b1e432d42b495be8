//! The keys whose outcome is written down, played on the editor, and its screen on the terminal.
#![tactic(auto)]

#[cfg(test)]
mod played;
#[cfg(test)]
mod worked;
