//! What scans over a text find, and how lines are counted: definitions and lemmas, with no code.
#![tactic(auto)]
