//! What each key does, what the screen shows, what a terminal makes of bytes, and the promises:
//! definitions, in specs/. Everything else is proved to agree with them.
#![tactic(auto)]

ghost use Rattle.spec.specs.Worked.{WorkedKeys};

/// The worked keys hold of the definitions.
pub fn worked_keys()
    ensures { WorkedKeys }
{}
