//! What a terminal makes of what is sent to it: theorems on the definitions alone. The lemmas are in
//! proofs/, and the code that sends is built on them.
#![tactic(auto)]

ghost use Rattle.terminals.specs.Drawing.{Moves, Runs, Clears, InSequence, NothingToSend, PicturesDrawable};

/// A move leads to the same picture with the cursor elsewhere.
pub fn moves()
    ensures { Moves }
{}

/// A run of printable bytes stands in the cursor's row, from the cursor on.
pub fn runs()
    ensures { Runs }
{}

/// A clear makes the rest of the cursor's row blank.
pub fn clears()
    ensures { Clears }
{}

/// What is sent in two parts leads from the first picture to the last.
pub fn in_sequence()
    ensures { InSequence }
{}

/// Sending nothing is right exactly if the pictures are equal, cursors included.
pub fn nothing_to_send()
    ensures { NothingToSend }
{}

/// What an editor's screen shows can be drawn.
pub fn pictures_drawable()
    ensures { PicturesDrawable }
{}
