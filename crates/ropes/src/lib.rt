//! Ropes as values: byte sequences as balanced trees of leaves, and what holds of them.
#![tactic(auto)]

ghost use Rattle.ropes.specs.Laws.{ConcatLaws, CutLaws, EditLaws, Low, FewCells};

/// Two ropes as one: their bytes, balance and height.
pub fn concat_laws()
    ensures { ConcatLaws }
{}

/// The parts of a rope are ropes of the bytes of the parts.
pub fn cut_laws()
    ensures { CutLaws }
{}

/// Replacing, repeating and building do to the bytes what they say.
pub fn edit_laws()
    ensures { EditLaws }
{}

/// A rope is not high.
pub fn ropes_are_low()
    ensures { Low }
{}

/// A rope takes few cells.
pub fn ropes_take_few_cells()
    ensures { FewCells }
{}
