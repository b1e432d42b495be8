//! Where the cursor is, that it is seen, and that it stays, with all else, while a command is pending.
ghost use Rattle.spec.specs.Promises.{AlwaysStands, InSight};
ghost use Rattle.spec.specs.Laws.{PendingIsHarmless, CursorWitnesses};

/// The cursor is always within the text, and outside of inserting on a byte that is no line end or in an empty line.
pub fn always_stands()
    ensures { AlwaysStands }
{}

/// The cursor's line is one of the text rows on the screen, its column one of the columns.
pub fn in_sight()
    ensures { InSight }
{}

/// Outside of inserting, a key that only goes on with a command, escape, and a command that can't be done
/// change nothing but the command that is pending.
pub fn pending_is_harmless()
    ensures { PendingIsHarmless }
{}

/// Reachable editors in which the theorems above have something to say: the cursor moved off a byte that
/// went, the view moved both ways, and an operator pending with two counts.
pub fn witnesses()
    ensures { CursorWitnesses }
{}
