//! Undo and redo: nothing is lost by them.
ghost use Rattle.spec.specs.Promises.{BackAndForth, AllBack, AllForth};
ghost use Rattle.spec.specs.HistoryLaws.{OnlyChangesChange, UndoKeyRedoKey, BetweenIsBounded};
ghost use Rattle.spec.specs.HistoryWitnesses.{HistoryWitnesses};

/// What was undone and redone is as it was.
pub fn back_and_forth()
    ensures { BackAndForth }
{}

/// Everything can be undone to the first text.
pub fn all_back()
    ensures { AllBack }
{}

/// And redone again.
pub fn all_forth()
    ensures { AllForth }
{}

/// What a key does to the text is to make the changes that it records, or, of u and control R, to unmake or remake the units
/// that it moves.
pub fn only_changes_change()
    ensures { OnlyChangesChange }
{}

/// Where a command may begin, what u undoes control R redoes, and what control R redoes u undoes.
pub fn undo_key_redo_key()
    ensures { UndoKeyRedoKey }
{}

/// Every editor on the way of a key weighs no more than the editor before it and twice the editor behind it, and 1; and what
/// is recorded becomes less on no way but that of u and control R.
pub fn between_is_bounded()
    ensures { BetweenIsBounded }
{}

/// Keys lead to editors to which each of these theorems applies.
pub fn history_witnesses()
    ensures { HistoryWitnesses }
{}
