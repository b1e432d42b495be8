//! Theorems on every heap, each as the contract of a function that does nothing.
ghost use Rattle.cells.specs.Theorems.{NoCellLost, Counting, LongerRow, HasTrees};

/// Each cell is held or dead, or stands below one that is.
pub fn no_cell_is_lost()
    ensures { NoCellLost }
{}

/// Where no cell is dead, no more cells were taken than what is held has.
pub fn cells_are_counted()
    ensures { Counting }
{}

/// A longer row, zeros behind, is the same heap.
pub fn longer_row_holds()
    ensures { LongerRow }
{}

/// Each held reference of a sound heap stands for a tree.
pub fn held_have_trees()
    ensures { HasTrees }
{}
