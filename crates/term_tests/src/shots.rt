//! Pictures whose cursor is in the first row.
use pictures::{Position, Snapshot};

pub fn shot(cells: &[u8], column: u16) -> Snapshot {
    Snapshot {
        cells,
        cursor: Position { row: 0, column },
    }
}

pub fn at_home(cells: &[u8]) -> Snapshot {
    shot(cells, 0)
}
