//! Why a program ends without having done its work.
use std::alloc::AllocError;
use thiserror::Error;

#[derive(Debug, Drop, Error)]
pub enum Refusal {
    // how the program is called
    #[error("usage: {0}")]
    Usage(&'static str),
    #[error("can't read {0}")]
    Unreadable(String),
    #[error("ROWS is a number from 2 to 9999")]
    Rows,
    #[error("COLS is a number from 1 to 9999")]
    Columns,
    #[error("out of memory")]
    OutOfMemory(#[from(alloc)] AllocError),
    #[error("can't write the output")]
    Unwritable,
}
