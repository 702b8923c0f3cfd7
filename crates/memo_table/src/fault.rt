//! Why a run gives up.

use async_once_cell::once::Refused;
use std::alloc::AllocError;
use std::io;
use thiserror::Error;

/// Why a run gives up.
#[derive(Debug, Drop, Error)]
pub enum Fault {
    /// The table has no cell for this key. No cell was asked.
    #[error("key {0} is not in the table")]
    NoKey(u64),
    /// A future was Pending at each of its turns. It left its cell as one that is dropped does.
    #[error("a cell has no value after all turns")]
    Turns,
    /// A poll was refused. Its future left the cell as one that is dropped does.
    #[error("a poll was refused: {0}")]
    Refused(#[from] Refused),
    /// No thread could be started. One that was started before ran to its end.
    #[error("a thread could not be started")]
    Thread,
    /// The two threads were told different values.
    #[error("two threads were told different values")]
    Differ,
    /// Memory was refused.
    #[error("out of memory")]
    Memory(#[from(alloc)] AllocError),
    /// A write failed, or the system gave no task. Lines may have gone out before.
    #[error("{0}")]
    Io(#[from] io::Error),
}
