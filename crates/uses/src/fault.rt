//! Why the program gives up.

use crate::from_rust;
use async_once_cell::once::Refused;
use std::alloc::AllocError;
use std::io;
use thiserror::Error;

/// Why the program gives up.
#[derive(Debug, Drop, Error)]
pub enum Fault {
    /// A call on a cell was refused.
    #[error("a poll was refused: {0}")]
    Refused(#[from] Refused),
    /// No connection was there after so many tries.
    #[error("no connection after {0} tries")]
    Tries(u64),
    /// A lazy cell has no future to hand back.
    #[error("a lazy cell has no future")]
    Empty,
    /// A load found no setting, for this reason.
    #[error("a setting was not loaded: {0}")]
    NotLoaded(u64),
    /// Memory was refused.
    #[error("out of memory")]
    Memory(#[from(alloc)] AllocError),
    /// What is made of a script is not what is stored of it.
    #[error("a stored file differs from what is made")]
    Stored,
    /// A program of `from_rust` gave up.
    #[error(transparent)]
    FromRust(#[from] from_rust::Fault),
    /// A write failed, or the system gave no task.
    #[error(transparent)]
    Io(#[from] io::Error),
}
