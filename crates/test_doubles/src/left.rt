//! What a cell shows that nobody uses any more.

use std::alloc::AllocGlobal;
use std::fmt::Debug;

// Nobody holds, and nobody is counted. A queue may stand at the door still.
const FREE: &str = "Inner { ready: false, quick_init: false, refcount: 0, queue: ";

/// The value is set, nobody is counted, and no queue stands.
pub const FILLED: &str = "Inner { ready: true, quick_init: false, refcount: 0, queue: false } }";

/// Whether this stands in the text that a cell shows of itself.
pub fn has_text<R: AllocGlobal>(rt: &R, cell: &impl Debug, wanted: &str) -> bool {
    match format!(in rt.alloc(); "{cell:?}") {
        Ok(text) => text.contains(wanted),
        Err(_) => false,
    }
}

/// Whether the value is not set, and nobody holds or is counted. A task that is listed is counted.
pub fn is_free<R: AllocGlobal>(rt: &R, cell: &impl Debug) -> bool {
    has_text(rt, cell, FREE)
}

/// Whether the value is set, nobody is counted, and no queue stands.
pub fn is_filled<R: AllocGlobal>(rt: &R, cell: &impl Debug) -> bool {
    has_text(rt, cell, FILLED)
}
