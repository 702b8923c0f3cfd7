//! What cells show of themselves, in a few words. To compare it takes no memory.

use arrayvec::ArrayString;
use async_once_cell::{Lazy, OnceCell};
use futures::Future;
use std::fmt::{Debug, Write};

// Whether the Debug text of a cell with this name that lends this says what words say, and no more: `v` with the value,
// `held` if a task holds, a number if so many tasks are counted, and `queue` if one stands. `free` says nothing.
fn shows(name: &str, cell: &impl Debug, lent: Option<u64>, words: &str) -> bool {
    let (mut value, mut is_held, mut count, mut has_queue) = (None, false, 0u64, false);
    for word in words.split(' ') {
        match word {
            "free" => {}
            "held" => is_held = true,
            "queue" => has_queue = true,
            _ => match word.strip_prefix('v') {
                Some(number) => value = number.parse::<u64>().ok(),
                None => count = word.parse().unwrap_or(u64::MAX),
            },
        }
    }
    let is_set = value.is_some();
    let (mut wanted, mut found) = (ArrayString::<200>::new(), ArrayString::<200>::new());
    let are_written = write!(
        wanted,
        "{name} {{ value: {value:?}, inner: Inner {{ ready: {is_set}, quick_init: {is_held}, refcount: {count}, \
         queue: {has_queue} }} }}"
    )
    .is_ok()
        && write!(found, "{cell:?}").is_ok();
    are_written && wanted == found && lent == value
}

/// Whether a cell shows what these words say, and lends the value.
pub fn cell_shows(cell: &OnceCell<u64>, words: &str) -> bool {
    shows("OnceCell", cell, cell.get().copied(), words)
}

/// The same of a lazy cell.
pub fn lazy_shows<F: Future<Output = u64>>(lazy: &Lazy<u64, F>, words: &str) -> bool {
    shows("Lazy", lazy, lazy.try_get().copied(), words)
}
