//! A writer that fails when a test says so.

use std::alloc::Global;
use std::io;
use std::io::{ErrorKind, Write};

/// A writer that takes a text in pieces, and fails once, at the write with this number.
#[derive(Drop)]
pub struct Target {
    text: Vec<u8>,
    piece: usize,
    writes: u64,
    fails_at: u64,
    flush_fails: bool,
}

impl Target {
    /// A writer of so many bytes at a time. The first write has the number one.
    pub fn new(alloc: Global, piece: usize, fails_at: u64, flush_fails: bool) -> Target {
        Target {
            text: Vec::new(alloc),
            piece,
            writes: 0,
            fails_at,
            flush_fails,
        }
    }

    /// What was written.
    pub fn text(&self) -> &[u8] {
        self.text.as_slice()
    }

    /// Whether the write that was to fail was made.
    pub fn has_failed(&self) -> bool {
        0 < self.fails_at && self.fails_at <= self.writes
    }
}

impl Write for Target {
    fn write(&mut self, bytes: &[u8]) -> io::Result<usize> {
        self.writes = self.writes.saturating_add(1);
        if self.writes == self.fails_at {
            return Err(io::Error::from(ErrorKind::BrokenPipe));
        }
        let count = bytes.len().min(self.piece);
        self.text.extend_from_slice(&bytes[..count])?;
        Ok(count)
    }

    fn flush(&mut self) -> io::Result<()> {
        if self.flush_fails {
            return Err(io::Error::from(ErrorKind::StorageFull));
        }
        Ok(())
    }
}
