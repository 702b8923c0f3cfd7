//! Faults of showing that no case has: a write that fails after others, and a flush that does.

use crate::same::same;
use once_view::{Format, show};
use std::alloc::{AllocError, Global};
use std::test::Fail;
use test_doubles::target::Target;

// A script that makes 60 tasks, and looks 200 times.
fn large(alloc: Global) -> Result<String, AllocError> {
    let mut text = String::from_str(alloc, "once 8\n")?;
    for task in 0..60u64 {
        writeln!(text, "make {task}")?;
    }
    text.push_str("look\n".repeat(alloc, 200)?.as_str())?;
    Ok(text)
}

// The number of the write that fails, which takes a thousand bytes at a time as all others do, or 0 for the flush; and
// the status of the fault.
const FAILED: [(u64, u8); 4] = [(0, 3), (1, 141), (2, 141), (3, 141)];

/// A write to a closed pipe ends the showing, in both formats, and so does a flush that fails.
#[test]
fn a_failed_write_ends_the_showing(rt: HostRuntime) -> Result<(), Fail> {
    let text = large(rt.alloc())?;
    for (fails_at, wanted) in &FAILED {
        for (name, format) in [("table", Format::Table), ("picture", Format::Picture)] {
            let target = Target::new(rt.alloc(), 1_000, *fails_at, *fails_at == 0);
            let status = match show(rt.alloc(), format, text.as_bytes(), target) {
                Ok(_) => 0,
                Err(fault) => fault.status(),
            };
            same(&rt, (name, *fails_at, status), (name, *fails_at, *wanted));
        }
    }
    Ok(())
}
