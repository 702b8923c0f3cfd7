//! Inits that do as a test tells them, what polls answer, and schedules of polls and drops.

pub mod expected;
pub mod made;
pub mod other;
pub mod schedule;
pub mod stub;
pub mod value;

pub use cell_doubles::poll;
use futures::test::MockTask;
use std::alloc::AllocGlobal;
use std::fmt::Debug;
use std::io;
use std::process::Abort;
use std::random::RandomSource;

/// Whether a test found what it wants, which has this name. The assertion stands here alone, since each takes its time
/// to prove.
pub fn same<T: PartialEq + Debug + Drop>(rt: &impl Abort, name: &str, found: T, wanted: T) {
    assert_eq!(rt; found, wanted, "{name}");
}

/// Tasks for three futures.
pub fn three_tasks<R: AllocGlobal + RandomSource>(rt: &R) -> io::Result<[MockTask; 3]> {
    Ok([MockTask::new(rt)?, MockTask::new(rt)?, MockTask::new(rt)?])
}
