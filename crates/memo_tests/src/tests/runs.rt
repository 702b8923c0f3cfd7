//! Whole runs over a table: what they print, what they say on standard error, and their status.

use super::errors::Errors;
use super::watched::Watched;
use super::{Hosts, holder, same, same_text, table};
use async_once_cell::once::Refused;
use futures::test::MockTask;
use memo_table::ask::KEYS;
use memo_table::fault::Fault;
use memo_table::program::{run, show, status};
use std::alloc::{AllocError, Global};
use std::io;
use std::process::Abort;
use std::test::Fail;
use test_doubles::memory::hoard;
use test_doubles::target::Target;

const TEXT: &str = "1 10\n2 20\n3 30\nfetches 3\n";

const TURNS_USED_UP: &str = "a cell has no value after all turns\n";

const NO_MEMORY: &str = "out of memory\n";

const REFUSED: &str = "a poll was refused: out of memory\n";

const NO_THREAD: &str = "a thread could not be started\n";

// What a caller of the program sees of a run.
#[derive(Drop)]
struct Told {
    status: u8,
    said: Option<String>,
    printed: Vec<u8>,
}

// What is seen of a run that ended so.
fn told_of(alloc: Global, how: Result<(), Fault>, printed: Vec<u8>) -> Told {
    let errors = Errors::new(alloc);
    Told {
        status: status(&errors, how),
        said: errors.told(),
        printed,
    }
}

impl Told {
    fn said(&self) -> &str {
        match &self.said {
            Some(text) => text.as_str(),
            None => "",
        }
    }

    fn seen(&self) -> (u8, &str, &[u8]) {
        (self.status, self.said(), self.printed.as_slice())
    }

    // Whether it printed nothing, and says that memory was refused.
    fn is_refused(&self) -> bool {
        let said = self.said();
        let is_said = said == NO_MEMORY || said == REFUSED || said == NO_THREAD;
        self.status == 1 && is_said && self.printed.is_empty()
    }
}

// Compares what is seen of a run. What is found and what is wanted may live for different times.
fn same_run(rt: &impl Abort, name: &str, told: &Told, status: u8, said: &str, printed: &str) {
    assert_eq!(rt; told.seen(), (status, said, printed.as_bytes()), "{name}");
}

// A run by this handle, beside a task that holds the cell of a key for good, and how many pauses it made.
fn run_beside<R: Hosts>(
    rt: &R,
    by: Watched<'_, R>,
    key: u64,
    turns: u64,
) -> Result<(Told, u64), Fault> {
    let (task, memo) = (MockTask::new(rt)?, table(rt.alloc(), &KEYS)?);
    let mut printed = Vec::with_capacity(rt.alloc(), TEXT.len())?;
    let holder = holder(rt, &memo, key, &task).ok_or(Fault::NoKey(key))?;
    let how = show(&by, &memo, turns, &mut printed);
    drop(holder);
    let pauses = by.pauses();
    drop(by);
    Ok((told_of(rt.alloc(), how, printed), pauses))
}

// The key that is held, the turns, and the pauses that both threads make, where it is the first key.
const HELD: [(u64, u64, u64); 5] = [(1, 0, 0), (1, 1, 2), (1, 3, 6), (2, 3, 6), (3, 3, 6)];

/// If the turns are used up, nothing is printed, whichever key is held. Each of the two threads has as many turns as
/// the caller says, and makes a pause after each.
#[test]
fn turns_used_up_print_nothing(rt: HostRuntime) -> Result<(), Fail> {
    for (key, turns, pauses) in HELD {
        let (told, made) = run_beside(&rt, Watched::new(&rt), key, turns)?;
        same_run(&rt, "a run", &told, 1, TURNS_USED_UP, "");
        let made = if key == 1 { made } else { pauses };
        same(&rt, "key, pauses", (key, made), (key, pauses));
    }
    Ok(())
}

// A run that has no memory from the request on that comes after so many, and whether there was such a request.
fn run_starving<R: Hosts>(rt: &R, before: u64) -> Result<(Told, bool), AllocError> {
    let mut printed = Vec::with_capacity(rt.alloc(), TEXT.len())?;
    let by = Watched::starving(rt, before);
    let how = run(&by, &mut printed);
    let has_starved = by.has_starved();
    drop(by);
    Ok((told_of(rt.alloc(), how, printed), has_starved))
}

/// A run that has no memory from some request on prints all of its lines, or none. One that has memory to its end
/// makes ten requests or more.
#[test]
fn a_run_without_memory_prints_all_or_nothing(rt: HostRuntime) -> Result<(), Fail> {
    for before in 0..100 {
        let (told, has_starved) = run_starving(&rt, before)?;
        let is_whole = told.seen() == (0, "", TEXT.as_bytes());
        let is_known = is_whole || has_starved && told.is_refused();
        same(&rt, told.said(), (before, is_known), (before, true));
        if !has_starved {
            same(&rt, "requests", (before, before >= 10), (before, true));
            return Ok(());
        }
    }
    same(&rt, "always starved", true, false);
    Ok(())
}

/// If a cell is held meanwhile, nothing is printed at all.
#[test]
fn a_run_that_waits_without_memory_prints_nothing(rt: HostRuntime) -> Result<(), Fail> {
    for before in 0..19 {
        let (told, _) = run_beside(&rt, Watched::starving(&rt, before), 1, 2)?;
        let has_waited = told.seen() == (1, TURNS_USED_UP, b"".as_slice());
        let is_known = has_waited || told.is_refused();
        same(&rt, told.said(), (before, is_known), (before, true));
    }
    Ok(())
}

/// If no memory is left for a table, or for a thread, nothing is printed.
#[test]
fn refused_memory_prints_nothing(rt: HostRuntime) -> Result<(), Fail> {
    let memo = table(rt.alloc(), &KEYS)?;
    let (mut first, mut second) = (Vec::new(rt.alloc()), Vec::new(rt.alloc()));
    let held = hoard(rt.alloc())?;
    let no_table = run(&rt, &mut first);
    let no_thread = show(&rt, &memo, 1, &mut second);
    drop(held);
    let first = told_of(rt.alloc(), no_table, first);
    let second = told_of(rt.alloc(), no_thread, second);
    same_run(&rt, "no table", &first, 1, NO_MEMORY, "");
    same_run(&rt, "no thread", &second, 1, NO_THREAD, "");
    Ok(())
}

// What a run tells whose writes go to this target.
fn written<R: Hosts>(rt: &R, target: &mut Target) -> Result<Told, AllocError> {
    let how = run(rt, target);
    let mut printed = Vec::new(rt.alloc());
    printed.extend_from_slice(target.text())?;
    Ok(told_of(rt.alloc(), how, printed))
}

/// If a write fails, a beginning has gone out, and the run gives up.
#[test]
fn a_failed_write_leaves_a_beginning(rt: HostRuntime) -> Result<(), Fail> {
    for fails_at in 0..=16 {
        let mut target = Target::new(rt.alloc(), usize::MAX, fails_at, false);
        let told = written(&rt, &mut target)?;
        let (status, said, printed) = told.seen();
        let is_beginning = TEXT.as_bytes().starts_with(printed);
        let seen = (fails_at, status, is_beginning, printed.len() < TEXT.len());
        let has_failed = target.has_failed();
        let wanted = (fails_at, u8::from(has_failed), true, has_failed);
        same(&rt, "the write that fails, and the run", seen, wanted);
        let why = if has_failed { "broken pipe\n" } else { "" };
        same_text(&rt, "what the run says", said, why);
    }
    Ok(())
}

/// If the flush alone fails, all was written, and the run gives up.
#[test]
fn a_failed_flush_is_told(rt: HostRuntime) -> Result<(), Fail> {
    let told = written(&rt, &mut Target::new(rt.alloc(), usize::MAX, 0, true))?;
    same_run(&rt, "a run", &told, 1, "no storage space\n", TEXT);
    Ok(())
}

// How a run may end, its status then, and what it says.
fn ends() -> [(Result<(), Fault>, u8, &'static str); 6] {
    let output = Fault::Io(io::Error::other("no such output"));
    [
        (Ok(()), 0, ""),
        (Err(Fault::Turns), 1, TURNS_USED_UP),
        (Err(Fault::Refused(Refused::Memory)), 1, REFUSED),
        (Err(Fault::Thread), 1, NO_THREAD),
        (Err(Fault::Memory(AllocError)), 1, NO_MEMORY),
        (Err(output), 1, "no such output\n"),
    ]
}

/// A run that gave up says why in one line, and a run that did not says nothing.
#[test]
fn a_line_says_why(rt: HostRuntime) {
    for (how, status, said) in ends() {
        let told = told_of(rt.alloc(), how, Vec::new(rt.alloc()));
        same_run(&rt, said, &told, status, said, "");
    }
}
