//! Runs of `once_replay` whose writers or memory fail.

use crate::same::same;
use once_script::fault::Fault;
use once_script::parse::record::parse_record;
use once_script::{run, run_full};
use std::alloc::{AllocError, AllocGlobal, Global};
use std::io;
use std::io::Write;
use std::process::Abort;
use std::test::Fail;
use test_doubles::memory::{hoard, hoard_most, hoard_rest};
use test_doubles::target::Target;

/// A writer that counts what it is given, and takes no memory.
#[derive(Drop)]
struct Counter {
    bytes: usize,
}

impl Write for Counter {
    fn write(&mut self, bytes: &[u8]) -> io::Result<usize> {
        self.bytes = self.bytes.saturating_add(bytes.len());
        Ok(bytes.len())
    }

    fn flush(&mut self) -> io::Result<()> {
        Ok(())
    }
}

/// What a run answers, and how many bytes it prints.
type Ending = (Result<(), Fault>, usize);

fn ending(alloc: Global, text: &str) -> Ending {
    let mut printed = Counter { bytes: 0 };
    let answer = run(alloc, text.as_bytes(), &mut printed);
    (answer, printed.bytes)
}

// The piece, the number of the write that fails, and whether a flush fails.
type Writer = (usize, u64, bool);

const WRITERS: [(Writer, Result<(), Fault>); 6] = [
    ((usize::MAX, 0, false), Ok(())),
    ((1000, 0, false), Ok(())),
    ((usize::MAX, 1, false), Err(Fault::Io)),
    ((usize::MAX, 2, false), Err(Fault::Io)),
    ((1000, 0, true), Err(Fault::Io)),
    ((0, 0, false), Err(Fault::Io)),
];

// A run over a writer of a script that looks 1,500 times answers so. What it wrote is a beginning of what the script
// prints, and all of it if the run did not fail.
fn writes_so<R>(rt: &R, writer: Writer, answer: Result<(), Fault>) -> Result<(), AllocError>
where
    R: Abort + AllocGlobal,
{
    let (alloc, (piece, fails_at, flush_fails)) = (rt.alloc(), writer);
    let looks = "look\n".repeat(alloc, 1500)?;
    let text = format!(in alloc; "once 8\n{looks}")?;
    let found = "look none\n".repeat(alloc, 1500)?;
    let wanted = format!(in alloc; "{found}queue none\n")?;
    let mut target = Target::new(alloc, piece, fails_at, flush_fails);
    let came = run(alloc, text.as_bytes(), &mut target);
    let is_beginning = wanted.as_bytes().starts_with(target.text());
    let is_enough = came.is_err() || target.text().len() == wanted.len();
    same(
        rt,
        (writer, came, is_beginning, is_enough),
        (writer, answer, true, true),
    );
    Ok(())
}

#[test]
fn a_failed_write_leaves_a_beginning(rt: HostRuntime) -> Result<(), Fail> {
    for (writer, answer) in &WRITERS {
        writes_so(&rt, *writer, *answer)?;
    }
    Ok(())
}

// How many writes the same text takes in pieces of a thousand bytes.
const WRITES: u64 = 16;

/// Each write fails in turn, up to the first that is not made.
#[test]
fn each_write_fails(rt: HostRuntime) -> Result<(), Fail> {
    for fails_at in 1..=WRITES {
        writes_so(&rt, (1000, fails_at, false), Err(Fault::Io))?;
    }
    writes_so(&rt, (1000, WRITES + 1, false), Ok(()))?;
    Ok(())
}

const SHORT: &str = "once 8\n";

// How a run ends that is refused all memory.
fn without_memory(alloc: Global) -> Result<Ending, AllocError> {
    let held = hoard(alloc)?;
    let refused = ending(alloc, SHORT);
    drop(held);
    Ok(refused)
}

#[test]
fn refused_memory_prints_nothing(rt: HostRuntime) -> Result<(), Fail> {
    let found = [without_memory(rt.alloc())?, ending(rt.alloc(), SHORT)];
    let wanted = [(Err(Fault::Memory), 0), (Ok(()), "queue none\n".len())];
    same(&rt, found, wanted);
    Ok(())
}

// A holder, and two that wait: one is dropped, and the other takes over.
const WAITERS: &str =
    "once 8\nmake 1\nmake 2\nmake 3\npoll 1 5\nrun 1 p\npoll 2 7\nrun 2 p\npoll 3 9\nrun 3 p\n\
drop 1\nrun 1 p\ndrop 2\nrun 2 p\npoll 3 9\nrun 3 v4\n";

// How many entries a record has that is printed of a script and read back, and how many lines were printed.
fn read_back(alloc: Global, script: &str) -> Result<(usize, usize), Fail> {
    let mut printed = Vec::new(alloc);
    run_full(alloc, script.as_bytes(), &mut printed)?;
    let Ok(record) = parse_record(alloc, printed.as_slice()) else {
        return Err(Fail::new(script));
    };
    let lines = printed.iter().filter(|byte| **byte == b'\n').count();
    Ok((record.entries.len(), lines))
}

/// The first line is of the cell, and the last of the queue.
#[test]
fn a_record_is_read_back(rt: HostRuntime) -> Result<(), Fail> {
    same(&rt, read_back(rt.alloc(), WAITERS)?, (22, 24));
    Ok(())
}

// How a run ends that has so many bytes of memory at first.
fn within(alloc: Global, bytes: usize) -> Result<Ending, AllocError> {
    let held = hoard_rest(alloc, bytes)?;
    let found = ending(alloc, WAITERS);
    drop(held);
    Ok(found)
}

// How often a run was refused memory, which has a little more each time, before it had enough. None if a run
// printed something and was refused, or did not print all.
fn refusals(alloc: Global) -> Result<Option<u64>, AllocError> {
    let wanted = ending(alloc, WAITERS);
    let (held, mut refused) = (hoard_most(alloc)?, 0u64);
    for bytes in (0..60_000).step_by(16) {
        let found = within(alloc, bytes)?;
        if found == wanted {
            return Ok(Some(refused));
        }
        if found != (Err(Fault::Memory), 0) {
            break;
        }
        refused = refused.saturating_add(1);
    }
    drop(held);
    Ok(None)
}

/// A run that has too little memory, however much it is, prints nothing.
#[test]
fn too_little_memory_prints_nothing(rt: HostRuntime) {
    let refused = refusals(rt.alloc());
    assert!(rt; matches!(refused, Ok(Some(600..))), "{refused:?}");
}
