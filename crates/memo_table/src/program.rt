//! A whole run, which the program `memo` makes: what it prints, and the status that it ends with.
ghost use Rattle.std.specs.Prelude.{◌≡◌, OnOk, OnErr};

use crate::ask::{Answer, Answers, KEYS, TURNS, ask_twice};
use crate::fault::Fault;
use crate::fetch::TenTimes;
use crate::table::Memo;
use std::alloc::AllocGlobal;
use std::io;
use std::io::{Eprint, Write};
use std::random::RandomSource;
use std::sync::Wait;
use std::sync::atomic::{AtomicU64, Ordering};
use std::thread::Threads;
use std::time::Clock;

/// Makes a table of the keys [`KEYS`], and shows it as [`show`] does.
pub fn run<R, O>(rt: &R, output: &mut O) -> Result<(), Fault>
where
    R: Threads + Wait + RandomSource + AllocGlobal + Clock + Sync,
    O: Write,
{
    let memo = Memo::promised(rt.alloc(), Vec::from_array(rt.alloc(), KEYS)?)?;
    show(rt, &memo, TURNS, output)
}

/// Has two threads ask a table for each of the keys [`KEYS`], with so many turns for each. Then it
/// prints what they were told, which is ten times the key, and how often a key was fetched here, and
/// flushes the writer.
///
/// Nothing is written before all is known. So only if a write or the flush fails may a beginning
/// have gone out.
pub fn show<R, O>(
    rt: &R,
    memo: &Memo<u64, TenTimes>,
    turns: u64,
    output: &mut O,
) -> Result<(), Fault>
where
    R: Threads + Wait + RandomSource + AllocGlobal + Clock + Sync,
    O: Write,
{
    let fetches = AtomicU64::new(0);
    let answers = ask_twice(rt, memo, &fetches, turns)?;
    print_answers(output, &answers, fetches.load(Ordering::SeqCst))?;
    Ok(())
}

/// The status that a run ends with: 0, or 1 if it gave up. Then a line on standard error says why.
pub fn status<E: Eprint>(errors: &E, ended: Result<(), Fault>) -> u8
    ensures done { OnOk ended (result ≡ 0) }
    ensures gave_up { OnErr ended (result ≡ 1) }
{
    match ended {
        Ok(()) => 0,
        Err(fault) => {
            let _ = errors.eprintln(fault);
            1
        }
    }
}

/// Writes a line for each answer, and one for the fetches.
fn print_answers<O: Write>(output: &mut O, answers: &Answers, fetches: u64) -> io::Result<()> {
    for Answer { key, value } in &answers.told {
        writeln!(output, "{key} {value}")?;
    }
    writeln!(output, "fetches {fetches}")?;
    output.flush()
}
