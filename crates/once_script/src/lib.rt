//! A script is read and replayed, and its record is printed.
//!
//! `plain` is the machine for one caller, over plain data, and `world` replays inputs on it. `parse` reads the text of
//! a script, `play` replays its lines by `world`, and `print` writes the record. [`replay`] is the whole program, and
//! [`world::replay`] the function that has the theorem.
#![tactic(auto)]

ghost use Rattle.std.specs.Prelude.{◌≡◌, ◌⊎◌};
ghost use Rattle.std.specs.Process.{exit_status};
ghost use Rattle.once_script.specs.Fault.{status_of};
ghost use Rattle.once_script.specs.declared.fault.Fault.{Fault};

pub mod fault;
pub mod parse;
pub mod plain;
pub mod play;
pub mod print;
pub mod world;

use crate::fault::Fault;
use crate::parse::{Script, parse_script};
use crate::play::replay_lines;
use crate::print::{FirstLine, print_full, print_record};
use std::alloc::{AllocGlobal, Global};
use std::env::{self, Env};
use std::io;
use std::io::{BufReader, Read, Write};
use std::process::ExitCode;

/// Runs the program `once_replay`: replays the script that the input has, and prints its record to standard output.
/// With the word `--full` first on the command line it prints the text of the record. If that fails, one line on
/// standard error says why, and the status is that of the fault.
///
/// ```
/// fn main(rt: HostRuntime) -> ExitCode {
///     replay(&rt, rt.reader())
/// }
/// ```
pub fn replay<R, I>(rt: &R, input: I) -> ExitCode
where
    R: Print + Eprint + Env + AllocGlobal,
    I: Read + Drop,
    ensures { (exit_status result ≡ 0) ⊎ ((fault : Fault) × (exit_status result ≡ status_of fault)) }
{
    match run_as_asked(rt, input) {
        Ok(()) => ExitCode::from(0u8),
        Err(fault) => {
            let _ = rt.eprintln(fault);
            ExitCode::from(fault.status())
        }
    }
}

// Prints a record as the command line asks for it.
fn run_as_asked<R, I>(rt: &R, input: I) -> Result<(), Fault>
where
    R: Print + Env + AllocGlobal,
    I: Read + Drop,
{
    let words: Vec<String> = env::args(rt)?.collect(rt.alloc())?;
    if words.get(1).map_or(false, |word| word.as_str() == "--full") {
        run_full(rt.alloc(), input, io::writer(rt))
    } else {
        run(rt.alloc(), input, io::writer(rt))
    }
}

/// Reads the input to its end, replays what it says, and prints the record.
///
/// A fault on reading, or in the text, leaves nothing printed. One on printing may leave a beginning
/// of the record.
///
/// ```
/// run(rt.alloc(), input, io::writer(rt))
/// ```
pub fn run<I, O>(alloc: Global, input: I, output: O) -> Result<(), Fault>
where
    I: Read + Drop,
    O: Write + Drop,
{
    let text = read(alloc, input)?;
    let Script { kind, limit, lines } = parse_script(alloc, text.as_slice())?;
    let record = replay_lines(alloc, kind, limit, &lines)?;
    print_record(alloc, &record, output)?;
    Ok(())
}

/// Does the same as `run`, and prints the text of a record.
///
/// ```
/// run_full(rt.alloc(), input, io::writer(rt))
/// ```
pub fn run_full<I, O>(alloc: Global, input: I, output: O) -> Result<(), Fault>
where
    I: Read + Drop,
    O: Write + Drop,
{
    let text = read(alloc, input)?;
    let Script { kind, limit, lines } = parse_script(alloc, text.as_slice())?;
    let first = format!(in alloc; "{}", FirstLine(&kind, limit))?;
    let record = replay_lines(alloc, kind, limit, &lines)?;
    print_full(alloc, first.as_str(), &record, output)?;
    Ok(())
}

// All the bytes that the input has left.
fn read<I: Read + Drop>(alloc: Global, input: I) -> io::Result<Vec<u8>> {
    let mut text = Vec::new(alloc);
    BufReader::new(alloc, input)?.read_to_end(&mut text)?;
    Ok(text)
}
