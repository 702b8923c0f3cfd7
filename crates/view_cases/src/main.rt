//! Runs what stands in texts (`data`): cases of the programs `once_replay`, `once_show` and `judge_record`, and worked
//! schedules.
//!
//! A case or a schedule begins with `# NAME`, or `# NAME: WHAT IT IS ABOUT`, and an empty line stands before the next.
//!
//! The second line of a case is `$ PROGRAM WORD ..`. Each other line says what the program is given, or what has to
//! come of it:
//!
//! - `< TEXT`: more of its input. A `/` ends a line of that, here and wherever else TEXT stands below.
//! - `<* FIRST LAST TEXT`: the text once for each number of these, which takes the place of `#`.
//! - `<x BYTE ..`: more of its input by bytes, in two hexadecimal digits each.
//! - `! read KIND`, `! read KIND NUMBER`, `! write KIND`: its first read, the read with this number, or each write
//!   fails. A read before that gives seven bytes. KIND is `reset`, `timeout`, `interrupted`, `memory`, `full` or
//!   `pipe`.
//! - `= STATUS`: with which status it ends, if that is not 0.
//! - `> TEXT`, `>* FIRST LAST TEXT`: more of what is printed, and nothing else is.
//! - `2> TEXT`: more of what is said on standard error, and nothing else is.
//! - `+ PART`, `- PART`: what is printed somewhere, and nowhere. The rest is not looked at, unless there is a `>`.
//! - `2+ PART`: how it begins what it says. The rest is not looked at, unless there is a `2>`.
//!
//! Each other line of a schedule is a line of a script (docs/SCRIPTS.md). After `=>` stands what it adds to the record,
//! with a comma between two entries; a line that adds nothing needs no `=>`. The last line begins with `=>`, since no
//! line of the script leads to it: it has the queue, with which the record ends.
//!
//! Each that does not come out so, and each that can't be read, is printed with its name and its fault. After each text
//! stands how many it has. The status is 1 if one failed, or a text could not be read. In the text `wrong` stand those
//! that have to fail, each with its fault.
#![tactic(auto)]

mod case;
mod host;
mod left;
mod schedule;
mod text;

use case::Case;
use left::told;
use std::alloc::AllocGlobal;
use std::fs::{self, Files};
use std::io;
use std::process::ExitCode;

// The texts of cases, and those of schedules.
const TEXTS: [&str; 15] = [
    "programs",
    "reads",
    "first_lines",
    "scripts",
    "shown",
    "records",
    "spoilt",
    "rules",
    "seen",
    "long",
    "turns",
    "refusals",
    "drops",
    "failures",
    "owner",
];

// The fault of a case or a schedule, if it has one.
fn fault_of<F: Files + AllocGlobal>(files: &F, part: &str) -> Option<String> {
    let alloc = files.alloc();
    let (head, lines) = part.split_once('\n').unwrap_or((part, ""));
    if !head.starts_with("# ") {
        return told(alloc, String::from_str(alloc, "it has no name"));
    }
    if !lines.starts_with("$ ") {
        return schedule::fault_of(files, lines);
    }
    match Case::read(alloc, lines) {
        Ok(case) => case.wanted.fault_of(alloc, &case.run(files)),
        Err(line) => told(alloc, format!(in alloc; "this can't be read: {line}")),
    }
}

// Whether the fault is the one that its head tells, `# NAME: FAULT`.
fn is_told(head: &str, fault: &str) -> bool {
    head.split_once(": ").is_some_and(|(_, told)| told == fault)
}

fn first_line(part: &str) -> &str {
    part.lines().next().unwrap_or("")
}

// Runs what stands in a text, and prints what failed and how many there are. The answer is whether nothing failed.
fn run_text<R: Print + Files + AllocGlobal>(rt: &R, name: &str) -> io::Result<bool> {
    let text = fs::read_to_string(rt, format!(in rt.alloc(); "{name}.txt")?)?;
    let (mut ran, mut failed) = (0u64, 0u64);
    for part in text.trim_end().split("\n\n") {
        if let Some(fault) = fault_of(rt, part) {
            println!(rt; "FAILED {name} {}: {fault}", first_line(part))?;
            failed = failed.saturating_add(1);
        }
        ran = ran.saturating_add(1);
    }
    println!(rt; "{name}: {ran}, of which {failed} failed")?;
    Ok(failed == 0)
}

// Runs what has to fail, and prints what did not, and what failed otherwise.
fn run_wrong<R: Print + Files + AllocGlobal>(rt: &R) -> io::Result<bool> {
    let text = fs::read_to_string(rt, "wrong.txt")?;
    let (mut ran, mut passed) = (0u64, 0u64);
    for part in text.trim_end().split("\n\n") {
        let (head, fault) = (first_line(part), fault_of(rt, part));
        let is_told = match &fault {
            Some(fault) => is_told(head, fault.as_str()),
            None => false,
        };
        if !is_told {
            println!(rt; "FAILED wrong {head}: {fault:?}")?;
            passed = passed.saturating_add(1);
        }
        ran = ran.saturating_add(1);
    }
    println!(rt; "wrong: {ran}, of which {passed} did not fail so")?;
    Ok(passed == 0)
}

fn run_all<R: Print + Files + AllocGlobal>(rt: &R) -> io::Result<bool> {
    let mut is_well = true;
    for name in TEXTS {
        is_well &= run_text(rt, name)?;
    }
    Ok(run_wrong(rt)? && is_well)
}

fn main(rt: HostRuntime) -> ExitCode {
    match run_all(&rt) {
        Ok(true) => ExitCode::SUCCESS,
        Ok(false) => ExitCode::FAILURE,
        Err(error) => {
            let _ = eprintln!(&rt; "view_cases: {error}");
            ExitCode::FAILURE
        }
    }
}
