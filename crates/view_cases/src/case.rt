//! A case: what a program is given, and what has to come of it.

use crate::host::{Given, Host};
use crate::left::{Left, Part, Wanted};
use crate::text::{byte_of, counted, with_lines};
use once_script::replay;
use once_view::program::{judge_record, show_script};
use std::alloc::{AllocGlobal, Global};
use std::fs::Files;
use std::io::ErrorKind;

/// A program.
#[derive(Clone, Copy)]
pub enum Program {
    Replay,
    Show,
    Judge,
}

impl Program {
    fn of(name: &str) -> Option<Self> {
        match name {
            "once_replay" => Some(Program::Replay),
            "once_show" => Some(Program::Show),
            "judge_record" => Some(Program::Judge),
            _ => None,
        }
    }
}

/// A case.
#[derive(Drop)]
pub struct Case<'t> {
    program: Program,
    words: Vec<&'t str>,
    input: Vec<u8>,
    // How a read fails, and how many come before it; and how each write fails.
    read: Option<(ErrorKind, u64)>,
    write: Option<ErrorKind>,
    /// What has to be left.
    pub wanted: Wanted<'t>,
}

impl<'t> Case<'t> {
    /// Reads the lines of a case after the first. An error is the first that can't be read: it has an unknown mark, or
    /// another form, or memory was refused.
    pub fn read(alloc: Global, text: &'t str) -> Result<Self, &'t str> {
        let mut lines = text.split('\n');
        let call = lines.next().unwrap_or("");
        let Some(mut case) = Case::of_call(alloc, call) else {
            return Err(call);
        };
        for line in lines {
            if !case.take(alloc, line) {
                return Err(line);
            }
        }
        Ok(case)
    }

    // The case that begins with this line, `$ PROGRAM WORD ..`.
    fn of_call(alloc: Global, line: &'t str) -> Option<Self> {
        let mut words = line.strip_prefix("$ ")?.split(' ');
        let program = Program::of(words.next().unwrap_or(""))?;
        Some(Case {
            program,
            words: words.collect(alloc).ok()?,
            input: Vec::new(alloc),
            read: None,
            write: None,
            wanted: Wanted::nothing(alloc),
        })
    }

    // Takes one more line. The answer is whether it can be read, here and below.
    fn take(&mut self, alloc: Global, line: &'t str) -> bool {
        let (mark, rest) = line.split_once(' ').unwrap_or((line, ""));
        match mark {
            "<" => self.give(with_lines(alloc, rest)),
            "<*" => self.give(counted(alloc, rest)),
            "<x" => self.give_bytes(rest),
            "!" => self.fail(rest),
            "=" => self.end(rest),
            _ => self.want(alloc, mark, rest),
        }
    }

    // Takes one more line, which says what is printed or said.
    fn want(&mut self, alloc: Global, mark: &str, rest: &'t str) -> bool {
        match mark {
            ">" => add(&mut self.wanted.printed, with_lines(alloc, rest)),
            ">*" => add(&mut self.wanted.printed, counted(alloc, rest)),
            "2>" => add(&mut self.wanted.said, with_lines(alloc, rest)),
            "+" => self.want_part(Part::Printed(rest)),
            "-" => self.want_part(Part::NotPrinted(rest)),
            "2+" => self.want_part(Part::Said(rest)),
            _ => false,
        }
    }

    fn want_part(&mut self, part: Part<'t>) -> bool {
        self.wanted.parts.push(part).is_ok()
    }

    fn give(&mut self, text: Option<String>) -> bool {
        match text {
            Some(text) => self.input.extend_from_slice(text.as_bytes()).is_ok(),
            None => false,
        }
    }

    fn give_bytes(&mut self, rest: &str) -> bool {
        let mut is_read = true;
        for word in rest.split(' ') {
            is_read &= self.give_byte(byte_of(word));
        }
        is_read
    }

    fn give_byte(&mut self, byte: Option<u8>) -> bool {
        match byte {
            Some(byte) => self.input.push(byte).is_ok(),
            None => false,
        }
    }

    fn end(&mut self, status: &str) -> bool {
        match status.parse() {
            Ok(status) => {
                self.wanted.status = status;
                true
            }
            Err(_) => false,
        }
    }

    // Takes what fails: `read KIND`, `read KIND NUMBER` or `write KIND`.
    fn fail(&mut self, line: &str) -> bool {
        let (stream, failure) = line.split_once(' ').unwrap_or((line, ""));
        match stream {
            "read" => {
                self.read = read_failure(failure);
                self.read.is_some()
            }
            "write" => {
                self.write = kind_of(failure);
                self.write.is_some()
            }
            _ => false,
        }
    }

    /// Runs the program.
    pub fn run<F: Files + AllocGlobal>(&self, files: &F) -> Left {
        let host = Host::new(files.alloc(), self.words.as_slice(), self.write);
        let input = Given {
            text: self.input.as_slice(),
            failure: self.read,
        };
        run_on(files, self.program, host, input)
    }
}

fn add(text: &mut String, more: Option<String>) -> bool {
    match more {
        Some(more) => text.push_str(more.as_str()).is_ok(),
        None => false,
    }
}

// How a read fails, and how many come before it.
fn read_failure(text: &str) -> Option<(ErrorKind, u64)> {
    let (kind, number) = text.split_once(' ').unwrap_or((text, "1"));
    let number: u64 = number.parse().ok()?;
    Some((kind_of(kind)?, number.checked_sub(1)?))
}

fn kind_of(word: &str) -> Option<ErrorKind> {
    match word {
        "reset" => Some(ErrorKind::ConnectionReset),
        "timeout" => Some(ErrorKind::TimedOut),
        "interrupted" => Some(ErrorKind::Interrupted),
        "memory" => Some(ErrorKind::OutOfMemory),
        "full" => Some(ErrorKind::StorageFull),
        "pipe" => Some(ErrorKind::BrokenPipe),
        _ => None,
    }
}

/// Runs a program with these words and this input, where nothing fails.
pub fn run_program<F: Files + AllocGlobal>(
    files: &F,
    program: Program,
    words: &[&str],
    input: &[u8],
) -> Left {
    let input = Given {
        text: input,
        failure: None,
    };
    run_on(files, program, Host::new(files.alloc(), words, None), input)
}

fn run_on<F: Files + AllocGlobal>(
    files: &F,
    program: Program,
    host: Host<'_>,
    input: Given<'_>,
) -> Left {
    let status = match program {
        Program::Replay => replay(&host, input),
        Program::Show => show_script(&host, files, input),
        Program::Judge => judge_record(&host, files, input),
    };
    let (printed, said) = host.into_texts();
    Left {
        status,
        printed,
        said,
    }
}
