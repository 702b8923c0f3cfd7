//! What the program `judge_record` does: its command line, its streams and its status.

use super::{Source, words_of};
use crate::observed::{Answer, BadEvents, Observed, StopLine, linearize, parse_observed};
use crate::text::write_filled;
use crate::verdict::{LastCalls, VerdictLine, draw_verdict};
use once_judge::{Calls, Verdict, judge};
use once_machine::record::{Entry, Kind};
use once_script::parse::record::{BadRecord, parse_record};
use once_script::print::{FirstLine, FullLine};
use std::alloc::{AllocError, AllocGlobal};
use std::env::Env;
use std::fmt;
use std::fs::Files;
use std::io::{self, BufWriter, ErrorKind, Read, Write};
use std::process::ExitCode;

/// Why there is no verdict.
#[derive(Clone, Copy)]
enum Failure {
    /// The command line has a word too much, or too little.
    Usage,
    /// The text is no record.
    Text(BadRecord),
    /// This event does not fit those before it.
    Event(usize),
    /// The search for a run was ended at this event.
    GaveUp(usize),
    /// Memory was refused.
    Memory,
    /// A read or a write failed.
    Io,
}

impl Failure {
    /// The status that the process ends with.
    fn status(&self) -> u8 {
        match self {
            Failure::Usage | Failure::Text(BadRecord::Line(_, _)) | Failure::Event(_) => 2,
            Failure::Text(BadRecord::Memory) | Failure::Memory | Failure::GaveUp(_) | Failure::Io =>
                3,
        }
    }
}

impl fmt::Display for Failure {
    fn fmt<W: fmt::Write>(&self, f: &mut fmt::Formatter<W>) -> fmt::Result {
        match self {
            Failure::Usage => f.write_str(
                "usage: judge_record [--seen] [--calls one|all] [--why | --text | --svg] [FILE]",
            ),
            Failure::Text(BadRecord::Line(number, form)) => {
                write!(f, "line {number} is unreadable; expected: {form}")
            }
            Failure::Event(event) => write_filled(
                f,
                "event {} does not fit those before it, or its call does not end",
                &[(*event as u64).saturating_add(1)],
            ),
            Failure::GaveUp(event) => write_filled(
                f,
                "no run was found in so many steps; the farthest event was {}",
                &[(*event as u64).saturating_add(1)],
            ),
            Failure::Text(BadRecord::Memory) | Failure::Memory => f.write_str("out of memory"),
            Failure::Io => f.write_str("input or output failed"),
        }
    }
}

impl From<AllocError> for Failure {
    fn from(_error: AllocError) -> Failure {
        Failure::Memory
    }
}

impl From<BadRecord> for Failure {
    fn from(bad: BadRecord) -> Failure {
        Failure::Text(bad)
    }
}

impl From<BadEvents> for Failure {
    fn from(bad: BadEvents) -> Failure {
        match bad {
            BadEvents::At(event) => Failure::Event(event),
            BadEvents::Memory => Failure::Memory,
        }
    }
}

impl From<io::Error> for Failure {
    fn from(error: io::Error) -> Failure {
        if error.kind() == ErrorKind::OutOfMemory {
            Failure::Memory
        } else {
            Failure::Io
        }
    }
}

// How many choices a search may try.
const STEPS: u64 = 1_000_000;

/// What is printed.
#[derive(Clone, Copy)]
enum Form {
    /// The line of the verdict.
    Verdict,
    /// That line, and the last calls of the tasks that it names.
    Why,
    /// The text of the record.
    Text,
    /// A picture of it, as SVG.
    Picture,
}

/// What the command line asks for.
#[derive(Clone, Copy)]
struct Asked<'a> {
    /// What is printed.
    form: Form,
    /// The text is what was seen from outside.
    seen: bool,
    /// Whom a release without a value wakes.
    calls: Calls,
    /// The file, or the standard input.
    file: Option<&'a str>,
}

/// Whether a word before this one named the rule, which `calls` is.
#[derive(Clone, Copy)]
enum Rule {
    Unnamed,
    /// Its word comes next.
    Next,
    Named,
}

/// Judges the record in the file that the command line names, one of `files`, or else the one in the input; and prints
/// the verdict. The status is 0 for a run in which nobody is forgotten, and 1 for any other record. If there is no
/// verdict, one line on standard error says why: the status is 2 for a text that is no record, and 3 for refused memory
/// or a failed read or write.
///
/// ```
/// fn main(rt: HostRuntime) -> ExitCode {
///     judge_record(&rt, &rt, rt.reader())
/// }
/// ```
pub fn judge_record<R, F, I>(rt: &R, files: &F, input: I) -> ExitCode
where
    R: Env + Print + Eprint + AllocGlobal,
    F: Files + AllocGlobal,
    I: Read + Drop,
{
    match run(rt, files, input) {
        Ok(true) => ExitCode::from(0u8),
        Ok(false) => ExitCode::from(1u8),
        Err(failure) => {
            let _ = eprintln!(rt; "judge_record: {failure}");
            ExitCode::from(failure.status())
        }
    }
}

// Does what the command line asks for, and answers whether the record is a run in which nobody is forgotten.
fn run<R, F, I>(rt: &R, files: &F, input: I) -> Result<bool, Failure>
where
    R: Env + Print + AllocGlobal,
    F: Files + AllocGlobal,
    I: Read + Drop,
{
    let words = words_of(rt)?;
    match Asked::by(&words) {
        Some(asked) => read(rt, asked, &Source::of(asked.file).read(files, input)?),
        None => Err(Failure::Usage),
    }
}

// Reads the text: a record, or what was seen of a cell.
fn read<R: Print + AllocGlobal>(rt: &R, asked: Asked<'_>, text: &[u8]) -> Result<bool, Failure> {
    if asked.seen {
        let observed = parse_observed(rt.alloc(), text)?;
        find(rt, asked, &observed)
    } else {
        let record = parse_record(rt.alloc(), text)?;
        tell(rt, asked, &record.kind, record.limit, &record.entries)
    }
}

// Looks for a run that has what was seen.
fn find<R: Print + AllocGlobal>(
    rt: &R,
    asked: Asked<'_>,
    observed: &Observed,
) -> Result<bool, Failure> {
    let answer = linearize(rt.alloc(), observed, asked.calls, STEPS)?;
    tell_answer(rt, asked, observed, &answer)
}

// Tells of a run that was found as of a record, or says that there is none.
fn tell_answer<R: Print + AllocGlobal>(
    rt: &R,
    asked: Asked<'_>,
    observed: &Observed,
    answer: &Answer,
) -> Result<bool, Failure> {
    match answer {
        Answer::Run(entries) => tell(rt, asked, &observed.kind, observed.limit, entries),
        Answer::NoRun(stop) => {
            rt.println(StopLine(stop, &observed.events))?;
            Ok(false)
        }
        Answer::GaveUp(stop) => Err(Failure::GaveUp(stop.event)),
    }
}

// Judges these entries, prints what is asked for, and answers whether they are a run in which nobody is forgotten.
fn tell<R: Print + AllocGlobal>(
    rt: &R,
    asked: Asked<'_>,
    kind: &Kind,
    limit: u64,
    entries: &[Entry],
) -> Result<bool, Failure> {
    let verdict = judge(rt.alloc(), kind, limit, asked.calls, entries)?;
    let judged = Judged {
        kind,
        limit,
        entries,
        verdict,
    };
    judged.print(rt, asked.form)?;
    Ok(verdict.fault.is_none() && verdict.forgotten.is_none())
}

// A record with the verdict on it.
#[derive(Clone, Copy)]
struct Judged<'a> {
    kind: &'a Kind,
    limit: u64,
    entries: &'a [Entry],
    verdict: Verdict,
}

impl Judged<'_> {
    fn print<R: Print + AllocGlobal>(&self, rt: &R, form: Form) -> io::Result<()> {
        match form {
            Form::Verdict => rt.println(VerdictLine(&self.verdict, self.entries)),
            Form::Why => self.print_calls(rt),
            Form::Text => self.print_record(rt),
            Form::Picture => self.print_picture(rt),
        }
    }

    // Prints the line of the verdict, and the last calls.
    fn print_calls<R: Print>(&self, rt: &R) -> io::Result<()> {
        rt.println(VerdictLine(&self.verdict, self.entries))?;
        rt.print(LastCalls(&self.verdict, self.entries))
    }

    // Prints the text of the record.
    fn print_record<R: Print>(&self, rt: &R) -> io::Result<()> {
        rt.println(FirstLine(self.kind, self.limit))?;
        for entry in self.entries {
            rt.println(FullLine(entry))?;
        }
        Ok(())
    }

    // Prints the record as a picture, with the verdict on it.
    fn print_picture<R: Print + AllocGlobal>(&self, rt: &R) -> io::Result<()> {
        let Judged {
            kind,
            entries,
            verdict,
            ..
        } = *self;
        let mut output = BufWriter::new(rt.alloc(), io::writer(rt))?;
        draw_verdict(rt.alloc(), kind, entries, &verdict, &mut output)?;
        output.flush()
    }
}

impl<'a> Asked<'a> {
    // What these words ask for, of which the first is the name of the program.
    fn by(words: &'a [String]) -> Option<Asked<'a>> {
        let mut asked = Asked {
            form: Form::Verdict,
            seen: false,
            calls: Calls::One,
            file: None,
        };
        let mut rule = Rule::Unnamed;
        for word in words.iter().skip(1) {
            if !asked.take(&mut rule, word.as_str()) {
                return None;
            }
        }
        match rule {
            Rule::Next => None,
            Rule::Unnamed | Rule::Named => Some(asked),
        }
    }

    // Takes the next word. Answers whether it may stand there.
    fn take(&mut self, rule: &mut Rule, word: &'a str) -> bool {
        match (*rule, word) {
            (Rule::Next, _) => {
                *rule = Rule::Named;
                return self.take_rule(word);
            }
            (Rule::Unnamed, "--calls") => *rule = Rule::Next,
            _ if word.starts_with("--") => return self.take_option(word),
            _ if self.file.is_none() => self.file = Some(word),
            _ => return false,
        }
        true
    }

    fn take_option(&mut self, word: &str) -> bool {
        match (word, self.form) {
            ("--seen", _) if !self.seen => self.seen = true,
            ("--why", Form::Verdict) => self.form = Form::Why,
            ("--text", Form::Verdict) => self.form = Form::Text,
            ("--svg", Form::Verdict) => self.form = Form::Picture,
            _ => return false,
        }
        true
    }

    fn take_rule(&mut self, word: &str) -> bool {
        match word {
            "one" => self.calls = Calls::One,
            "all" => self.calls = Calls::All,
            _ => return false,
        }
        true
    }
}
