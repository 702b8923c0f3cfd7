//! The text of a record.
use crate::world::{Call, Entry, Got, Kind, Ran, Record, Reply};
use std::alloc::Global;
use std::io::{BufWriter, Write};
use std::{fmt, io};

/// Prints a line for each entry, and one for the queue.
///
/// ```
/// let record = replay_lines(alloc, kind, limit, &lines)?;
/// print_record(alloc, &record, output)?;
/// ```
pub fn print_record<O: Write + Drop>(alloc: Global, record: &Record, output: O) -> io::Result<()> {
    let mut output = BufWriter::new(alloc, output)?;
    for entry in &record.entries {
        writeln!(output, "{}", EntryLine(entry))?;
    }
    writeln!(output, "{}", QueueText(record.queue))?;
    output.flush()
}

/// Prints the same as the text of a record: the first line of its script stands before it, and the lines of the owner's
/// calls tell what the calls bring. `parse_record` reads it.
///
/// ```
/// let first = format!(in alloc; "{}", FirstLine(&kind, limit))?; // the kind is for the replay
/// let record = replay_lines(alloc, kind, limit, &lines)?;
/// print_full(alloc, first.as_str(), &record, output)?;
/// ```
pub fn print_full<O: Write + Drop>(
    alloc: Global,
    first: &str,
    record: &Record,
    output: O,
) -> io::Result<()> {
    let mut output = BufWriter::new(alloc, output)?;
    writeln!(output, "{first}")?;
    for entry in &record.entries {
        writeln!(output, "{}", FullLine(entry))?;
    }
    writeln!(output, "{}", QueueText(record.queue))?;
    output.flush()
}

/// The first line of a script of a cell of this kind, with this limit, without its end.
///
/// ```
/// let first = format!(in alloc; "{}", FirstLine(&kind, limit))?; // `once 8 with 4`
/// ```
#[derive(Clone, Copy)]
pub struct FirstLine<'a>(pub &'a Kind, pub u64);

impl fmt::Display for FirstLine<'_> {
    fn fmt<W: fmt::Write>(&self, f: &mut fmt::Formatter<W>) -> fmt::Result {
        let limit = self.1;
        match self.0 {
            Kind::Once => write!(f, "once {limit}"),
            Kind::OnceWith(value) => write!(f, "once {limit} with {value}"),
            Kind::Lazy(answers) => {
                write!(f, "lazy {limit}")?;
                for answer in answers {
                    write!(f, " {}", AnswerText(*answer))?;
                }
                Ok(())
            }
            Kind::LazyWith(value) => write!(f, "lazy {limit} with {value}"),
        }
    }
}

/// The line of an entry, without its end, in which a call of the owner tells what it brings.
///
/// ```
/// for entry in &record.entries {
///     writeln!(output, "{}", FullLine(entry))?; // `own write 7 v4`, for which `EntryLine` has `own write v4`
/// }
/// ```
#[derive(Clone, Copy)]
pub struct FullLine<'a>(pub &'a Entry);

impl fmt::Display for FullLine<'_> {
    fn fmt<W: fmt::Write>(&self, f: &mut fmt::Formatter<W>) -> fmt::Result {
        match self.0 {
            Entry::Own(call, got) => write!(f, "own {} {}", CallText(call), GotText(got)),
            _ => write!(f, "{}", EntryLine(self.0)),
        }
    }
}

/// A call of the owner, with what it brings.
#[derive(Clone, Copy)]
struct CallText<'a>(&'a Call);

impl fmt::Display for CallText<'_> {
    fn fmt<W: fmt::Write>(&self, f: &mut fmt::Formatter<W>) -> fmt::Result {
        f.write_str(call_word(self.0))?;
        match self.0 {
            Call::Take | Call::Parts => Ok(()),
            Call::Write(value) => write!(f, " {value}"),
            Call::ReplaceValue(value) => write!(f, " with {value}"),
            Call::ReplaceAnswers(answers) => write!(f, " {}", Answers(answers)),
        }
    }
}

/// The line of an entry, without its end.
///
/// ```
/// for entry in &record.entries {
///     writeln!(output, "{}", EntryLine(entry))?;
/// }
/// ```
#[derive(Clone, Copy)]
pub struct EntryLine<'a>(pub &'a Entry);

impl EntryLine<'_> {
    /// The word that the line begins with.
    fn word(&self) -> &'static str {
        match self.0 {
            Entry::Made(_) => "made",
            Entry::Begin(_, _) => "begin",
            Entry::Claim(_) => "claim",
            Entry::Ran(_, _) => "ran",
            Entry::Free(_, _) => "free",
            Entry::Fill(_, _, _) => "fill",
            Entry::Pass(_, _) => "pass",
            Entry::End(_, _) => "end",
            Entry::DropBegin(_) => "dropbegin",
            Entry::DropEnd(_) => "dropend",
            Entry::Look(_) => "look",
            Entry::Own(_, _) => "own",
        }
    }
}

impl fmt::Display for EntryLine<'_> {
    fn fmt<W: fmt::Write>(&self, f: &mut fmt::Formatter<W>) -> fmt::Result {
        f.write_str(self.word())?;
        match self.0 {
            Entry::Made(task)
            | Entry::Claim(task)
            | Entry::DropBegin(task)
            | Entry::DropEnd(task) => write!(f, " {task}"),
            Entry::Begin(task, waker) => write!(f, " {task} {waker}"),
            Entry::Ran(task, answer) => write!(f, " {task} {}", RanText(*answer)),
            Entry::Free(task, wakers) | Entry::Pass(task, wakers) => {
                write!(f, " {task} {}", Wakers(wakers))
            }
            Entry::Fill(task, value, wakers) => write!(f, " {task} {value} {}", Wakers(wakers)),
            Entry::End(task, reply) => write!(f, " {task} {}", ReplyText(*reply)),
            Entry::Look(value) => write!(f, " {}", ValueText(*value)),
            Entry::Own(call, got) => write!(f, " {} {}", call_word(call), GotText(got)),
        }
    }
}

/// What one poll of an init answered.
#[derive(Clone, Copy)]
struct RanText(Ran);

impl fmt::Display for RanText {
    fn fmt<W: fmt::Write>(&self, f: &mut fmt::Formatter<W>) -> fmt::Result {
        match self.0 {
            Ran::Pending => f.write_str("p"),
            Ran::Value(value) => write!(f, "v{value}"),
            Ran::Error(error) => write!(f, "e{error}"),
        }
    }
}

/// What a poll of a task answered.
#[derive(Clone, Copy)]
struct ReplyText(Reply);

impl fmt::Display for ReplyText {
    fn fmt<W: fmt::Write>(&self, f: &mut fmt::Formatter<W>) -> fmt::Result {
        match self.0 {
            Reply::Pending => f.write_str("p"),
            Reply::Value(value) => write!(f, "v{value}"),
            Reply::Error(error) => write!(f, "e{error}"),
            Reply::Memory => f.write_str("memory"),
            Reply::Full => f.write_str("full"),
        }
    }
}

/// A value that is there or not.
#[derive(Clone, Copy)]
struct ValueText(Option<u64>);

impl fmt::Display for ValueText {
    fn fmt<W: fmt::Write>(&self, f: &mut fmt::Formatter<W>) -> fmt::Result {
        match self.0 {
            None => f.write_str("none"),
            Some(value) => write!(f, "v{value}"),
        }
    }
}

/// The line of the queue at the end, without its end.
#[derive(Clone, Copy)]
struct QueueText(Option<u64>);

impl fmt::Display for QueueText {
    fn fmt<W: fmt::Write>(&self, f: &mut fmt::Formatter<W>) -> fmt::Result {
        match self.0 {
            None => f.write_str("queue none"),
            Some(queue) => write!(f, "queue {queue}"),
        }
    }
}

/// The word for a call of the owner.
///
/// ```
/// Call::Take if lazy => Some(Reason::NotOfLazy(call_word(call))), // the word is `take`
/// ```
pub fn call_word(call: &Call) -> &'static str {
    match call {
        Call::Take => "take",
        Call::Write(_) => "write",
        Call::Parts => "parts",
        Call::ReplaceValue(_) | Call::ReplaceAnswers(_) => "replace",
    }
}

/// What a call of the owner was given.
#[derive(Clone, Copy)]
struct GotText<'a>(&'a Got);

impl fmt::Display for GotText<'_> {
    fn fmt<W: fmt::Write>(&self, f: &mut fmt::Formatter<W>) -> fmt::Result {
        match self.0 {
            Got::None => f.write_str("none"),
            Got::Value(value) => write!(f, "v{value}"),
            Got::Answers(answers) => write!(f, "{}", Answers(answers)),
        }
    }
}

/// A list of wakers, in brackets.
#[derive(Clone, Copy)]
struct Wakers<'a>(&'a [u64]);

impl fmt::Display for Wakers<'_> {
    fn fmt<W: fmt::Write>(&self, f: &mut fmt::Formatter<W>) -> fmt::Result {
        f.write_str("[")?;
        for (index, waker) in self.0.iter().enumerate() {
            let gap = if index == 0 { "" } else { " " };
            write!(f, "{gap}{waker}")?;
        }
        f.write_str("]")
    }
}

/// One of an init's answers.
#[derive(Clone, Copy)]
struct AnswerText(Option<u64>);

impl fmt::Display for AnswerText {
    fn fmt<W: fmt::Write>(&self, f: &mut fmt::Formatter<W>) -> fmt::Result {
        match self.0 {
            None => f.write_str("p"),
            Some(value) => write!(f, "v{value}"),
        }
    }
}

/// A list of an init's answers, in brackets.
#[derive(Clone, Copy)]
struct Answers<'a>(&'a [Option<u64>]);

impl fmt::Display for Answers<'_> {
    fn fmt<W: fmt::Write>(&self, f: &mut fmt::Formatter<W>) -> fmt::Result {
        f.write_str("[")?;
        for (index, answer) in self.0.iter().enumerate() {
            let gap = if index == 0 { "" } else { " " };
            write!(f, "{gap}{}", AnswerText(*answer))?;
        }
        f.write_str("]")
    }
}
