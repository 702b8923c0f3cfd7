//! A verdict in words, and as a picture of the record that was judged.

mod drawn;
mod last_calls;

use crate::text::write_filled;
pub use drawn::draw_verdict;
pub use last_calls::LastCalls;
use once_judge::{CallFact, Cell, Fault, Forgotten, Reason, Status, Verdict, WakersFact};
use once_machine::record::{Entry, Ran};
use once_script::print::EntryLine;
use std::fmt::{self, Display};

/// The line of a verdict on these entries, without its end.
///
/// ```
/// rt.println(VerdictLine(&self.verdict, self.entries))?; // `run, 12 entries, nobody forgotten`
/// ```
#[derive(Clone, Copy)]
pub struct VerdictLine<'a>(pub &'a Verdict, pub &'a [Entry]);

impl fmt::Display for VerdictLine<'_> {
    fn fmt<W: fmt::Write>(&self, f: &mut fmt::Formatter<W>) -> fmt::Result {
        let VerdictLine(verdict, entries) = *self;
        match (verdict.fault, verdict.forgotten) {
            (None, None) => {
                write_filled(
                    f,
                    "run, {} entries, nobody forgotten",
                    &[entries.len() as u64],
                )
            }
            (None, Some(forgotten)) => ForgottenText("run, but ", forgotten).fmt(f),
            (Some(fault), None) => FaultText(fault, entries).fmt(f),
            (Some(fault), Some(forgotten)) => {
                FaultText(fault, entries).fmt(f)?;
                ForgottenText("; and before it, ", forgotten).fmt(f)
            }
        }
    }
}

/// A task that was forgotten, and when, after these words.
#[derive(Clone, Copy)]
struct ForgottenText(&'static str, Forgotten);

impl fmt::Display for ForgottenText {
    fn fmt<W: fmt::Write>(&self, f: &mut fmt::Formatter<W>) -> fmt::Result {
        let ForgottenText(words, Forgotten { entry, task }) = *self;
        let numbers = [(entry as u64).saturating_add(1), task];
        f.write_str(words)?;
        write_filled(
            f,
            "after entry {} task {} waits and nobody was called",
            &numbers,
        )
    }
}

/// A fault of these entries.
#[derive(Clone, Copy)]
struct FaultText<'a>(Fault, &'a [Entry]);

impl fmt::Display for FaultText<'_> {
    fn fmt<W: fmt::Write>(&self, f: &mut fmt::Formatter<W>) -> fmt::Result {
        let FaultText(Fault { entry, reason }, entries) = *self;
        write_filled(f, "entry {}", &[(entry as u64).saturating_add(1)])?;
        if let Some(entry) = entries.get(entry) {
            write!(f, ", {}", EntryLine(entry))?;
        }
        write!(f, ": {}", ReasonText(reason))
    }
}

/// Why an entry may not come next, in words: what is so, and forbids it.
#[derive(Clone, Copy)]
pub struct ReasonText(pub Reason);

impl fmt::Display for ReasonText {
    fn fmt<W: fmt::Write>(&self, f: &mut fmt::Formatter<W>) -> fmt::Result {
        match self.0 {
            Reason::TaskIs(task, status) => write_filled(f, status_form(status), &[task]),
            Reason::CellIs(cell) => CellText(cell).fmt(f),
            Reason::OfCall(task, fact) => CallText(task, fact).fmt(f),
            Reason::OfWakers(fact) => WakersText(fact).fmt(f),
            Reason::NextAnswer(Ran::Value(value)) => {
                write_filled(f, "the next answer of the init is the value {}", &[value])
            }
            Reason::NextAnswer(_) => f.write_str("the next answer of the init is Pending"),
            Reason::AnswersLeft(count) => {
                let form = "the cell is not set, and the init has {} answers left";
                write_filled(f, form, &[count as u64])
            }
            Reason::NoSuchCall => f.write_str("a cell of this kind has no such call"),
        }
    }
}

/// What is so of a call of this task.
#[derive(Clone, Copy)]
struct CallText(u64, CallFact);

impl fmt::Display for CallText {
    fn fmt<W: fmt::Write>(&self, f: &mut fmt::Formatter<W>) -> fmt::Result {
        let CallText(task, fact) = *self;
        write_filled(f, call_form(fact), &[task])?;
        match fact {
            CallFact::InitAnswered(answer) => InitText(answer).fmt(f),
            _ => Ok(()),
        }
    }
}

/// What is so of a call, with a place for its task. What its init did comes after it.
fn call_form(fact: CallFact) -> &'static str {
    match fact {
        CallFact::InitAnswered(_) => "in this call the init of task {} ",
        CallFact::Claimed => "in this call task {} claimed",
        CallFact::Passed => "in this call task {} passed its turn on",
        CallFact::NotFreed => "in this call task {} did not give the right back",
        CallFact::NoCauseForMemory => {
            "nothing was so since this poll of task {} began for which memory may be refused"
        }
        CallFact::NoCrowd => {
            "since this poll of task {} began fewer other tasks than the limit were about"
        }
        CallFact::NotFirstPoll => "this is not the first poll of task {}",
    }
}

/// What is so of the wakers that an entry hands out.
#[derive(Clone, Copy)]
struct WakersText(WakersFact);

impl fmt::Display for WakersText {
    fn fmt<W: fmt::Write>(&self, f: &mut fmt::Formatter<W>) -> fmt::Result {
        match self.0 {
            WakersFact::NotOpen(waker) => write_filled(f, "waker {} is not open", &[waker]),
            WakersFact::Twice(waker) => write_filled(f, "waker {} is handed out twice", &[waker]),
            WakersFact::Due(task, waker) => {
                let form = "task {} waits, and its waker {} is not handed out";
                write_filled(f, form, &[task, waker])
            }
            WakersFact::Count(count) => {
                write_filled(f, "it hands {} wakers out, and not one", &[count as u64])
            }
        }
    }
}

/// What a cell is.
#[derive(Clone, Copy)]
struct CellText(Cell);

impl fmt::Display for CellText {
    fn fmt<W: fmt::Write>(&self, f: &mut fmt::Formatter<W>) -> fmt::Result {
        match self.0 {
            Cell::Empty => f.write_str("the cell is empty"),
            Cell::Held(task) => write_filled(f, "task {} holds", &[task]),
            Cell::SetTo(value) => write_filled(f, "the cell is set to {}", &[value]),
        }
    }
}

/// What an init did.
#[derive(Clone, Copy)]
struct InitText(Option<Ran>);

impl fmt::Display for InitText {
    fn fmt<W: fmt::Write>(&self, f: &mut fmt::Formatter<W>) -> fmt::Result {
        match self.0 {
            None => f.write_str("was not polled"),
            Some(Ran::Pending) => f.write_str("answered Pending"),
            Some(Ran::Value(value)) => write_filled(f, "gave {}", &[value]),
            Some(Ran::Error(error)) => write_filled(f, "failed with {}", &[error]),
        }
    }
}

/// What a task is at, with a place for the task.
fn status_form(status: Status) -> &'static str {
    match status {
        Status::Unmade => "task {} was not made",
        Status::Fresh => "task {} made no call yet",
        Status::Polling => "task {} is in a poll",
        Status::Dropping => "task {} is in a drop",
        Status::Waiting => "task {} waits, and is in no call",
        Status::Holding => "task {} holds, and is in no call",
        Status::Gone => "task {} is gone",
    }
}
