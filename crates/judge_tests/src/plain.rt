//! The definitions of a run, computed plainly: each word anew from the entries, with nothing kept from one entry to the
//! next. A history has the oldest entry first here. The words are those of `once_machine`, where they are explained.

mod legal;

use once_judge::Calls;
use once_machine::record::{Call, Entry, Kind, Ran, Reply};

/// What a cell is.
#[derive(Clone, Copy, PartialEq, Eq)]
enum Cell {
    Empty,
    Held(u64),
    SetTo(u64),
}

/// What a task is at.
#[derive(Clone, Copy, PartialEq, Eq)]
enum Status {
    Unmade,
    Fresh,
    Polling,
    Dropping,
    Waiting,
    Holding,
    Gone,
}

/// A task's last call.
#[derive(Clone, Copy)]
struct LastCall {
    waker: u64,
    listed: u64,
    began: Status,
    set_then: bool,
    claimed: bool,
    freed: bool,
    passed: bool,
    ran: Option<Ran>,
}

const NO_CALL: LastCall = LastCall {
    waker: 0,
    listed: 0,
    began: Status::Unmade,
    set_then: false,
    claimed: false,
    freed: false,
    passed: false,
    ran: None,
};

/// A cell of this kind, in which so many tasks may be counted in, and whose releases without a value wake one task or
/// all.
#[derive(Clone, Copy)]
pub struct Rules<'a> {
    pub kind: &'a Kind,
    pub limit: u64,
    pub calls: Calls,
}

fn task_of(entry: &Entry) -> Option<u64> {
    match entry {
        Entry::Made(t)
        | Entry::Begin(t, _)
        | Entry::Claim(t)
        | Entry::Ran(t, _)
        | Entry::Free(t, _)
        | Entry::Fill(t, _, _)
        | Entry::Pass(t, _)
        | Entry::End(t, _)
        | Entry::DropBegin(t)
        | Entry::DropEnd(t) => Some(*t),
        Entry::Look(_) | Entry::Own(_, _) => None,
    }
}

fn handed_by<'e>(entry: &'e Entry) -> &'e [u64] {
    match entry {
        Entry::Free(_, wakers) | Entry::Fill(_, _, wakers) | Entry::Pass(_, wakers) => wakers,
        _ => &[],
    }
}

fn is_replacing(entry: &Entry) -> bool {
    matches!(entry, Entry::Own(call, _) if !matches!(call, Call::Write(_)))
}

fn times_in(waker: u64, wakers: &[u64]) -> usize {
    wakers.iter().filter(|w| **w == waker).count()
}

// What an entry makes of the cell.
fn cell_after(entry: &Entry, cell: Cell) -> Cell {
    match (entry, cell) {
        (Entry::Claim(t), _) => Cell::Held(*t),
        (Entry::Fill(_, v, _) | Entry::Own(Call::ReplaceValue(v), _), _) => Cell::SetTo(*v),
        (Entry::Own(Call::Write(v), _), Cell::SetTo(_)) => Cell::SetTo(*v),
        (Entry::Own(Call::Write(_), _), _) => cell,
        (Entry::Free(_, _) | Entry::Own(_, _), _) => Cell::Empty,
        _ => cell,
    }
}

// What an entry makes of the answers that the init has left.
fn left_after<'e>(entry: &'e Entry, left: &'e [Option<u64>]) -> &'e [Option<u64>] {
    match entry {
        Entry::Ran(_, _) => left.get(1..).unwrap_or(&[]),
        Entry::Own(Call::Parts | Call::ReplaceValue(_), _) => &[],
        Entry::Own(Call::ReplaceAnswers(answers), _) => answers,
        _ => left,
    }
}

impl<'a> Rules<'a> {
    fn cell(self, h: &[Entry]) -> Cell {
        let mut cell = match self.kind {
            Kind::Once | Kind::Lazy(_) => Cell::Empty,
            Kind::OnceWith(v) | Kind::LazyWith(v) => Cell::SetTo(*v),
        };
        for entry in h {
            cell = cell_after(entry, cell);
        }
        cell
    }

    fn answers_left<'e>(self, h: &'e [Entry]) -> &'e [Option<u64>]
    where
        'a: 'e,
    {
        let mut left: &'e [Option<u64>] = match self.kind {
            Kind::Lazy(answers) => answers,
            _ => &[],
        };
        for entry in h {
            left = left_after(entry, left);
        }
        left
    }

    fn other_holds(self, t: u64, h: &[Entry]) -> bool {
        matches!(self.cell(h), Cell::Held(u) if u != t)
    }

    fn status(self, t: u64, h: &[Entry]) -> Status {
        let mut status = Status::Unmade;
        for (index, entry) in h.iter().enumerate() {
            if task_of(entry) == Some(t) {
                status = match entry {
                    Entry::Made(_) => Status::Fresh,
                    Entry::Begin(_, _) => Status::Polling,
                    Entry::DropBegin(_) => Status::Dropping,
                    Entry::End(_, Reply::Pending) => self.rests(t, &h[..index]),
                    Entry::End(_, _) | Entry::DropEnd(_) => Status::Gone,
                    _ => status,
                };
            }
        }
        status
    }

    // What a task is at whose poll ends Pending after the entries `h`.
    fn rests(self, t: u64, h: &[Entry]) -> Status {
        match self.cell(h) {
            Cell::Held(u) if u == t => Status::Holding,
            Cell::Held(_) => Status::Waiting,
            _ => Status::Gone,
        }
    }

    fn last_call(self, t: u64, h: &[Entry]) -> LastCall {
        let mut call = NO_CALL;
        for (index, entry) in h.iter().enumerate() {
            if task_of(entry) == Some(t) {
                match entry {
                    Entry::Begin(_, waker) => call = self.begun(*waker, call, t, &h[..index]),
                    Entry::DropBegin(_) => call = self.begun(call.waker, call, t, &h[..index]),
                    Entry::Claim(_) => call.claimed = true,
                    Entry::Free(_, _) => call.freed = true,
                    Entry::Pass(_, _) => call.passed = true,
                    Entry::Ran(_, answer) => call.ran = Some(*answer),
                    Entry::End(_, Reply::Pending) => call.listed = call.waker,
                    _ => {}
                }
            }
        }
        call
    }

    // The call with this waker that a task begins after the entries `h`, and after this call.
    fn begun(self, waker: u64, before: LastCall, t: u64, h: &[Entry]) -> LastCall {
        LastCall {
            waker,
            listed: before.listed,
            began: self.status(t, h),
            set_then: value_in(self.cell(h)).is_some(),
            ..NO_CALL
        }
    }

    fn was_handed_since(self, t: u64, waker: u64, h: &[Entry]) -> bool {
        for entry in h.iter().rev() {
            if matches!(entry, Entry::End(u, _) if *u == t) {
                return false;
            }
            if handed_by(entry).contains(&waker) {
                return true;
            }
        }
        false
    }

    /// Whether the waker is due.
    pub fn is_due(self, waker: u64, h: &[Entry]) -> bool {
        h.iter().filter_map(task_of).any(|t| {
            self.status(t, h) == Status::Waiting
                && self.last_call(t, h).waker == waker
                && !self.was_handed_since(t, waker, h)
        })
    }

    fn is_open(self, waker: u64, h: &[Entry]) -> bool {
        let (mut opened, mut handed) = (0usize, 0usize);
        for (index, entry) in h.iter().enumerate() {
            if is_replacing(entry) {
                (opened, handed) = (0, 0);
            }
            handed = handed.saturating_add(times_in(waker, handed_by(entry)));
            if self.opens(entry, waker, &h[..index]) {
                opened = opened.saturating_add(1);
            }
        }
        handed < opened
    }

    // Whether an entry after these ends a poll with this waker, whose task waits from then on.
    fn opens(self, entry: &Entry, waker: u64, h: &[Entry]) -> bool {
        matches!(entry, Entry::End(t, Reply::Pending)
            if self.other_holds(*t, h) && self.last_call(*t, h).waker == waker)
    }

    // Whether some waker is due that is not among these.
    fn is_due_outside(self, wakers: &[u64], h: &[Entry]) -> bool {
        h.iter().any(|entry| matches!(entry, Entry::Begin(_, waker)
            if !wakers.contains(waker) && self.is_due(*waker, h)))
    }

    fn hands_out(self, wakers: &[u64], h: &[Entry]) -> bool {
        wakers.iter().all(|waker| times_in(*waker, wakers) == 1 && self.is_open(*waker, h))
            && !self.is_due_outside(wakers, h)
    }

    // Whether a release without a value may hand these out.
    fn frees_to(self, wakers: &[u64], h: &[Entry]) -> bool {
        match (self.calls, wakers) {
            (Calls::All, _) => self.hands_out(wakers, h),
            (Calls::One, []) => !self.is_due_outside(&[], h),
            (Calls::One, [waker]) => self.is_open(*waker, h),
            (Calls::One, _) => false,
        }
    }
}

fn value_in(cell: Cell) -> Option<u64> {
    match cell {
        Cell::SetTo(v) => Some(v),
        _ => None,
    }
}
