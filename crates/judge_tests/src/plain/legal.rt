//! Which entry may come next, and where somebody is forgotten.

use super::{Cell, LastCall, Rules, Status, task_of, value_in};
use once_machine::record::{Call, Entry, Got, Kind, Ran, Reply};

impl Rules<'_> {
    /// The number of the first entry that may not come next, counted from 0.
    pub fn first_fault(self, entries: &[Entry]) -> Option<usize> {
        for (index, entry) in entries.iter().enumerate() {
            if !self.may_follow(entry, &entries[..index]) {
                return Some(index);
            }
        }
        None
    }

    /// The number of the first of these entries after which somebody is forgotten.
    pub fn first_forgotten(self, entries: &[Entry]) -> Option<usize> {
        for index in 0..entries.len() {
            if !self.somebody_called(&entries[..index.saturating_add(1)]) {
                return Some(index);
            }
        }
        None
    }

    // Whether the entry may come after these.
    fn may_follow(self, entry: &Entry, h: &[Entry]) -> bool {
        match entry {
            Entry::Made(t) => self.status(*t, h) == Status::Unmade,
            Entry::Begin(t, _) | Entry::DropBegin(t) => may_begin(self.status(*t, h)),
            Entry::Claim(t) => self.may_claim(*t, h),
            Entry::Ran(t, answer) => self.may_run(*t, *answer, h),
            Entry::Free(t, wakers) => self.may_free(*t, wakers, h),
            Entry::Fill(t, v, wakers) => self.may_fill(*t, *v, wakers, h),
            Entry::Pass(t, wakers) => self.may_pass(*t, wakers, h),
            Entry::End(t, reply) => self.may_end(*t, *reply, h),
            Entry::DropEnd(t) => self.status(*t, h) == Status::Dropping && !self.holds(*t, h),
            Entry::Look(found) => *found == value_in(self.cell(h)),
            Entry::Own(call, got) => self.may_own(call, got, h),
        }
    }

    fn holds(self, t: u64, h: &[Entry]) -> bool {
        self.cell(h) == Cell::Held(t)
    }

    // Whether a task is in a poll whose init was not polled yet.
    fn is_unrun(self, t: u64, h: &[Entry]) -> bool {
        self.status(t, h) == Status::Polling && self.last_call(t, h).ran.is_none()
    }

    fn may_claim(self, t: u64, h: &[Entry]) -> bool {
        self.cell(h) == Cell::Empty && self.is_unrun(t, h) && !self.last_call(t, h).passed
    }

    fn may_run(self, t: u64, answer: Ran, h: &[Entry]) -> bool {
        self.holds(t, h) && self.is_unrun(t, h) && self.is_next(answer, h)
    }

    fn is_next(self, answer: Ran, h: &[Entry]) -> bool {
        match self.kind {
            Kind::Once | Kind::OnceWith(_) => true,
            Kind::Lazy(_) | Kind::LazyWith(_) => match self.answers_left(h).first() {
                Some(Some(v)) => answer == Ran::Value(*v),
                _ => answer == Ran::Pending,
            },
        }
    }

    fn may_free(self, t: u64, wakers: &[u64], h: &[Entry]) -> bool {
        let may = match self.status(t, h) {
            Status::Dropping => true,
            Status::Polling => matches!(self.last_call(t, h).ran, Some(Ran::Error(_))),
            _ => false,
        };
        may && self.holds(t, h) && self.frees_to(wakers, h)
    }

    fn may_fill(self, t: u64, v: u64, wakers: &[u64], h: &[Entry]) -> bool {
        self.holds(t, h)
            && self.status(t, h) == Status::Polling
            && self.last_call(t, h).ran == Some(Ran::Value(v))
            && self.hands_out(wakers, h)
    }

    fn may_pass(self, t: u64, wakers: &[u64], h: &[Entry]) -> bool {
        let call = self.last_call(t, h);
        let may = match self.status(t, h) {
            Status::Dropping => true,
            Status::Polling => !call.claimed && call.ran.is_none(),
            _ => false,
        };
        let is_one = matches!(wakers, [waker] if self.is_open(*waker, h));
        may && !call.passed && self.cell(h) == Cell::Empty && is_one
    }

    // A call that passed its turn on may only end for want of memory.
    fn may_end(self, t: u64, reply: Reply, h: &[Entry]) -> bool {
        let call = self.last_call(t, h);
        self.status(t, h) == Status::Polling
            && (!call.passed || reply == Reply::Memory)
            && self.may_answer(t, reply, call, h)
    }

    fn may_answer(self, t: u64, reply: Reply, call: LastCall, h: &[Entry]) -> bool {
        match reply {
            Reply::Pending => self.may_stay(t, call.ran, h),
            Reply::Value(v) => {
                self.cell(h) == Cell::SetTo(v) && call.ran.unwrap_or(Ran::Value(v)) == Ran::Value(v)
            }
            Reply::Error(e) => call.freed && call.ran == Some(Ran::Error(e)),
            Reply::Memory => call.ran.is_none() && self.may_want_memory(t, call, h),
            Reply::Full => call.ran.is_none() && self.may_be_full(t, call, h),
        }
    }

    // Whether a poll may end Pending whose init answered this, if it was polled.
    fn may_stay(self, t: u64, ran: Option<Ran>, h: &[Entry]) -> bool {
        match ran {
            Some(answer) => answer == Ran::Pending && self.holds(t, h),
            None => self.other_holds(t, h),
        }
    }

    fn may_want_memory(self, t: u64, call: LastCall, h: &[Entry]) -> bool {
        match call.began {
            Status::Fresh => {
                !call.claimed && !call.set_then && self.was_so_since(t, h, Fact::OtherActs)
            }
            Status::Waiting => !call.claimed && self.was_so_since(t, h, Fact::OtherHolds),
            _ => false,
        }
    }

    fn may_be_full(self, t: u64, call: LastCall, h: &[Entry]) -> bool {
        call.began == Status::Fresh
            && !call.claimed
            && value_in(self.cell(h)).is_none()
            && self.was_so_since(t, h, Fact::Crowded)
    }

    // Whether this was so at some moment since the last Begin of the task.
    fn was_so_since(self, t: u64, h: &[Entry], fact: Fact) -> bool {
        for end in (0..h.len()).rev() {
            if self.is_so(t, &h[..end.saturating_add(1)], fact) {
                return true;
            }
            if matches!(h[end], Entry::Begin(u, _) if u == t) {
                return false;
            }
        }
        false
    }

    fn is_so(self, t: u64, h: &[Entry], fact: Fact) -> bool {
        match fact {
            Fact::OtherHolds => self.other_holds(t, h),
            Fact::OtherActs => self.other_holds(t, h) || self.others(t, h, fact) > 0,
            Fact::Crowded => self.others(t, h, fact) as u64 >= self.limit,
        }
    }

    // How many other tasks than this one are in a call; or about, if that is asked.
    fn others(self, t: u64, h: &[Entry], fact: Fact) -> usize {
        let others = h
            .iter()
            .filter(|entry| matches!(entry, Entry::Made(u) if *u != t));
        others
            .filter_map(task_of)
            .filter(|u| match self.status(*u, h) {
                Status::Polling | Status::Dropping => true,
                Status::Waiting | Status::Holding => matches!(fact, Fact::Crowded),
                _ => false,
            })
            .count()
    }

    fn may_own(self, call: &Call, got: &Got, h: &[Entry]) -> bool {
        let mut tasks = h.iter().filter_map(task_of);
        tasks.all(|t| self.status(t, h) == Status::Gone)
            && self.has_call(call)
            && self.gives(call, got, h)
    }

    // Whether a cell of this kind has the call.
    fn has_call(self, call: &Call) -> bool {
        let lazy = matches!(self.kind, Kind::Lazy(_) | Kind::LazyWith(_));
        match call {
            Call::Take => !lazy,
            Call::Write(_) => true,
            _ => lazy,
        }
    }

    // Whether this is what the call is given after these entries.
    fn gives(self, call: &Call, got: &Got, h: &[Entry]) -> bool {
        let is_parts = matches!(call, Call::Parts);
        match (value_in(self.cell(h)), got) {
            (Some(v), Got::Value(u)) => *u == v,
            (None, Got::None) => !is_parts,
            (None, Got::Answers(answers)) => is_parts && answers.as_slice() == self.answers_left(h),
            _ => false,
        }
    }

    // Whether somebody was woken after these entries, if somebody has to be.
    fn somebody_called(self, h: &[Entry]) -> bool {
        if self.cell(h) != Cell::Empty {
            return true;
        }
        let mut waits = false;
        for entry in h {
            if let Entry::Made(t) = entry {
                if self.is_called(*t, h) {
                    return true;
                }
                waits = waits || self.status(*t, h) == Status::Waiting;
            }
        }
        !waits
    }

    fn is_called(self, t: u64, h: &[Entry]) -> bool {
        let call = self.last_call(t, h);
        let may = match self.status(t, h) {
            Status::Waiting => true,
            Status::Polling | Status::Dropping => {
                call.began == Status::Waiting && !call.claimed && !call.passed
            }
            _ => false,
        };
        may && self.was_handed_since(t, call.listed, h)
    }
}

/// What may have been so since a poll began.
#[derive(Clone, Copy)]
enum Fact {
    OtherHolds,
    OtherActs,
    Crowded,
}

fn may_begin(status: Status) -> bool {
    matches!(status, Status::Fresh | Status::Waiting | Status::Holding)
}
