//! Which entry may come next. Each function answers a reason if its entry may not.
ghost use Rattle.std.specs.Prelude.{◌≡◌, ◌<◌, ◌^◌, Some, false, IfOk, OnOk, IfErr};
ghost use Rattle.std.specs.Bool.{Decides};
ghost use Rattle.once_machine.specs.Cell.{Empty, Held, value_in as value_of};
ghost use Rattle.once_machine.specs.Tasks.{Polling};
ghost use Rattle.once_machine.specs.Run.{MayFree, MayPass};
ghost use Rattle.once_judge.specs.Values.{cell_of};

mod ends;
mod wakers;

use crate::calls::Calls;
use crate::reason::{CallFact, Reason};
use crate::seen::Seen;
use crate::task::{Cell, Status, is_over};
use once_machine::record::{Call, Entry, Got, Ran};
use std::alloc::AllocError;

impl Seen {
    ghost use Rattle.once_machine.specs.Record.{Made, Begin, Claim, Ran as RanEntry, Free, Fill, Pass, DropEnd, Look};
    ghost use Rattle.once_machine.specs.Record.{Own, Entry as Told};
    ghost use Rattle.once_machine.specs.declared.record.Ran.TheVariants.{Value as RanValue};
    ghost use Rattle.once_machine.specs.Cell.{next_answer as next_of, got as got_by};
    ghost use Rattle.once_machine.specs.Shown.{entry_of, call_of, got_of};
    ghost use Rattle.once_judge.specs.Legal.{AllGoneIn, has_call_in};
    ghost use Rattle.once_judge.specs.Reasons.{Tests};
    ghost use Rattle.once_judge.specs.Next.{MayFollow, IsReason, Followed};
    ghost use Rattle.once_judge.specs.Shown.{seen_of, Within};

    /// Takes an entry if it may come next, and else tells why not.
    pub fn follow(&mut self, entry: &Entry) -> Result<Option<Reason>, AllocError>
        requires within { Within (seen_of self.old) }
        requires small { self.old.entries < 2 ^ 63 }
        ensures followed { IfOk result (λ reason.
            Followed reason self.old.rules (entry_of entry.now) (seen_of self.old) (seen_of self.new)) }
        ensures rules { OnOk result (self.new.rules ≡ self.old.rules) }
    {
        if let Err(reason) = self.may_follow(entry)? {
            return Ok(Some(reason));
        }
        self.take(entry)?;
        Ok(None)
    }

    // Whether this entry may come next.
    fn may_follow(&self, entry: &Entry) -> Result<Result<(), Reason>, AllocError>
        ensures rule { IfOk result (λ answer. Tests answer
            (MayFollow (entry_of entry.now) self.now)) }
        ensures reason { IfOk result (λ answer. IfErr answer (λ r.
            IsReason r (entry_of entry.now) self.now)) }
    {
        match entry {
            Entry::Made(t) => Ok(self.may_be_made(*t)),
            Entry::Begin(t, waker) => Ok(self.may_begin(*t, *waker)),
            Entry::Claim(t) => Ok(self.may_claim(*t)),
            Entry::Ran(t, answer) => Ok(self.may_run(*t, *answer)),
            Entry::Free(t, wakers) => self.may_free(*t, wakers),
            Entry::Fill(t, v, wakers) => self.may_fill(*t, *v, wakers),
            Entry::Pass(t, wakers) => Ok(self.may_pass(*t, wakers)),
            Entry::End(t, reply) => Ok(self.may_end(*t, *reply)),
            Entry::DropBegin(t) => Ok(self.may_begin(*t, 0)),
            Entry::DropEnd(t) => Ok(self.may_end_drop(*t)),
            Entry::Look(found) => Ok(self.may_look(*found)),
            Entry::Own(call, got) => Ok(self.may_own(call, got)),
        }
    }

    fn may_be_made(&self, t: u64) -> Result<(), Reason>
        ensures rule { Tests result (MayFollow (Made t) self.now) }
        ensures reason { IfErr result (λ r. IsReason r (Made t) self.now) }
    {
        match self.task(t).status {
            Status::Unmade => Ok(()),
            status => Err(Reason::TaskIs(t, status)),
        }
    }

    // A drop begins as a poll does, whatever the waker is.
    fn may_begin(&self, t: u64, waker: u64) -> Result<(), Reason>
        ensures rule { Tests result (MayFollow (Begin t waker) self.now) }
        ensures reason { (e : Told) → IfErr result (λ r. IsReason r e self.now) }
    {
        match self.task(t).status {
            Status::Fresh | Status::Waiting | Status::Holding => Ok(()),
            status => Err(Reason::TaskIs(t, status)),
        }
    }

    fn may_claim(&self, t: u64) -> Result<(), Reason>
        ensures rule { Tests result (MayFollow (Claim t) self.now) }
        ensures reason { IfErr result (λ r. IsReason r (Claim t) self.now) }
    {
        self.is_empty()?;
        let task = self.task(t);
        if !matches!(task.status, Status::Polling) {
            return Err(Reason::TaskIs(t, task.status));
        }
        if task.ran.is_some() {
            return Err(Reason::OfCall(t, CallFact::InitAnswered(task.ran)));
        }
        if task.passed {
            return Err(Reason::OfCall(t, CallFact::Passed));
        }
        Ok(())
    }

    fn may_run(&self, t: u64, answer: Ran) -> Result<(), Reason>
        ensures rule { Tests result (MayFollow (RanEntry t answer) self.now) }
        ensures reason { IfErr result (λ r. IsReason r (RanEntry t answer) self.now) }
    {
        self.holds(t)?;
        let task = self.task(t);
        if !matches!(task.status, Status::Polling) {
            return Err(Reason::TaskIs(t, task.status));
        }
        if task.ran.is_some() {
            return Err(Reason::OfCall(t, CallFact::InitAnswered(task.ran)));
        }
        let next = self.next_answer();
        if self.rules.lazy && answer != next {
            return Err(Reason::NextAnswer(next));
        }
        Ok(())
    }

    fn may_free(&self, t: u64, wakers: &[u64]) -> Result<Result<(), Reason>, AllocError>
        ensures rule { IfOk result (λ answer. Tests answer
            (MayFollow (Free t wakers.now) self.now)) }
        ensures reason { IfOk result (λ answer. IfErr answer (λ r.
            IsReason r (Free t wakers.now) self.now)) }
    {
        if let Err(reason) = self.frees(t) {
            return Ok(Err(reason));
        }
        match self.rules.calls {
            Calls::One => Ok(self.calls_one(t, wakers)),
            Calls::All => self.hands_out(wakers),
        }
    }

    // Whether the task holds, and frees the cell: in a drop, or in a poll whose init failed.
    fn frees(&self, t: u64) -> Result<(), Reason>
        ensures rule { Tests result (((seen_of self.now).cell ≡ Held t)
            × MayFree ((seen_of self.now).task t).status ((seen_of self.now).task t).call.ran) }
        ensures reason { (e : Told) → IfErr result (λ r. IsReason r e self.now) }
    {
        self.holds(t)?;
        let task = self.task(t);
        match task.status {
            Status::Dropping => Ok(()),
            Status::Polling => match task.ran {
                Some(Ran::Error(_)) => Ok(()),
                _ => Err(Reason::OfCall(t, CallFact::InitAnswered(task.ran))),
            },
            _ => Err(Reason::TaskIs(t, task.status)),
        }
    }

    fn may_fill(&self, t: u64, v: u64, wakers: &[u64]) -> Result<Result<(), Reason>, AllocError>
        ensures rule { IfOk result (λ answer. Tests answer
            (MayFollow (Fill t v wakers.now) self.now)) }
        ensures reason { IfOk result (λ answer. IfErr answer (λ r.
            IsReason r (Fill t v wakers.now) self.now)) }
    {
        if let Err(reason) = self.fills(t, v) {
            return Ok(Err(reason));
        }
        self.hands_out(wakers)
    }

    // Whether the task holds, is in a poll, and its init gave this value in it.
    fn fills(&self, t: u64, v: u64) -> Result<(), Reason>
        ensures rule { Tests result (((seen_of self.now).cell ≡ Held t) × (((seen_of self.now).task t).status ≡ Polling)
            × (((seen_of self.now).task t).call.ran ≡ Some (RanValue v))) }
        ensures reason { (e : Told) → IfErr result (λ r. IsReason r e self.now) }
    {
        self.holds(t)?;
        let task = self.task(t);
        if !matches!(task.status, Status::Polling) {
            return Err(Reason::TaskIs(t, task.status));
        }
        if task.ran != Some(Ran::Value(v)) {
            return Err(Reason::OfCall(t, CallFact::InitAnswered(task.ran)));
        }
        Ok(())
    }

    fn may_pass(&self, t: u64, wakers: &[u64]) -> Result<(), Reason>
        ensures rule { Tests result (MayFollow (Pass t wakers.now) self.now) }
        ensures reason { IfErr result (λ r. IsReason r (Pass t wakers.now) self.now) }
    {
        self.is_empty()?;
        self.passes(t)?;
        self.passes_to(t, wakers)
    }

    // Whether the task may pass its turn on, and did not yet: in a drop, or in a poll that neither claimed nor ran the
    // init.
    fn passes(&self, t: u64) -> Result<(), Reason>
        ensures rule { Tests result ((MayPass ((seen_of self.now).task t).status
            ((seen_of self.now).task t).call.claimed ((seen_of self.now).task t).call.ran)
            × (((seen_of self.now).task t).call.passed ≡ false)) }
        ensures reason { (e : Told) → IfErr result (λ r. IsReason r e self.now) }
    {
        let task = self.task(t);
        match task.status {
            Status::Dropping => {}
            Status::Polling => {
                if task.claimed {
                    return Err(Reason::OfCall(t, CallFact::Claimed));
                }
                if task.ran.is_some() {
                    return Err(Reason::OfCall(t, CallFact::InitAnswered(task.ran)));
                }
            }
            _ => return Err(Reason::TaskIs(t, task.status)),
        }
        if task.passed {
            return Err(Reason::OfCall(t, CallFact::Passed));
        }
        Ok(())
    }

    fn may_end_drop(&self, t: u64) -> Result<(), Reason>
        ensures rule { Tests result (MayFollow (DropEnd t) self.now) }
        ensures reason { IfErr result (λ r. IsReason r (DropEnd t) self.now) }
    {
        let task = self.task(t);
        if !matches!(task.status, Status::Dropping) {
            return Err(Reason::TaskIs(t, task.status));
        }
        match self.holds(t) {
            Ok(()) => Err(Reason::CellIs(self.cell)),
            Err(_) => Ok(()),
        }
    }

    fn may_look(&self, found: Option<u64>) -> Result<(), Reason>
        ensures rule { Tests result (MayFollow (Look found) self.now) }
        ensures reason { IfErr result (λ r. IsReason r (Look found) self.now) }
    {
        if found == value_in(self.cell) {
            Ok(())
        } else {
            Err(Reason::CellIs(self.cell))
        }
    }

    fn may_own(&self, call: &Call, got: &Got) -> Result<(), Reason>
        ensures rule { Tests result
            (MayFollow (Own (call_of call.now) (got_of got.now)) self.now) }
        ensures reason { IfErr result (λ r.
            IsReason r (Own (call_of call.now) (got_of got.now)) self.now) }
    {
        self.all_gone()?;
        if !self.has_call(call) {
            return Err(Reason::NoSuchCall);
        }
        if self.gives(call, got) {
            return Ok(());
        }
        match self.cell {
            Cell::SetTo(_) => Err(Reason::CellIs(self.cell)),
            _ => Err(self.answers_left()),
        }
    }

    // Whether every task that was made is gone.
    fn all_gone(&self) -> Result<(), Reason>
        ensures rule { Tests result (AllGoneIn (seen_of self.now)) }
        ensures reason { (e : Told) → IfErr result (λ r. IsReason r e self.now) }
    {
        for (t, task) in &self.tasks.all {
            if !is_over(task.status) {
                return Err(Reason::TaskIs(*t, task.status));
            }
        }
        Ok(())
    }

    // Whether a cell of this kind has the call.
    fn has_call(&self, call: &Call) -> bool
        ensures { result ≡ has_call_in self.now.rules.lazy (call_of call.now) }
    {
        match call {
            Call::Take => !self.rules.lazy,
            Call::Write(_) => true,
            Call::Parts | Call::ReplaceValue(_) | Call::ReplaceAnswers(_) => self.rules.lazy,
        }
    }

    // Whether this is what the call is given.
    fn gives(&self, call: &Call, got: &Got) -> bool
        ensures { Decides result (got_of got.now
            ≡ got_by (call_of call.now) (seen_of self.now).cell (seen_of self.now).answers) }
    {
        match self.cell {
            Cell::SetTo(v) => match got {
                Got::Value(u) => *u == v,
                _ => false,
            },
            _ => match (call, got) {
                (Call::Parts, Got::Answers(answers)) => self.are_left(answers),
                (Call::Parts, _) => false,
                (_, Got::None) => true,
                _ => false,
            },
        }
    }

    // Whether these are the answers that a lazy init has left.
    fn are_left(&self, answers: &[Option<u64>]) -> bool
        ensures { Decides result (answers.now ≡ (seen_of self.now).answers) }
    {
        if self.used <= self.answers.len() {
            answers == &self.answers[self.used..]
        } else {
            answers.is_empty()
        }
    }

    // How many answers it has left.
    fn answers_left(&self) -> Reason
        ensures { (e : Told) → IsReason result e self.now }
    {
        Reason::AnswersLeft(self.answers.len().saturating_sub(self.used))
    }

    // The next answer of a lazy init.
    fn next_answer(&self) -> Ran
        ensures { result ≡ next_of (seen_of self.now).answers }
    {
        match self.answers.get(self.used) {
            Some(Some(v)) => Ran::Value(*v),
            _ => Ran::Pending,
        }
    }

    // Whether the cell is empty.
    fn is_empty(&self) -> Result<(), Reason>
        ensures rule { Tests result ((seen_of self.now).cell ≡ Empty) }
        ensures reason { (e : Told) → IfErr result (λ r. IsReason r e self.now) }
    {
        match self.cell {
            Cell::Empty => Ok(()),
            _ => Err(Reason::CellIs(self.cell)),
        }
    }

    // Whether the task holds.
    fn holds(&self, t: u64) -> Result<(), Reason>
        ensures rule { Tests result ((seen_of self.now).cell ≡ Held t) }
        ensures reason { (e : Told) → IfErr result (λ r. IsReason r e self.now) }
    {
        match self.cell {
            Cell::Held(u) if u == t => Ok(()),
            _ => Err(Reason::CellIs(self.cell)),
        }
    }
}

// What a look finds.
fn value_in(cell: Cell) -> Option<u64>
    ensures { result ≡ value_of (cell_of cell) }
{
    match cell {
        Cell::SetTo(v) => Some(v),
        _ => None,
    }
}
