//! How a poll may end.
ghost use Rattle.std.specs.Prelude.{◌≡◌, None, Some, false, IfErr};
ghost use Rattle.std.specs.Bool.{Decides};
ghost use Rattle.once_machine.specs.Cell.{SetTo};

use crate::reason::{CallFact, Reason};
use crate::seen::Seen;
use crate::task::{Cell, Status, Task, is_set};
use once_machine::record::{Ran, Reply};

impl Seen {
    ghost use Rattle.once_machine.specs.Record.{End, Entry as Told};
    ghost use Rattle.once_machine.specs.Tasks.{Polling};
    ghost use Rattle.once_judge.specs.Legal.{MayEndIn, OtherHoldsIn, MemoryFromIn};
    ghost use Rattle.once_judge.specs.Reasons.{Tests};
    ghost use Rattle.once_judge.specs.Next.{MayFollow, IsReason};
    ghost use Rattle.once_judge.specs.Shown.{seen_of, task_in};

    /// Whether the poll of the task may end so.
    pub fn may_end(&self, t: u64, reply: Reply) -> Result<(), Reason>
        ensures rule { Tests result (MayFollow (End t reply) self.now) }
        ensures reason { IfErr result (λ r. IsReason r (End t reply) self.now) }
    {
        let task = self.task(t);
        if !matches!(task.status, Status::Polling) {
            return Err(Reason::TaskIs(t, task.status));
        }
        match task.ran {
            Some(answer) => self.ends_as_it_ran(t, reply, answer)?,
            None => self.ends_unrun(t, reply)?,
        }
        if task.passed && !matches!(reply, Reply::Memory) {
            return Err(Reason::OfCall(t, CallFact::Passed));
        }
        Ok(())
    }

    // Whether a poll whose init answered this may end so.
    fn ends_as_it_ran(&self, t: u64, reply: Reply, answer: Ran) -> Result<(), Reason>
        requires polling { ((seen_of self.now).task t).status ≡ Polling }
        requires ran { ((seen_of self.now).task t).call.ran ≡ Some answer }
        ensures rule { Tests result (MayEndIn t reply (Some answer) (seen_of self.now)) }
        ensures reason { (e : Told) → IfErr result (λ r. IsReason r e self.now) }
    {
        match (reply, answer) {
            (Reply::Pending, Ran::Pending) => self.holds(t),
            (Reply::Value(v), Ran::Value(u)) if v == u => self.is_set_to(v),
            (Reply::Error(e), Ran::Error(f)) if e == f => {
                if self.task(t).freed {
                    Ok(())
                } else {
                    Err(Reason::OfCall(t, CallFact::NotFreed))
                }
            }
            _ => Err(Reason::OfCall(t, CallFact::InitAnswered(Some(answer)))),
        }
    }

    // Whether a poll that did not poll the init may end so.
    fn ends_unrun(&self, t: u64, reply: Reply) -> Result<(), Reason>
        requires polling { ((seen_of self.now).task t).status ≡ Polling }
        requires ran { ((seen_of self.now).task t).call.ran ≡ None }
        ensures rule { Tests result (MayEndIn t reply None (seen_of self.now)) }
        ensures reason { (e : Told) → IfErr result (λ r. IsReason r e self.now) }
    {
        match reply {
            Reply::Pending => self.other_holds(t),
            Reply::Value(v) => self.is_set_to(v),
            Reply::Error(_) => Err(Reason::OfCall(t, CallFact::InitAnswered(None))),
            Reply::Memory => self.may_want_memory(t),
            Reply::Full => self.may_find_full(t),
        }
    }

    // Whether another task holds.
    fn other_holds(&self, t: u64) -> Result<(), Reason>
        ensures rule { Tests result (OtherHoldsIn t (seen_of self.now)) }
        ensures reason { (e : Told) → IfErr result (λ r. IsReason r e self.now) }
    {
        match self.cell {
            Cell::Held(u) if u != t => Ok(()),
            _ => Err(Reason::CellIs(self.cell)),
        }
    }

    // Whether the cell is set to this value.
    fn is_set_to(&self, v: u64) -> Result<(), Reason>
        ensures rule { Tests result ((seen_of self.now).cell ≡ SetTo v) }
        ensures reason { (e : Told) → IfErr result (λ r. IsReason r e self.now) }
    {
        match self.cell {
            Cell::SetTo(u) if u == v => Ok(()),
            _ => Err(Reason::CellIs(self.cell)),
        }
    }

    // Whether a poll may be refused memory.
    fn may_want_memory(&self, t: u64) -> Result<(), Reason>
        requires polling { ((seen_of self.now).task t).status ≡ Polling }
        ensures rule { Tests result (MayEndIn t Reply.Memory None (seen_of self.now)) }
        ensures reason { (e : Told) → IfErr result (λ r. IsReason r e self.now) }
    {
        let task = self.task(t);
        if task.claimed {
            return Err(Reason::OfCall(t, CallFact::Claimed));
        }
        if self.has_cause_for_memory(t, task) {
            Ok(())
        } else {
            Err(Reason::OfCall(t, CallFact::NoCauseForMemory))
        }
    }

    // Whether something was so since the poll began for which memory may be refused.
    fn has_cause_for_memory(&self, t: u64, task: Task) -> bool
        requires its { task_in task ≡ (seen_of self.now).task t }
        ensures { Decides result (MemoryFromIn ((seen_of self.now).task t).call.began t (seen_of self.now)) }
    {
        let held = task.begun <= self.other_held_at(t);
        match task.began {
            Status::Fresh => !task.set_then && (held || task.begun <= self.acting_at),
            Status::Waiting => held,
            _ => false,
        }
    }

    // Whether a poll may find the place full.
    fn may_find_full(&self, t: u64) -> Result<(), Reason>
        requires polling { ((seen_of self.now).task t).status ≡ Polling }
        ensures rule { Tests result (MayEndIn t Reply.Full None (seen_of self.now)) }
        ensures reason { (e : Told) → IfErr result (λ r. IsReason r e self.now) }
    {
        let task = self.task(t);
        if task.claimed {
            return Err(Reason::OfCall(t, CallFact::Claimed));
        }
        if !matches!(task.began, Status::Fresh) {
            return Err(Reason::OfCall(t, CallFact::NotFirstPoll));
        }
        if is_set(self.cell) {
            return Err(Reason::CellIs(self.cell));
        }
        if task.begun <= self.crowded_at {
            Ok(())
        } else {
            Err(Reason::OfCall(t, CallFact::NoCrowd))
        }
    }
}
