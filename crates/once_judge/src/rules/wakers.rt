//! Which wakers an entry may hand out.
ghost use Rattle.std.specs.Prelude.{◌≡◌, ◌<◌, ℕ, ◌∷◌, [], true, false, nat_lt, IfOk, IfErr, MatchOption};
ghost use Rattle.std.specs.Bool.{Decides};

use crate::reason::{Reason, WakersFact};
use crate::seen::Seen;
use crate::task::{Status, Task};
use std::alloc::AllocError;
use std::collections::BTreeSet;

impl Seen {
    ghost use Rattle.std.specs.BTreeSet.{contains};
    ghost use Rattle.std.specs.Ordering.{nat_cmp};
    ghost use Rattle.once_machine.specs.Record.{Free, Pass, Entry as Told, handed_by as wakers_of};
    ghost use Rattle.once_machine.specs.Tasks.{Waiting};
    ghost use Rattle.once_judge.specs.Legal.{IsDueFor, IsDueIn, HandsOutIn, CallsOneIn};
    ghost use Rattle.once_judge.specs.Reasons.{Tests};
    ghost use Rattle.once_judge.specs.Next.{IsReason};
    ghost use Rattle.once_judge.specs.Shown.{seen_of, task_in};

    /// Whether a release that wakes one may hand these out: at most one, and one if any is due.
    pub fn calls_one(&self, t: u64, wakers: &[u64]) -> Result<(), Reason>
        ensures rule { Tests result (CallsOneIn wakers.now (seen_of self.now)) }
        ensures reason { IfErr result (λ r. IsReason r (Free t wakers.now) self.now) }
    {
        match wakers {
            [] => match self.due_outside(&BTreeSet::new(self.alloc)) {
                Some((task, waker)) => Err(Reason::OfWakers(WakersFact::Due(task, waker))),
                None => Ok(()),
            },
            [waker] if self.is_open(*waker) => Ok(()),
            [waker] => Err(Reason::OfWakers(WakersFact::NotOpen(*waker))),
            _ => Err(Reason::OfWakers(WakersFact::Count(wakers.len()))),
        }
    }

    /// Whether a task that passes its turn on may hand these out: one that is open.
    pub fn passes_to(&self, t: u64, wakers: &[u64]) -> Result<(), Reason>
        ensures rule { Tests result ((w : ℕ) × (wakers.now ≡ w ∷ []) × (0 < (seen_of self.now).times w)) }
        ensures reason { IfErr result (λ r. IsReason r (Pass t wakers.now) self.now) }
    {
        match wakers {
            [waker] if self.is_open(*waker) => Ok(()),
            [waker] => Err(Reason::OfWakers(WakersFact::NotOpen(*waker))),
            _ => Err(Reason::OfWakers(WakersFact::Count(wakers.len()))),
        }
    }

    /// Whether a release that wakes all may hand these out: all that are due, each once, and none that is not open.
    pub fn hands_out(&self, wakers: &[u64]) -> Result<Result<(), Reason>, AllocError>
        ensures rule { IfOk result (λ answer. Tests answer (HandsOutIn wakers.now (seen_of self.now))) }
        ensures reason { (e : Told) → wakers_of e ≡ wakers.now → IfOk result (λ answer. IfErr answer (λ r.
            IsReason r e self.now)) }
    {
        let mut among = BTreeSet::new(self.alloc);
        for waker in wakers {
            if !among.insert(*waker)? {
                return Ok(Err(Reason::OfWakers(WakersFact::Twice(*waker))));
            }
            if !self.is_open(*waker) {
                return Ok(Err(Reason::OfWakers(WakersFact::NotOpen(*waker))));
            }
        }
        match self.due_outside(&among) {
            Some((task, waker)) => Ok(Err(Reason::OfWakers(WakersFact::Due(task, waker)))),
            None => Ok(Ok(())),
        }
    }

    // Whether the waker may still be handed out.
    fn is_open(&self, waker: u64) -> bool
        ensures { Decides result (0 < (seen_of self.now).times waker) }
    {
        self.times_open(waker) != 0
    }

    // How often it may still be handed out.
    fn times_open(&self, waker: u64) -> u64
        ensures { result ≡ (seen_of self.now).times waker }
    {
        self.times.get(&waker).copied().unwrap_or(0)
    }

    // A task with its waker, which is due, and is not among these.
    fn due_outside(&self, wakers: &BTreeSet<u64>) -> Option<(u64, u64)>
        ensures { MatchOption result ((w : ℕ) → IsDueIn w (seen_of self.now) → contains nat_cmp wakers.now w ≡ true)
            (λ d. IsDueFor d.0 d.1 (seen_of self.now) × (contains nat_cmp wakers.now d.1 ≡ false)) }
    {
        for t in &self.tasks.asking {
            let task = self.task(*t);
            if self.is_due(task) && !wakers.contains(&task.waker) {
                return Some((*t, task.waker));
            }
        }
        None
    }

    // Whether the task waits, and its waker was not handed out since its last poll ended.
    fn is_due(&self, task: Task) -> bool
        ensures { Decides result (((task_in task).status ≡ Waiting)
            × (nat_lt (task_in task).ended ((seen_of self.now).handed (task_in task).call.waker) ≡ false)) }
    {
        matches!(task.status, Status::Waiting) && !self.was_handed(task.waker, task)
    }
}
