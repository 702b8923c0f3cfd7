//! One step of a call at a time, over any parts and any side.
ghost use Rattle.std.specs.Prelude.{◌≡◌, ◌<◌, ◌≤◌, ◌↔◌, IsTrue, true, false, ⊤};
ghost use Rattle.once_machine.specs.Prelude.{is_value as ends_with_value, SideTells, side_tells_nothing, release_place};
ghost use Rattle.once_machine.specs.Prelude.{leave_place, is_resting, in_call, step_of_poll, step_of_drop, Polled};
ghost use Rattle.once_machine.specs.Prelude.{left_at, left_of};

mod advance;

use crate::waiters::Listing;
use std::mem;

/// What one poll of an init answered. The side keeps the value or the error.
#[derive(Clone, Copy, Debug, PartialEq, Eq)]
pub enum Polled {
    /// There is no answer yet: the init is Pending.
    Pending,
    /// The init gave a value.
    Value,
    /// The init gave an error.
    Error,
}

/// How a call ended. The side keeps the value or the error.
#[derive(Clone, Copy, Debug, PartialEq, Eq)]
pub enum Ending {
    /// The poll is Pending: the task waits for another task, or it holds and its init is Pending.
    Pending,
    /// The poll answers the value that is set.
    Value,
    /// The poll answers the error that the task's own init gave.
    Error,
    /// Memory was refused.
    Memory,
    /// As many tasks are counted in as may be.
    Full,
    /// The call was the drop of the task.
    Dropped,
}

impl Ending {
    /// Whether the call ends with the value: only then does its release set the ready bit.
    pub fn is_value(self) -> bool
        ensures { result ≡ ends_with_value self }
    {
        matches!(&self, Ending::Value)
    }
}

/// Whether a call goes on after a step.
#[derive(Clone, Copy, Debug, PartialEq, Eq)]
pub enum Progress {
    /// The call is still under way: it has another step to make.
    More,
    /// The call is over, and this is how it ended.
    Ended(Ending),
}

/// What shows the right to run an init, and takes down how the init answered.
pub trait RunRight {
    ghost can: { Self → Type 0 };

    ghost ran: { Self → Polled → Self → Type 0 };
}

/// One caller steps the task, so nothing has to be shown or taken down.
impl RunRight for () {
    ghost can = { λ _. ⊤ };

    ghost ran = { λ _ _ _. ⊤ };
}

/// The wakers that a section hands out, in their order.
#[derive(Debug, Drop, PartialEq, Eq)]
pub enum Out<W> {
    /// One that waits, or nobody.
    One(Option<W>),
    /// All that wait: their listings, the oldest first, without a waker that is the same as one before it.
    All(Vec<Listing<W>>),
}

/// What a call brings of its own: its init, the value or error that this gave, and its waker.
pub trait Side<W> {
    /// What the init gives, if the parts keep it.
    type Value;

    /// What shows that the task has the right.
    type Right: RunRight;

    // What each call answers and leaves. If it is left out, it says nothing.
    ghost did: { SideTells Self W } = { side_tells_nothing };

    ghost can_run: { Self → Type 0 } = { λ _. ⊤ };

    ghost can_put: { Self → Type 0 } = { λ _. ⊤ };

    // Which values `put` may hand over.
    ghost hands: { Self → Self.Value → Type 0 } = { λ _ _. ⊤ };

    // Which one it handed over last.
    ghost handed: { Self → Self.Value → Type 0 } = { λ _ _. ⊤ };

    // What each call keeps, from the side before it to the side after.
    ghost stays: { Self → Self → Type 0 };

    /// Polls the init once, with what shows the right, and keeps a value or an error that it gave.
    fn run(&mut self, right: &mut Self::Right) -> Polled
        requires init { can_run self.old }
        requires right { Self.Right.can right.old }
        ensures ran { Self.Right.ran right.old result right.new }
        ensures did { did.run self.old result self.new }
        ensures stays { stays self.old self.new };

    /// Drops the init.
    fn close(&mut self)
        ensures did { did.close self.old self.new }
        ensures stays { stays self.old self.new };

    /// Hands over the value that the init gave, for the parts to set. A side that keeps values itself answers `()`.
    fn put(&mut self) -> Self::Value
        requires { can_put self.old }
        ensures hands { hands self.old result }
        ensures handed { handed self.new result }
        ensures did { did.put self.old self.new }
        ensures stays { stays self.old self.new };

    /// Copies the current waker. `None` says that memory was refused.
    fn copy(&mut self) -> Option<W>
        ensures did { did.copy self.old result self.new }
        ensures stays { stays self.old self.new };

    /// Wakes whom a section handed out: one, all, or nobody.
    fn wake(&mut self, out: Out<W>)
        ensures did { did.wake self.old out self.new }
        ensures stays { stays self.old self.new };

    ghost stays_same: { (a : Self) → stays a a };

    ghost stays_on: { (a b c : Self) → stays a b → stays b c → stays a c };
}

/// Where the next call of a task begins.
#[derive(Drop)]
pub enum Rest<Q> {
    /// The task was not polled yet.
    Start,
    /// The task waits, and keeps this queue and the ticket of its listing there.
    Wait(Q, Option<u64>),
    /// The task holds the right: by the quick claim, or under the lock of this queue.
    Run(Option<Q>),
}

/// Where a call makes its next step. An ending says how the call will end.
#[derive(Drop)]
pub enum Place<W, Q> {
    /// Load the word.
    Start,
    /// Claim the right by one exchange.
    TryQuick,
    /// Look for the queue at the door.
    DoorGet,
    /// Put a queue to the door.
    DoorPut,
    /// Count in, keeping this queue.
    CountIn(Q),
    /// Load the word as a counted waiter, with a ticket as in [`Rest::Wait`].
    WaitLoad(Q, Option<u64>),
    /// Claim the right under the lock, or see whether the waker is listed.
    Look(Q, Option<u64>),
    /// Claim the right under the lock, or list this copy of the waker.
    List(Q, Option<u64>, W),
    /// Poll the init, holding the right as in [`Rest::Run`].
    Run(Option<Q>),
    /// Set the value that the init gave.
    Put(Option<Q>),
    /// Give the right back by one exchange.
    Fast(Ending),
    /// Count in, since others are counted.
    AddOne(Ending),
    /// Look for their queue.
    DoorAgain(Ending),
    /// Give the right back under the lock, and wake one task that waits, or all.
    Release(Q, Ending),
    /// Take the listing with this ticket out, and pass the turn on if the task has it.
    Leave(Q, u64, Ending),
    /// Count out.
    CountOut(Ending),
    /// Take the queue out of the door.
    DoorTake(Ending),
}

impl<W, Q: Drop> Place<W, Q> {
    fn left(&self) -> u32
        ensures left { result ≡ left_at self.now }
        ensures most { result ≤ 16 }
        ensures some { 0 < result }
    {
        match self {
            Place::Start => 16,
            Place::TryQuick => 15,
            Place::DoorGet => 14,
            Place::DoorPut => 13,
            Place::CountIn(_) => 12,
            Place::WaitLoad(_, _) => 11,
            Place::Look(_, _) => 10,
            Place::List(_, _, _) => 9,
            Place::Run(_) => 8,
            Place::Put(_) => 7,
            Place::Fast(_) => 6,
            Place::AddOne(_) => 5,
            Place::DoorAgain(_) => 4,
            Place::Release(_, _) | Place::Leave(_, _, _) => 3,
            Place::CountOut(_) => 2,
            Place::DoorTake(_) => 1,
        }
    }

    /// Where a holder goes that gives the right back: by the word alone if it claimed so, and else under the lock.
    pub fn giving_back(by: Option<Q>, ending: Ending) -> Self
        ensures { result ≡ release_place by ending }
    {
        match by {
            None => Place::Fast(ending),
            Some(queue) => Place::Release(queue, ending),
        }
    }

    /// Where a waiter goes that leaves: it takes its listing out if it has a ticket, and else counts out.
    pub fn leaving(queue: Q, ticket: Option<u64>, ending: Ending) -> Self
        ensures { result ≡ leave_place queue ticket ending }
    {
        match ticket {
            None => Place::CountOut(ending),
            Some(ticket) => Place::Leave(queue, ticket, ending),
        }
    }
}

/// Where a task stands: between two calls, in one, or after its last.
#[derive(Drop)]
pub enum Step<W, Q> {
    /// No call is under way.
    Resting(Rest<Q>),
    /// A call is under way.
    UnderWay(Place<W, Q>),
    /// The last call ended with anything but Pending.
    Finished,
}

impl<W: Drop, Q: Drop> Step<W, Q> {
    /// A task that was not polled yet.
    pub fn new() -> Self
        ensures { result ≡ Step.Resting Rest.Start }
    {
        Self::Resting(Rest::Start)
    }

    /// Whether the last call ended with anything but Pending.
    pub fn is_finished(&self) -> bool
        ensures { IsTrue result ↔ (self.now ≡ Step.Finished) }
    {
        matches!(self, Step::Finished)
    }

    /// Whether a call may begin: none is under way, and the last one, if any, ended Pending.
    pub fn is_resting(&self) -> bool
        ensures { result ≡ is_resting self.now }
    {
        matches!(self, Step::Resting(_))
    }

    /// How many steps the call may still take at most; 0 if none is under way.
    pub fn left(&self) -> u32
        ensures left { result ≡ left_of self.now }
        ensures most { result ≤ 16 }
        ensures idle { (result ≡ 0) ↔ (in_call self.now ≡ false) }
    {
        match self {
            Step::UnderWay(place) => place.left(),
            _ => 0,
        }
    }

    /// Begins a poll.
    pub fn begin(&mut self)
        requires { is_resting self.old ≡ true }
        ensures { self.new ≡ step_of_poll self.old }
    {
        let next = match mem::replace(self, Step::Finished) {
            Step::Resting(Rest::Start) => Step::UnderWay(Place::Start),
            Step::Resting(Rest::Wait(queue, ticket)) => Step::UnderWay(Place::WaitLoad(
                queue, ticket,
            )),
            Step::Resting(Rest::Run(by)) => Step::UnderWay(Place::Run(by)),
            other => other,
        };
        self.set(next);
    }

    /// Begins a drop: the init is closed first. `false` says that the task was never polled, so there is no step to do.
    pub fn begin_drop<S: Side<W>>(&mut self, side: &mut S) -> bool
        requires { is_resting self.old ≡ true }
        ensures step { self.new ≡ step_of_drop self.old }
        ensures more { result ≡ in_call self.new }
        ensures close { S.did.close side.old side.new }
        ensures stays { S.stays side.old side.new }
    {
        side.close();
        let next = match mem::replace(self, Step::Finished) {
            Step::Resting(Rest::Start) => Step::Finished,
            Step::Resting(Rest::Wait(queue, ticket)) => {
                Step::UnderWay(Place::leaving(queue, ticket, Ending::Dropped))
            }
            Step::Resting(Rest::Run(by)) => Step::UnderWay(Place::giving_back(by, Ending::Dropped)),
            other => other,
        };
        self.set(next);
        matches!(self, Step::UnderWay(_))
    }

    // Puts a step in place of one that has nothing to drop. Without `forget` an assignment would test which it is.
    fn set(&mut self, step: Step<W, Q>)
        ensures { self.new ≡ step }
    {
        mem::forget(mem::replace(self, step));
    }
}
