//! What a step touches of all that the tasks of a cell share.
ghost use Rattle.std.specs.Prelude.{◌≡◌, true, ⊤};
ghost use Rattle.once_machine.specs.Table.{Ran};
ghost use Rattle.once_machine.specs.Prelude.{Call, Load, Quick, Fast, CountIn, AddOne, CountOut, DoorGet, DoorPut};
ghost use Rattle.once_machine.specs.Prelude.{DoorTake, Section, Refuse, Run, Put, counted, wants_copy, Told, Loaded};
ghost use Rattle.once_machine.specs.Prelude.{TriedQuick, TriedFast, Added, CountedOut, Got, PutQueue, Taken, Was};
ghost use Rattle.once_machine.specs.Prelude.{Refused, PutValue, HasWaker, flags_of};

pub use crate::log::QueueLine;
use crate::memory::NoCopy;
use crate::step::{Polled, RunRight, Side};
use crate::waiters::{Answer, Op};

/// What counting in answers.
#[derive(Clone, Copy, Debug, PartialEq, Eq)]
pub enum Counted {
    /// The caller is counted; the word as it was before.
    In(u64),
    /// As many tasks are counted as may be, and the value is not set.
    Full,
    /// As many tasks are counted as may be, and the value is set.
    SeenReady,
}

/// The word, the door and the queue of a cell, and the place of its value. Each call is one step, but for
/// [`refuse`](Self::refuse), which belongs to the step before it. A ghost item that is left out says nothing.
pub trait Parts<W> {
    /// A queue, as a waiter keeps it.
    type Queue;

    /// What an init gives, if the parts keep it.
    type Value;

    /// What shows that a task has the right to run its init.
    type Right: RunRight;

    // What a call asks.
    ghost can: { Self → Call W Self.Queue → Type 0 } = { λ _ _. ⊤ };

    // What it told and left.
    ghost did: { Self → Told W Self.Queue → Self → Type 0 } = { λ _ _ _. ⊤ };

    // Which values may be set.
    ghost takes: { Self → Self.Value → Type 0 } = { λ _ _. ⊤ };

    /// The word.
    fn load(&mut self) -> u64
        requires { can self.old Load }
        ensures { did self.old (Loaded (flags_of result)) self.new };

    /// Exchanges `NEW` for `QINIT_BIT`. The answer says whether the word was `NEW`.
    fn quick(&mut self) -> bool
        requires { can self.old Quick }
        ensures { did self.old (TriedQuick result) self.new };

    /// Exchanges `QINIT_BIT` for `READY_BIT` or for `NEW`. The answer says whether the word was exactly `QINIT_BIT`.
    fn fast(&mut self, ready: bool) -> bool
        requires { can self.old (Fast ready) }
        ensures { did self.old (TriedFast ready result) self.new };

    /// Counts the caller in, if fewer tasks are counted than may be.
    fn count_in(&mut self) -> Counted
        requires { can self.old CountIn }
        ensures { did self.old (counted result) self.new };

    /// Counts in a quick holder that gives the right back, however many are counted.
    fn add_one(&mut self)
        requires { can self.old AddOne }
        ensures { did self.old Added self.new };

    /// Counts the caller out, and answers the word after it.
    fn count_out(&mut self) -> u64
        requires { can self.old CountOut }
        ensures { did self.old (CountedOut (flags_of result)) self.new };

    /// The queue at the door.
    fn door_get(&mut self) -> Option<Self::Queue>
        requires { can self.old DoorGet }
        ensures { did self.old (Got result) self.new };

    /// Puts a new queue to the door, or finds one there. `None` says that memory was refused.
    fn door_put(&mut self) -> Option<Self::Queue>
        requires { can self.old DoorPut }
        ensures { did self.old (PutQueue result) self.new };

    /// Takes the queue out of the door. The answer says whether one stood there.
    fn door_take(&mut self) -> bool
        requires { can self.old DoorTake }
        ensures { did self.old (Taken result) self.new };

    /// One section under the cell's lock.
    fn section(&mut self, queue: &Self::Queue, op: &mut Op<W>) -> Answer<W>
        requires can { can self.old (Section queue.now op.old) }
        requires waker { HasWaker op.old }
        ensures did { did self.old (Was queue.now op.old result op.new) self.new }
        ensures refuse { wants_copy op.old result ≡ true → can self.new Refuse };

    /// Is told that the copy of the waker was refused, after the look that wanted it.
    fn refuse(&mut self, why: NoCopy)
        requires { can self.old Refuse }
        ensures { did self.old Refused self.new };

    /// Has the side poll its init, with what shows that the task has the right.
    fn run<S: Side<W, Right = Self::Right>>(&mut self, side: &mut S) -> Polled
        requires can { can self.old Run }
        requires init { S.can_run side.old }
        ensures did { did self.old (Ran result) self.new }
        ensures ran { S.did.run side.old result side.new }
        ensures stays { S.stays side.old side.new };

    /// Sets the value that the init gave.
    fn put(&mut self, value: Self::Value)
        requires can { can self.old Put }
        requires takes { takes self.old value }
        ensures { did self.old PutValue self.new };
}
