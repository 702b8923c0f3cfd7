//! The parts as plain data.
ghost use Rattle.once_machine.specs.declared.waiters.Op.{Op};
ghost use Rattle.once_machine.specs.Room.{listings_of};
ghost use Rattle.std.specs.Prelude.{◌≡◌, ◌<◌, ◌≤◌, ◌+◌, ◌-◌, ◌^◌, ◌++◌, ◌∷◌, true, false, []};
ghost use Rattle.std.specs.Prelude.{Some, None, Option, OnOk, IsSome, IsTrue, ◌↔◌, not, vec_len, vec_capacity};

use once_machine::memory::NoCopy;
use once_machine::parts::{Counted, Parts, QueueLine};
use once_machine::step::{Out, Polled, Side};
use once_machine::waiters::{Answer, Lists, Op, WakerId};
use once_machine::word::{QINIT_BIT, READY_BIT, Word};
use std::alloc::{AllocError, Global};

/// The parts as plain data, lent to one caller at a time. Its queues are numbers, counted from 1.
#[derive(Drop)]
pub struct Core<W: WakerId> {
    /// The word: how many tasks are counted in, and the two bits.
    pub word: Word,
    /// The number of the queue at the door, or None if there is no queue.
    pub door: Option<u64>,
    /// The flag and the listings of the queue at the door.
    pub lists: Lists<W>,
    /// How many queues were made, which is the number of the last one.
    pub made: u64,
    /// Whether the next steps are given memory. [`Core::grant`] sets it.
    pub granted: bool,
    /// The waker that a look compares with the listed one. [`Core::set_waker`] sets it.
    pub current: Option<W>,
    /// How many tasks may be counted in.
    pub limit: u64,
    /// The queue log, the oldest line first.
    pub log: Vec<QueueLine>,
    ghost within: { limit ≤ 2 ^ 62 - 2 },
    ghost counted: { made ≤ vec_len log },
    ghost bare: { door ≡ None → (lists.head ≡ false) × (listings_of lists ≡ []) },
}

impl<W: WakerId + Drop> Core<W> {
    ghost use Rattle.once_machine.specs.Word.{flags_alone};
    ghost use Rattle.once_script.specs.Core.{state_of, HasRoom, take_state, release_state};
    ghost use Rattle.once_script.specs.Core.{leave_state, is_passing, Found};
    ghost use Rattle.once_machine.specs.Listings.{next_waker};
    ghost use Rattle.once_machine.specs.Room.{HasSpace};
    ghost use Rattle.once_machine.specs.Sections.{Releases};

    /// A core that nobody used, made with a value or not, for `limit` counted tasks at most. It takes no memory.
    pub fn new(alloc: Global, ready: bool, limit: u64) -> Self
        requires { limit ≤ 2 ^ 62 - 2 }
        ensures { state_of result
            ≡ record {
              word = flags_alone false ready;
              door = None;
              head = false;
              listings = [];
              made = 0;
              granted = true;
              current = None;
              limit = limit;
              log = [];
            } }
    {
        Core {
            word: Word::new(ready),
            door: None,
            lists: Lists::new(alloc),
            made: 0,
            granted: true,
            current: None,
            limit,
            log: Vec::new(alloc),
        }
    }

    /// Makes this the current waker. It is no step.
    pub fn set_waker(&mut self, waker: W)
        ensures state { state_of self.new ≡ record (state_of self.old) { current = Some waker } }
        ensures room { HasRoom self.old → HasRoom self.new }
    {
        self.current = Some(waker);
    }

    /// Sets whether the next steps are given memory.
    pub fn grant(&mut self, granted: bool)
        ensures state { state_of self.new ≡ record (state_of self.old) { granted = granted } }
        ensures room { HasRoom self.old → HasRoom self.new }
    {
        self.granted = granted;
    }

    /// Makes room for one more listing and one more line of the log. If that is refused, the state is as it was.
    pub fn reserve(&mut self) -> Result<(), AllocError>
        ensures room { OnOk result (HasRoom self.new) }
        ensures state { state_of self.new ≡ state_of self.old }
    {
        self.lists.reserve()?;
        self.log.reserve(1)
    }

    /// Takes the queue out of the door, and makes the word that of a new cell.
    pub fn reset(&mut self, ready: bool)
        requires { HasRoom self.old }
        ensures { state_of self.new
            ≡ record (take_state (state_of self.old)) { word = flags_alone false ready } }
    {
        self.take_out();
        self.word = Word::new(ready);
    }

    /// The queue log, the oldest line first.
    pub fn into_log(self) -> Vec<QueueLine>
        ensures { result.items ≡ (state_of self).log }
    {
        self.log
    }

    fn look(&mut self, ticket: &mut Option<u64>) -> Answer<W>
        requires door { IsSome self.old.door }
        ensures { Found W.tells_same W.tells_other
            (state_of self.old) (Op.Look ticket.old) result (Op.Look ticket.new) (state_of self.new) }
    {
        let word = self.word.bits();
        self.lists.look(ticket, self.current.as_ref(), word)
    }

    // If memory is not given, a task without a listing is refused.
    fn list(&mut self, ticket: &mut Option<u64>, waker: &mut Option<W>) -> Answer<W>
        requires door { IsSome self.old.door }
        requires waker { IsSome waker.old }
        requires room { HasSpace self.old.lists }
        ensures { Found W.tells_same W.tells_other
            (state_of self.old) (Op.List ticket.old waker.old)
            result (Op.List ticket.new waker.new) (state_of self.new) }
    {
        let word = self.word.bits();
        if self.granted || self.lists.is_listed(*ticket) {
            return self.lists.list(ticket, waker, word).0;
        }
        match self.lists.look(ticket, waker.as_ref(), word) {
            Answer::Held => Answer::Memory,
            answer => answer,
        }
    }

    // Clears the quick bit if it is set, else the flag beside the list.
    fn release(&mut self, ready: bool) -> Out<W>
        requires door { IsSome self.old.door }
        requires unset { self.old.word.ready ≡ false }
        requires one { self.old.lists.head ≡ not self.old.word.quick }
        ensures out { Releases W.tells_same W.tells_other ready
            (state_of self.old).listings result (state_of self.new).listings }
        ensures state { state_of self.new
            ≡ release_state ready (state_of self.new).listings (state_of self.old) }
    {
        let count = self.word.bits() % QINIT_BIT;
        self.word = Word::from_bits(if ready { READY_BIT + count } else { count });
        self.lists.release(ready)
    }

    fn leave(&mut self, ticket: u64) -> Option<W>
        requires door { IsSome self.old.door }
        ensures waker { result
            ≡ next_waker (is_passing ticket (state_of self.old)) ticket (state_of self.old).listings }
        ensures state { state_of self.new ≡ leave_state ticket (state_of self.old) }
    {
        let word = self.word.bits();
        self.lists.leave(ticket, word).0
    }

    fn take_out(&mut self) -> bool
        requires { HasRoom self.old }
        ensures stood { IsTrue result ↔ IsSome self.old.door }
        ensures state { state_of self.new ≡ take_state (state_of self.old) }
    {
        let Some(queue) = self.door else {
            return false;
        };
        self.lists = Lists::new(*self.log.allocator());
        self.door = None;
        self.write(QueueLine::Taken(queue));
        true
    }

    fn write(&mut self, line: QueueLine)
        requires { vec_len self.old.log < vec_capacity self.old.log }
        ensures state { state_of self.new
            ≡ record (state_of self.old) { log = self.old.log.items ++ line ∷ [] } }
        ensures longer { vec_len self.new.log ≡ vec_len self.old.log + 1 }
        ensures wakers { self.new.lists ≡ self.old.lists }
    {
        self.log.push(line).unwrap();
    }
}

impl<W: WakerId + Drop> Parts<W> for Core<W> {
    ghost use Rattle.once_script.specs.Core.{state_of, CanCall, DidCall};
    ghost use Rattle.once_machine.specs.Table.{counted};
    ghost use Rattle.once_machine.specs.declared.parts.Counted.{Counted};
    ghost use Rattle.once_machine.specs.Word.{flags_of};
    ghost use Rattle.std.specs.Prelude.{ℕ};

    type Queue = u64;

    type Value = ();

    type Right = ();

    ghost can = { λ s c. CanCall s c };

    ghost did = { λ s e t. DidCall W.tells_same W.tells_other (state_of s) e (state_of t) };

    fn load(&mut self) -> u64 {
        self.word.bits()
    }

    fn quick(&mut self) -> bool {
        let is_free = self.word.is_new();
        if is_free {
            self.word = Word::from_bits(QINIT_BIT);
        }
        is_free
    }

    fn fast(&mut self, ready: bool) -> bool {
        let is_alone = self.word.bits() == QINIT_BIT;
        if is_alone {
            self.word = Word::new(ready);
        }
        is_alone
    }

    fn count_in(&mut self) -> Counted
        ensures did { DidCall W.tells_same W.tells_other (state_of self.old) (counted result) (state_of self.new) }
        ensures word { (w : ℕ) → result ≡ Counted.In w → flags_of w ≡ self.old.word }
    {
        if self.word.count() < self.limit {
            let before = self.word.bits();
            self.word = Word::from_bits(before + 1);
            Counted::In(before)
        } else if self.word.is_ready() {
            Counted::SeenReady
        } else {
            Counted::Full
        }
    }

    fn add_one(&mut self) {
        self.word = Word::from_bits(self.word.bits() + 1);
    }

    fn count_out(&mut self) -> u64 {
        let after = self.word.bits() - 1;
        self.word = Word::from_bits(after);
        after
    }

    fn door_get(&mut self) -> Option<u64> {
        self.door
    }

    fn door_put(&mut self) -> Option<u64> {
        if !self.granted {
            return None;
        }
        if self.door.is_some() {
            return self.door;
        }
        self.lists = Lists::new(*self.log.allocator());
        let queue = self.made + 1;
        self.write(QueueLine::Put(queue));
        self.made = queue;
        self.door = Some(queue);
        self.door
    }

    fn door_take(&mut self) -> bool {
        self.take_out()
    }

    fn section(&mut self, queue: &u64, op: &mut Op<W>) -> Answer<W> {
        self.write(QueueLine::Entered(*queue));
        if self.door != Some(*queue) {
            return Answer::Gone;
        }
        match op {
            Op::Look(ticket) => self.look(ticket),
            Op::List(ticket, waker) => self.list(ticket, waker),
            Op::Release(ready) => Answer::Released(self.release(*ready)),
            Op::Leave(ticket) => Answer::Left(self.leave(*ticket)),
        }
    }

    fn refuse(&mut self, _why: NoCopy) {}

    fn run<S: Side<W, Right = ()>>(&mut self, side: &mut S) -> Polled {
        side.run(&mut ())
    }

    fn put(&mut self, _value: ()) {}
}
