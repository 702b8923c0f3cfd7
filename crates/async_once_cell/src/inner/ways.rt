//! Straight ways of a poll: chains of small functions, which are named after places of the machine: `at_..` with
//! the lock free, `locked_..` under it, and `lock_at_..` if it takes the lock. Each has the place in the text of its
//! contract, makes the step of its place, and goes on to the next by its last call. The compiler puts a chain together,
//! so that no step is handed through memory, and the cell's lock is taken once for all sections of a poll that meets
//! others.
//!
//! [`Step::advance`](once_machine::step::Step::advance) stays the one machine, but at `Put`: that step is `put_from`,
//! since the side is to be shown the value. A way may leave to it at any place, by `finish`, and each of its steps
//! is the line of the table for its place. A side whose waker is not copied under the lock polls by the machine alone.
//! While the lock is held, nothing of the caller's own is dropped or called: such a function answers how far it came,
//! as [`Reached`], and puts the wakers that it took aside, as [`Spent`]. With the lock free, `go_on_from` drops the
//! init if it is to be closed, and goes on.
ghost use Rattle.std.specs.Prelude.{◌≡◌, ◌<◌, Bool, None, false, true};
ghost use Rattle.async_once_cell.specs.Inner.Ways.{IsAt, IsBegun, IsUnder, Leads, LeadsBy, Polls, StandsBy, next_by};
ghost use Rattle.async_once_cell.specs.Inner.Ways.{cell_of, own, own_of};
ghost use Rattle.async_once_cell.specs.Inner.Prelude.{in_call, is_value, release_place, is_over, step_of, Own, call_in};
ghost use Rattle.async_once_cell.specs.Inner.Prelude.{GivesFit, HasPut, Sided, Stands, Walked, MatchOption, Answer, Op};
ghost use Rattle.async_once_cell.specs.Inner.Prelude.{Put, PutValue, Section, Was, left_of, CanCall, DidCall};

mod waiter;

use super::hand::{Hand, TaskWaker};
use super::shared::{Inner, Shared};
use super::task::{Idle, TaskSide};
use once_machine::parts::Parts;
use once_machine::step::{Ending, Out, Place, Polled, Progress, Rest, Step};
use once_machine::word::Word;
use pagebook::{Fits, Key};
use std::alloc::AllocGlobal;
use std::marker::Brand;
use std::mem;
use std::sync::Wait;

/// How far a poll came under the lock.
pub(super) enum Reached {
    /// No queue stands at the door, so the task is to bring one.
    NoQueue,
    /// The value is set: the init is to be closed, and the task counts out.
    Ready,
    /// The task has the right, and its init is to be polled.
    Claimed,
    /// The task waits, and its listing has this ticket.
    Waits(Option<u64>),
    /// The init is to be closed, and then the poll ends so.
    Ended(Ending),
    /// Memory was refused: the init is to be closed, and a waiter with this ticket leaves.
    Refused(Option<u64>),
}

/// The task's own wakers that were taken under the lock. They lie in its `at_..` function, and are let go at its end.
#[derive(Drop)]
pub(super) struct Spent<W> {
    taken: Option<W>,
    copy: Option<W>,
}

impl<W: Drop> Spent<W> {
    pub(super) fn keep(place: &mut Option<Self>, taken: Option<W>, copy: Option<W>)
        requires none { place.old ≡ None }
    {
        mem::forget(mem::replace(place, Some(Spent { taken, copy })));
    }
}

impl<T, W: TaskWaker + Drop, R: Wait + AllocGlobal, V: Fits<T>> Shared<'_, '_, T, W, R, V> {
    #[inline(always)]
    pub(super) fn at_start<S: TaskSide<W, Value = T>>(&mut self, side: &mut S) -> Ending
        requires stands { IsAt W.whose S.state Place.Start self.old side.old }
        requires fits { GivesFit S.hands S.has_slot V.fits side.old (cell_of self.old) }
        ensures { Polls W.whose S.state S.stays self.old side.old result self.new.idle self.new side.new }
    {
        let word = Word::from_bits(self.load());
        if word.is_ready() {
            side.close();
            self.idle = Idle::Finished;
            return Ending::Value;
        }
        if !word.is_new() {
            return self.at_door_get(side);
        }
        self.at_try_quick(side)
    }

    #[inline(always)]
    fn at_try_quick<S: TaskSide<W, Value = T>>(&mut self, side: &mut S) -> Ending
        requires stands { IsAt W.whose S.state Place.TryQuick self.old side.old }
        requires fits { GivesFit S.hands S.has_slot V.fits side.old (cell_of self.old) }
        ensures { Polls W.whose S.state S.stays self.old side.old result self.new.idle self.new side.new }
    {
        if !self.quick() {
            return self.at_door_get(side);
        }
        self.at_run(None, side)
    }

    #[inline(always)]
    pub(super) fn later<S: TaskSide<W, Value = T>>(&mut self, idle: Idle, side: &mut S) -> Ending
        requires live { is_over idle ≡ false }
        requires stands { IsBegun W.whose S.state idle self.old side.old }
        requires fits { GivesFit S.hands S.has_slot V.fits side.old (cell_of self.old) }
        ensures { Polls W.whose S.state S.stays self.old side.old result self.new.idle self.new side.new }
    {
        let ticket = match idle {
            Idle::Listed(ticket) => Some(ticket),
            Idle::Unlisted => None,
            _ => return self.at_right(idle, side),
        };
        self.at_wait_load(ticket, side)
    }

    // A holder's later poll is a call of its own, so that a waiter's is inlined.
    fn at_right<S: TaskSide<W, Value = T>>(&mut self, idle: Idle, side: &mut S) -> Ending
        requires live { is_over idle ≡ false }
        requires stands { IsBegun W.whose S.state idle self.old side.old }
        requires fits { GivesFit S.hands S.has_slot V.fits side.old (cell_of self.old) }
        ensures { Polls W.whose S.state S.stays self.old side.old result self.new.idle self.new side.new }
    {
        match idle {
            Idle::Quick => self.at_run(None, side),
            Idle::Queued => self.at_run(Some(()), side),
            _ => self.by_steps(idle, side),
        }
    }

    #[inline(never)]
    pub(super) fn by_steps<S: TaskSide<W, Value = T>>(&mut self, idle: Idle, side: &mut S) -> Ending
        requires live { is_over idle ≡ false }
        requires stands { IsBegun W.whose S.state idle self.old side.old }
        requires fits { GivesFit S.hands S.has_slot V.fits side.old (cell_of self.old) }
        ensures { Polls W.whose S.state S.stays self.old side.old result self.new.idle self.new side.new }
    {
        let mut step = idle.step();
        step.begin();
        self.finish(step, side)
    }

    // Makes the steps that are left of a poll, and keeps where the next call begins.
    fn finish<S: TaskSide<W, Value = T>>(&mut self, mut step: Step<W, ()>, side: &mut S) -> Ending
        requires stands { Stands W.whose false (S.state side.old) (own self.old) Progress.More step }
        requires fits { GivesFit S.hands S.has_slot V.fits side.old (cell_of self.old) }
        ensures { Polls W.whose S.state S.stays self.old side.old result self.new.idle self.new side.new }
    {
        let ending = self.go_on(&mut step, side);
        self.idle = Idle::of(step);
        ending
    }

    /// Makes the steps that are left of a poll or a drop.
    pub(super) fn go_on<S: TaskSide<W, Value = T>>(
        &mut self,
        step: &mut Step<W, ()>,
        side: &mut S,
    ) -> Ending
        requires stands { (drops : Bool)
            × Stands W.whose drops (S.state side.old) (own self.old) Progress.More step.old }
        requires fits { GivesFit S.hands S.has_slot V.fits side.old (cell_of self.old) }
        ensures cell { cell_of self.new ≡ cell_of self.old }
        ensures over { in_call step.new ≡ false }
        ensures walked { (x : Sided) → (v : Own) → Walked x v Progress.More (S.state side.old) (own self.old)
            → Walked x v (Progress.Ended result) (S.state side.new) (own self.new) }
        ensures stands { (drops : Bool) → Stands W.whose drops (S.state side.old) (own self.old) Progress.More step.old
            → Stands W.whose drops (S.state side.new) (own self.new) (Progress.Ended result) step.new }
        ensures stays { S.stays side.old side.new }
    {
        let mut told = Progress::More;
        while step.left() > 0 {
            told = self.one_step(step, side, told);
        }
        let Progress::Ended(ending) = told else {
            unreachable!()
        };
        ending
    }

    /// Makes one step of the call that is under way. It may wait as [`Task::poll`](crate::inner::Task::poll). `told` is
    /// what the last step told.
    pub fn one_step<S: TaskSide<W, Value = T>>(
        &mut self,
        step: &mut Step<W, ()>,
        side: &mut S,
        told: Progress,
    ) -> Progress
        requires call { in_call step.old ≡ true }
        requires stands { (drops : Bool) × Stands W.whose drops (S.state side.old) (own self.old) told step.old }
        requires fits { GivesFit S.hands S.has_slot V.fits side.old (cell_of self.old) }
        ensures cell { cell_of self.new ≡ cell_of self.old }
        ensures lower { left_of step.new < left_of step.old }
        ensures walked { (x : Sided) → (v : Own) → Walked x v told (S.state side.old) (own self.old)
            → Walked x v result (S.state side.new) (own self.new) }
        ensures stands { (drops : Bool) → Stands W.whose drops (S.state side.old) (own self.old) told step.old
            → Stands W.whose drops (S.state side.new) (own self.new) result step.new }
        ensures stays { S.stays side.old side.new }
    {
        let _ = told;
        match *step {
            Step::UnderWay(Place::Put(by)) => {
                self.put_from(side);
                *step = Step::UnderWay(Place::giving_back(by, Ending::Value));
                Progress::More
            }
            _ => step.advance(self, side),
        }
    }

    // Goes on with the lock free, from what was reached.
    #[inline(always)]
    fn go_on_from<S: TaskSide<W, Value = T>>(&mut self, reached: Reached, side: &mut S) -> Ending
        requires stands { StandsBy W.whose (next_by reached) (S.state side.old) (own self.old) }
        requires fits { GivesFit S.hands S.has_slot V.fits side.old (cell_of self.old) }
        ensures cell { cell_of self.new ≡ cell_of self.old }
        ensures leads { (x : Sided) → (v : Own)
            → LeadsBy W.whose x v (next_by reached) (S.state side.old) (own self.old)
            → Leads W.whose x v (Progress.Ended result) (step_of self.new.idle) (S.state side.new) (own self.new) }
        ensures stays { S.stays side.old side.new }
    {
        match reached {
            Reached::Ready => {
                side.close();
                self.at_count_out(Ending::Value, side)
            }
            Reached::Claimed => self.at_run(Some(()), side),
            Reached::Waits(ticket) => {
                self.idle = Idle::of(Step::<W, ()>::Resting(Rest::Wait((), ticket)));
                Ending::Pending
            }
            Reached::Ended(ending) => {
                side.close();
                self.idle = Idle::Finished;
                ending
            }
            Reached::Refused(ticket) => {
                side.close();
                let place = Place::leaving((), ticket, Ending::Memory);
                self.finish(Step::UnderWay(place), side)
            }
            Reached::NoQueue => self.finish(Step::UnderWay(Place::DoorPut), side),
        }
    }

    #[inline(always)]
    fn at_run<S: TaskSide<W, Value = T>>(&mut self, by: Option<()>, side: &mut S) -> Ending
        requires stands { IsAt W.whose S.state (Place.Run by) self.old side.old }
        requires fits { GivesFit S.hands S.has_slot V.fits side.old (cell_of self.old) }
        ensures { Polls W.whose S.state S.stays self.old side.old result self.new.idle self.new side.new }
    {
        match self.run(side) {
            Polled::Pending => {
                self.idle = Idle::of(Step::<W, ()>::Resting(Rest::Run(by)));
                Ending::Pending
            }
            Polled::Value => {
                side.close();
                self.at_put(by, side)
            }
            Polled::Error => {
                side.close();
                self.give_back(by, Ending::Error, side)
            }
        }
    }

    #[inline(always)]
    fn at_put<S: TaskSide<W, Value = T>>(&mut self, by: Option<()>, side: &mut S) -> Ending
        requires stands { IsAt W.whose S.state (Place.Put by) self.old side.old }
        requires fits { GivesFit S.hands S.has_slot V.fits side.old (cell_of self.old) }
        ensures { Polls W.whose S.state S.stays self.old side.old result self.new.idle self.new side.new }
    {
        self.put_from(side);
        self.give_back(by, Ending::Value, side)
    }

    /// Puts the value that the side hands over, and has the side keep what shows it.
    pub(super) fn put_from<S: TaskSide<W, Value = T>>(&mut self, side: &mut S)
        requires can { call_in (own self.old).task.step ≡ Put }
        requires value { (S.state side.old).has_value ≡ true }
        requires fits { GivesFit S.hands S.has_slot V.fits side.old (cell_of self.old) }
        ensures cell { cell_of self.new ≡ cell_of self.old }
        ensures did { DidCall W.whose (own self.old) PutValue (own self.new) }
        ensures put { HasPut (S.state side.old) (S.state side.new) }
        ensures shown { (S.state side.new).has_shown ≡ true }
        ensures stays { S.stays side.old side.new }
    {
        let written = self.put_value(side.put());
        side.keep(written);
    }

    #[inline(always)]
    fn give_back<S: TaskSide<W, Value = T>>(
        &mut self,
        by: Option<()>,
        ending: Ending,
        side: &mut S,
    ) -> Ending
        requires stands { IsAt W.whose S.state (release_place by ending) self.old side.old }
        ensures { Polls W.whose S.state S.stays self.old side.old result self.new.idle self.new side.new }
    {
        match by {
            None => self.at_fast(ending, side),
            Some(()) => self.at_release(ending, side),
        }
    }

    #[inline(always)]
    fn at_fast<S: TaskSide<W, Value = T>>(&mut self, ending: Ending, side: &mut S) -> Ending
        requires stands { IsAt W.whose S.state (Place.Fast ending) self.old side.old }
        ensures { Polls W.whose S.state S.stays self.old side.old result self.new.idle self.new side.new }
    {
        let filled = ending.is_value();
        if !self.fast(filled) {
            return self.at_add_one(ending, side);
        }
        if filled {
            return self.at_door_take(ending, side);
        }
        self.idle = Idle::Finished;
        ending
    }

    // A quick holder that met others counts in, and gives the right back under the lock if their queue is at the door.
    fn at_add_one<S: TaskSide<W, Value = T>>(&mut self, ending: Ending, side: &mut S) -> Ending
        requires stands { IsAt W.whose S.state (Place.AddOne ending) self.old side.old }
        ensures { Polls W.whose S.state S.stays self.old side.old result self.new.idle self.new side.new }
    {
        self.add_one();
        match self
            .inner
            .lock_at_add_one::<Brand, R, S>(self.rt, &mut self.hand, ending, side)
        {
            Some(out) => {
                side.wake(out);
                self.at_count_out(ending, side)
            }
            None => self.at_count_out(ending, side),
        }
    }

    #[inline(always)]
    fn at_release<S: TaskSide<W, Value = T>>(&mut self, ending: Ending, side: &mut S) -> Ending
        requires stands { IsAt W.whose S.state (Place.Release tt ending) self.old side.old }
        ensures { Polls W.whose S.state S.stays self.old side.old result self.new.idle self.new side.new }
    {
        let out = self
            .inner
            .lock_at_release::<Brand, R>(self.rt, &mut self.hand, ending.is_value());
        side.wake(out);
        self.at_count_out(ending, side)
    }

    /// The task counts out, and if it is the last at a cell that is set, it takes the queue away.
    #[inline(always)]
    fn at_count_out<S: TaskSide<W, Value = T>>(&mut self, ending: Ending, side: &S) -> Ending
        requires stands { IsAt W.whose S.state (Place.CountOut ending) self.old side.now }
        ensures { Polls W.whose S.state S.stays self.old side.now result self.new.idle self.new side.now }
    {
        if Word::from_bits(self.count_out()).is_ready_alone() {
            return self.at_door_take(ending, side);
        }
        self.idle = Idle::Finished;
        ending
    }

    #[inline(always)]
    fn at_door_take<S: TaskSide<W, Value = T>>(&mut self, ending: Ending, side: &S) -> Ending
        requires stands { IsAt W.whose S.state (Place.DoorTake ending) self.old side.now }
        ensures { Polls W.whose S.state S.stays self.old side.now result self.new.idle self.new side.now }
    {
        let _ = side;
        self.door_take();
        self.idle = Idle::Finished;
        ending
    }
}

impl<T, W: TaskWaker + Drop, V: Fits<T>> Inner<T, W, V> {
    fn lock_at_release<J: Key, R: Wait>(&self, rt: &R, hand: &mut Hand, ready: bool) -> Out<W>
        requires key { self.now.desk ≡ J.key }
        requires book { hand.old.seen.book ≡ J.key.book }
        requires can { CanCall W.whose (own_of hand.old).task.step (Section tt (Op.Release ready)) }
        ensures book { hand.new.seen.book ≡ hand.old.seen.book }
        ensures did { DidCall W.whose (own_of hand.old)
            (Was tt (Op.Release ready) (Answer.Released result) (Op.Release ready)) (own_of hand.new) }
    {
        let mut tied = self.desk.lock::<J, R>(rt);
        tied.value.release(&self.word, hand, ready)
    }

    // Looks at the door again, and if a queue stands there, releases in the same hold of the lock.
    fn lock_at_add_one<J: Key, R: Wait, S: TaskSide<W, Value = T>>(
        &self,
        rt: &R,
        hand: &mut Hand,
        ending: Ending,
        side: &S,
    ) -> Option<Out<W>>
        requires key { self.now.desk ≡ J.key }
        requires book { hand.old.seen.book ≡ J.key.book }
        requires stands { IsUnder W.whose S.state (Place.DoorAgain ending) hand.old side.now }
        ensures book { hand.new.seen.book ≡ hand.old.seen.book }
        ensures leads { MatchOption result
            (Leads W.whose (S.state side.now) (own_of hand.old) Progress.More (Step.UnderWay (Place.CountOut ending))
            (S.state side.now) (own_of hand.new)) (λ out. (mid : Own)
            × Leads W.whose (S.state side.now) (own_of hand.old) Progress.More
            (Step.UnderWay (Place.Release tt ending)) (S.state side.now) mid × DidCall W.whose mid
            (Was tt (Op.Release (is_value ending)) (Answer.Released out) (Op.Release (is_value ending)))
            (own_of hand.new)) }
    {
        let _ = side;
        let mut tied = self.desk.lock::<J, R>(rt);
        if !tied.value.get(hand) {
            return None;
        }
        Some(tied.value.release(&self.word, hand, ending.is_value()))
    }
}
