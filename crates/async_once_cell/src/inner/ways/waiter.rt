//! The way of a waiter, and of its later poll. A new task that met others goes from the door to its listing in one hold
//! of the lock, or in two if it has to bring the queue.
ghost use Rattle.std.specs.Prelude.{◌≡◌, false, None, []};
ghost use Rattle.async_once_cell.specs.Inner.Ways.{IsAt, IsHeld, IsUnder, Polls, Reaches, cell_of};
ghost use Rattle.async_once_cell.specs.Inner.Prelude.{GivesFit, listings_of};

use super::super::desk::Desk;
use super::super::hand::{Hand, TaskWaker};
use super::super::shared::{Inner, Shared};
use super::super::task::{Idle, TaskSide};
use super::{Reached, Spent};
use once_machine::memory;
use once_machine::parts::{Counted, Parts};
use once_machine::step::{Ending, Place};
use once_machine::waiters::{Answer, Lists};
use once_machine::word::Word;
use pagebook::{Fits, Key};
use std::alloc::AllocGlobal;
use std::marker::Brand;
use std::mem;
use std::sync::Wait;

impl<T, W: TaskWaker + Drop, R: Wait + AllocGlobal, V: Fits<T>> Shared<'_, '_, T, W, R, V> {
    pub(super) fn at_door_get<S: TaskSide<W, Value = T>>(&mut self, side: &mut S) -> Ending
        requires stands { IsAt W.whose S.state Place.DoorGet self.old side.old }
        requires fits { GivesFit S.hands S.has_slot V.fits side.old (cell_of self.old) }
        ensures { Polls W.whose S.state S.stays self.old side.old result self.new.idle self.new side.new }
    {
        let mut spent = None;
        let reached = self
            .inner
            .lock_at_door_get::<Brand, R, S>(self.rt, &mut self.hand, &mut spent, side);
        if let Reached::NoQueue = reached {
            return self.at_door_put(side);
        }
        self.go_on_from(reached, side)
    }

    // The queue is made with the lock free, because `rt.alloc()` may be any code. One that came too late is let go.
    fn at_door_put<S: TaskSide<W, Value = T>>(&mut self, side: &mut S) -> Ending
        requires stands { IsAt W.whose S.state Place.DoorPut self.old side.old }
        requires fits { GivesFit S.hands S.has_slot V.fits side.old (cell_of self.old) }
        ensures { Polls W.whose S.state S.stays self.old side.old result self.new.idle self.new side.new }
    {
        let alloc = self.rt.alloc();
        match memory::boxed(alloc, Lists::new(alloc)) {
            Ok(queue) => {
                let mut spent = None;
                let (reached, _spare) = self
                    .inner
                    .lock_at_door_put::<Brand, R, S>(
                        self.rt,
                        &mut self.hand,
                        queue,
                        &mut spent,
                        side,
                    );
                self.go_on_from(reached, side)
            }
            Err(why) => {
                self.hand.unput(why);
                side.close();
                self.idle = Idle::Finished;
                Ending::Memory
            }
        }
    }

    #[inline(always)]
    pub(super) fn at_wait_load<S: TaskSide<W, Value = T>>(
        &mut self,
        ticket: Option<u64>,
        side: &mut S,
    ) -> Ending
        requires stands { IsAt W.whose S.state (Place.WaitLoad tt ticket) self.old side.old }
        requires fits { GivesFit S.hands S.has_slot V.fits side.old (cell_of self.old) }
        ensures { Polls W.whose S.state S.stays self.old side.old result self.new.idle self.new side.new }
    {
        if Word::from_bits(self.load()).is_ready() {
            side.close();
            return self.at_count_out(Ending::Value, side);
        }
        self.at_look(ticket, side)
    }

    fn at_look<S: TaskSide<W, Value = T>>(&mut self, ticket: Option<u64>, side: &mut S) -> Ending
        requires stands { IsAt W.whose S.state (Place.Look tt ticket) self.old side.old }
        requires fits { GivesFit S.hands S.has_slot V.fits side.old (cell_of self.old) }
        ensures { Polls W.whose S.state S.stays self.old side.old result self.new.idle self.new side.new }
    {
        let mut spent = None;
        let reached = self
            .inner
            .lock_at_look::<Brand, R, S>(self.rt, &mut self.hand, ticket, &mut spent, side);
        self.go_on_from(reached, side)
    }
}

impl<T, W: TaskWaker + Drop, V: Fits<T>> Inner<T, W, V> {
    #[inline(always)]
    fn lock_at_door_get<J: Key, R: Wait, S: TaskSide<W, Value = T>>(
        &self,
        rt: &R,
        hand: &mut Hand,
        spent: &mut Option<Spent<W>>,
        side: &mut S,
    ) -> Reached
        requires key { self.now.desk ≡ J.key }
        requires book { hand.old.seen.book ≡ J.key.book }
        requires stands { IsUnder W.whose S.state Place.DoorGet hand.old side.old }
        requires spent { spent.old ≡ None }
        ensures book { hand.new.seen.book ≡ hand.old.seen.book }
        ensures leads { Reaches W.whose S.state hand.old side.old result hand.new side.new }
        ensures stays { S.stays side.old side.new }
    {
        let mut tied = self.desk.lock::<J, R>(rt);
        if !tied.value.get(hand) {
            return Reached::NoQueue;
        }
        self.locked_count_in(rt, &mut tied.value, hand, spent, side)
    }

    // If a queue stands at the door, this one comes back.
    fn lock_at_door_put<J: Key, R: Wait, S: TaskSide<W, Value = T>>(
        &self,
        rt: &R,
        hand: &mut Hand,
        queue: Box<Lists<W>>,
        spent: &mut Option<Spent<W>>,
        side: &mut S,
    ) -> (Reached, Option<Box<Lists<W>>>)
        requires key { self.now.desk ≡ J.key }
        requires book { hand.old.seen.book ≡ J.key.book }
        requires queue { (queue.value.head ≡ false) × (listings_of queue.value ≡ []) }
        requires stands { IsUnder W.whose S.state Place.DoorPut hand.old side.old }
        requires spent { spent.old ≡ None }
        ensures book { hand.new.seen.book ≡ hand.old.seen.book }
        ensures leads { Reaches W.whose S.state hand.old side.old result.0 hand.new side.new }
        ensures stays { S.stays side.old side.new }
    {
        let mut tied = self.desk.lock::<J, R>(rt);
        let spare = tied.value.put(&self.has_put, hand, queue);
        (
            self.locked_count_in(rt, &mut tied.value, hand, spent, side),
            spare,
        )
    }

    #[inline(always)]
    fn locked_count_in<R: Wait, S: TaskSide<W, Value = T>>(
        &self,
        rt: &R,
        desk: &mut Desk<W>,
        hand: &mut Hand,
        spent: &mut Option<Spent<W>>,
        side: &mut S,
    ) -> Reached
        requires held { IsHeld self.now.front.book desk.old hand.old }
        requires stands { IsUnder W.whose S.state (Place.CountIn tt) hand.old side.old }
        requires spent { spent.old ≡ None }
        ensures held { IsHeld self.now.front.book desk.new hand.new }
        ensures leads { Reaches W.whose S.state hand.old side.old result hand.new side.new }
        ensures stays { S.stays side.old side.new }
    {
        match self.counted(rt, hand) {
            Counted::In(word) if Word::from_bits(word).is_ready() => Reached::Ready,
            Counted::In(_) => self.locked_wait_load(desk, hand, spent, side),
            Counted::Full => Reached::Ended(Ending::Full),
            Counted::SeenReady => Reached::Ended(Ending::Value),
        }
    }

    #[inline(always)]
    fn locked_wait_load<S: TaskSide<W, Value = T>>(
        &self,
        desk: &mut Desk<W>,
        hand: &mut Hand,
        spent: &mut Option<Spent<W>>,
        side: &mut S,
    ) -> Reached
        requires held { IsHeld self.now.front.book desk.old hand.old }
        requires stands { IsUnder W.whose S.state (Place.WaitLoad tt None) hand.old side.old }
        requires spent { spent.old ≡ None }
        ensures held { IsHeld self.now.front.book desk.new hand.new }
        ensures leads { Reaches W.whose S.state hand.old side.old result hand.new side.new }
        ensures stays { S.stays side.old side.new }
    {
        if Word::from_bits(self.loaded(hand)).is_ready() {
            return Reached::Ready;
        }
        self.locked_look(desk, hand, None, spent, side)
    }

    fn lock_at_look<J: Key, R: Wait, S: TaskSide<W, Value = T>>(
        &self,
        rt: &R,
        hand: &mut Hand,
        ticket: Option<u64>,
        spent: &mut Option<Spent<W>>,
        side: &mut S,
    ) -> Reached
        requires key { self.now.desk ≡ J.key }
        requires book { hand.old.seen.book ≡ J.key.book }
        requires stands { IsUnder W.whose S.state (Place.Look tt ticket) hand.old side.old }
        requires spent { spent.old ≡ None }
        ensures book { hand.new.seen.book ≡ hand.old.seen.book }
        ensures leads { Reaches W.whose S.state hand.old side.old result hand.new side.new }
        ensures stays { S.stays side.old side.new }
    {
        let mut tied = self.desk.lock::<J, R>(rt);
        self.locked_look(&mut tied.value, hand, ticket, spent, side)
    }

    /// A task that claims takes its waker off the list, and one that is listed renews it there. If another holds, the
    /// waiter copies its waker, and is listed.
    #[inline(always)]
    fn locked_look<S: TaskSide<W, Value = T>>(
        &self,
        desk: &mut Desk<W>,
        hand: &mut Hand,
        mut ticket: Option<u64>,
        spent: &mut Option<Spent<W>>,
        side: &mut S,
    ) -> Reached
        requires held { IsHeld self.now.front.book desk.old hand.old }
        requires stands { IsUnder W.whose S.state (Place.Look tt ticket) hand.old side.old }
        requires spent { spent.old ≡ None }
        ensures held { IsHeld self.now.front.book desk.new hand.new }
        ensures leads { Reaches W.whose S.state hand.old side.old result hand.new side.new }
        ensures stays { S.stays side.old side.new }
    {
        let (answer, taken) = desk.look(&self.word, hand, &mut ticket);
        match answer {
            Answer::Ready => {
                Spent::keep(spent, taken, None);
                Reached::Ready
            }
            Answer::Claimed => {
                Spent::keep(spent, taken, None);
                Reached::Claimed
            }
            // Only a claim takes a waker out. So there is none to put aside here, and below.
            Answer::Listed => {
                let_go(taken);
                if let Some(own) = ticket {
                    let _is_renewed = desk.renew(hand, own, side);
                }
                Reached::Waits(ticket)
            }
            // `Held`, which has no waker: to forget it costs nothing.
            held => {
                mem::forget(held);
                let_go(taken);
                match memory::copied(side) {
                    Ok(waker) => self.locked_list(desk, hand, ticket, waker, spent, side),
                    Err(why) => {
                        hand.refused(why);
                        Reached::Refused(ticket)
                    }
                }
            }
        }
    }

    // A task that is listed has its waker there now, and took none out.
    #[inline(always)]
    fn locked_list<S: TaskSide<W, Value = T>>(
        &self,
        desk: &mut Desk<W>,
        hand: &mut Hand,
        mut ticket: Option<u64>,
        waker: W,
        spent: &mut Option<Spent<W>>,
        side: &S,
    ) -> Reached
        requires held { IsHeld self.now.front.book desk.old hand.old }
        requires stands { IsUnder W.whose S.state (Place.List tt ticket waker) hand.old side.now }
        requires spent { spent.old ≡ None }
        ensures held { IsHeld self.now.front.book desk.new hand.new }
        ensures leads { Reaches W.whose S.state hand.old side.now result hand.new side.now }
    {
        let _ = side;
        let mut copy = Some(waker);
        let (answer, taken) = desk.list(&self.word, hand, &mut ticket, &mut copy);
        match answer {
            Answer::Ready => {
                Spent::keep(spent, taken, copy);
                Reached::Ready
            }
            Answer::Claimed => {
                Spent::keep(spent, taken, copy);
                Reached::Claimed
            }
            Answer::Memory => {
                Spent::keep(spent, taken, copy);
                Reached::Refused(ticket)
            }
            // `Listed`, which has no waker.
            waits => {
                mem::forget(waits);
                Reached::Waits(ticket)
            }
        }
    }
}

// As `drop`, but if there is no waker, nothing is handed over in memory.
#[inline(always)]
fn let_go<W: Drop>(taken: Option<W>) {
    if taken.is_some() {
        drop(taken);
    } else {
        mem::forget(taken);
    }
}
