//! A task of a cell with the init that its future brought, and what it brings to a poll and to a drop: its sides.
ghost use Rattle.std.specs.Prelude.{◌≡◌, ◌∷◌, [], List, true, false, ⊤, IfErr, IfSome, IsSome, IsSomeAnd, None, Some};
ghost use Rattle.std.proofs.Common.{rules, subst, ap, ◌∙◌};
ghost use Rattle.async_once_cell.specs.Stays.{Hands, IsRenewed, Stays, leaving, told};
ghost use Rattle.async_once_cell.specs.Prelude.{GivesNoOther, InitFits, TellsOwn, MayGive, is_some, IfReady, IsArmed};
ghost use Rattle.async_once_cell.specs.Prelude.{Keeps, Ending, Begin, DropBegin, DropEnd, Entry, Made, Grew, EndsSet};
ghost use Rattle.async_once_cell.specs.Prelude.{IsSet, gave_value, IsOneCall, Spans, end_of, IsValue, ending_by};
ghost use Rattle.async_once_cell.specs.Prelude.{is_over, value_of, IsAnswered, AttemptView, gave_in, shown_in};
ghost use Rattle.async_once_cell.specs.Prelude.{value_in};
ghost use Rattle.async_once_cell.specs.Prelude.{HasCopied, HasWoken, sided_tells, NamesTask, WakesTask, whose};

use crate::error::{Failure, Refused};
use crate::inner::hand::{is_set_where_answered, stays_set};
use crate::inner::{Failed, Hand, Init, Inner, Mark, Task, TaskSide};
use crate::waker::ListedWaker;
use boxcar::tag::Tag;
use futures::task::{Context, Poll};
use once_machine::step::{Ending, Out, Polled, Side};
use once_machine::waiters::Renews;
use pagebook::{Anything, Fits, Written};
use std::alloc::AllocGlobal;
use std::marker::{Model, PhantomData};
use std::snapshot::Snapshot;
use std::sync::Wait;

// What shows the value that a task answered, if it answered one. The array has no bytes, and as the first field makes
// this as wide as its neighbours: the bytes that a narrow field leaves free are copied too.
#[derive(Drop)]
pub(crate) enum Shown<T> {
    Nothing,
    // The value that its own init gave.
    Own([u64; 0], Written<T>),
    // A value that another task put.
    Other([u64; 0], Written<T>),
}

/// One attempt to get the value of a cell: a task with its init. A clause sees both.
#[derive(Drop)]
pub(crate) struct Attempt<'a, T, I: Drop, R, V: Fits<T> = Anything> {
    pub(crate) task: Task<'a, 'a, T, ListedWaker, R, V>,
    init: Option<I>,
    pub(crate) shown: Shown<T>,
    // The init is there until the task is finished.
    ghost has_init: { task.finished ≡ false → is_some init ≡ true },
}

impl<'a, T, I: Drop, R, V: Fits<T>> Model for Attempt<'a, T, I, R, V> {
    ghost Value = { AttemptView T I };

    ghost view = { λ f. record {
      cell = f.task.cell;
      number = f.task.number;
      log = f.task.log;
      finished = f.task.finished;
      init = f.init;
      value = value_in (shown_in f.shown);
      gave = gave_in f.shown;
    } };

    // Only a finished task answered a value, and it saw that the cell is set.
    ghost invariant = { λ f. IsAnswered f.task.cell f.task.finished f.task.log (shown_in f.shown) };
}

impl<'a, T, I: Drop, R, V: Fits<T>> Attempt<'a, T, I, R, V> {
    #[inline(always)]
    pub(crate) fn new(inner: &'a Inner<T, ListedWaker, V>, rt: &'a R, init: I) -> Self
        ensures cell { result.cell ≡ inner.now.slot }
        ensures live { result.finished ≡ false }
        ensures init { result.init ≡ Some init }
        ensures value { result.value ≡ None }
        ensures made { (seen : List Entry) × Grew (Made result.number ∷ []) seen result.log }
    {
        Attempt {
            task: Task::new(inner, rt),
            init: Some(init),
            shown: Shown::Nothing,
        }
    }

    /// What shows the value that the task answered. Then the cell is set in its log.
    pub(crate) fn written(&self) -> Option<Written<T>>
        ensures value { value_in result ≡ self.now.value }
        ensures of { IfSome result (λ w. w.of ≡ self.now.cell.id) }
        ensures set { is_some result ≡ true → IsSet self.now.log }
    {
        match &self.shown {
            Shown::Nothing => None,
            Shown::Own(_, written) | Shown::Other(_, written) => Some(written.again()),
        }
    }

    /// Whether the task answered a value that its own init gave.
    pub(crate) fn gave(&self) -> bool
        ensures { result ≡ self.now.gave }
    {
        matches!(self.shown, Shown::Own(_, _))
    }

    // The answer of a poll that ended in this way, and left no init.
    fn answer<X: Failure>(
        &mut self,
        ending: Ending,
        error: Option<Failed<X>>,
        put: Option<Written<T>>,
    ) -> Poll<Result<&'a T, X>>
    where
        I: Init<T, X>,
        requires value { ending ≡ Ending.Value → EndsSet self.old.number self.old.log }
        requires finished { ending ≡ Ending.Value → self.old.finished ≡ true }
        requires nothing { (self.old.value ≡ None) × (self.old.init ≡ None) }
        requires not_pending { ending ≡ Ending.Pending → ⊥ }
        requires error { ending ≡ Ending.Error → IsSome error }
        requires not_dropped { ending ≡ Ending.Dropped → ⊥ }
        requires put { IfSome put (λ w. w.of ≡ self.old.cell.id) }
        ensures ending { ending_by X.ending result ≡ ending }
        ensures is_value { ending ≡ Ending.Value → IsValue result }
        ensures cell { self.new.cell ≡ self.old.cell }
        ensures number { self.new.number ≡ self.old.number }
        ensures log { self.new.log ≡ self.old.log }
        ensures finished { self.new.finished ≡ self.old.finished }
        ensures init { self.new.init ≡ None }
        ensures set { ending ≡ Ending.Value → IsSet self.new.log }
        ensures value { self.new.value ≡ value_of result }
        ensures promise { IfSome (value_of result) (V.fits self.old.cell.about) }
        ensures own { IfReady result (λ a. IfErr a
            (λ x. X.ending x ≡ Ending.Error → IsSomeAnd error (λ e. e.error ≡ x))) }
        ensures gave { IsValue result → self.new.gave ≡ is_some put }
        ensures put { IfSome put (λ w. IfSome (value_of result) (λ v. v ≡ w.value)) }
    {
        if ending != Ending::Value {
            return Poll::Ready(Err(failed(ending, error)));
        }
        is_set_where_answered(&self.task.record());
        let (value, written) = self.task.value();
        self.shown = match put {
            Some(put) => {
                put.agrees(&written);
                Shown::Own([], written)
            }
            None => Shown::Other([], written),
        };
        Poll::Ready(Ok(value))
    }
}

impl<'a, T, I: Drop, R: Wait + AllocGlobal, V: Fits<T>> Attempt<'a, T, I, R, V> {
    /// As [`leave`](Self::leave), by value: so the drop of a future that is finished moves nothing.
    pub(crate) fn discard(mut self)
        requires live { self.finished ≡ false }
    {
        self.leave();
    }

    /// Drops the init, and then the task leaves.
    pub(crate) fn leave(&mut self)
        requires live { self.old.finished ≡ false }
        ensures cell { self.new.cell ≡ self.old.cell }
        ensures number { self.new.number ≡ self.old.number }
        ensures gone { Grew (DropEnd self.new.number ∷ []) self.old.log self.new.log }
        ensures call { IsOneCall self.new.number (DropBegin self.new.number) (DropEnd self.new.number)
            self.old.log self.new.log }
        ensures set { IsSet self.old.log → IsSet self.new.log }
        ensures finished { self.new.finished ≡ true }
        ensures init { self.new.init ≡ None }
        ensures value { self.new.value ≡ None }
    {
        let before = self.task.record();
        drop(self.init.take());
        let mut side = LeaveSide {
            rt: self.task.rt(),
            mark: self.task.mark(),
            woke: Snapshot::of(&Out::One(None)),
            value: PhantomData,
        };
        self.task.leave(&mut side);
        stays_set(&before, &self.task.record());
    }
}

impl<'a, T: Drop, I: Drop, R: Wait + AllocGlobal, V: Fits<T>> Attempt<'a, T, I, R, V> {
    #[inline(always)]
    pub(crate) fn poll<X: Failure>(&mut self, cx: &mut Context<'_>) -> Poll<Result<&'a T, X>>
    where
        I: Init<T, X>,
        requires live { self.old.finished ≡ false }
        requires fits { InitFits I.may_give V.fits self.old.init self.old.cell.about }
        ensures cell { self.new.cell ≡ self.old.cell }
        ensures number { self.new.number ≡ self.old.number }
        ensures end { Grew (end_of self.new.number (ending_by X.ending result) ∷ []) self.old.log self.new.log }
        ensures call { IsOneCall self.new.number (Begin self.new.number self.new.number)
            (end_of self.new.number (ending_by X.ending result)) self.old.log self.new.log }
        ensures spans { Spans self.new.number (end_of self.new.number (ending_by X.ending result))
            self.old.log self.new.log }
        ensures late { IsSet self.old.log → IsValue result }
        ensures set { ending_by X.ending result ≡ Ending.Value → IsSet self.new.log }
        ensures finished { self.new.finished ≡ is_over (ending_by X.ending result) }
        ensures armed { ending_by X.ending result ≡ Ending.Pending → IsArmed cx.new }
        ensures kept { Keeps cx.old cx.new }
        ensures value { self.new.value ≡ value_of result }
        ensures promise { IfSome (value_of result) (V.fits self.old.cell.about) }
        ensures own { IfReady result (TellsOwn I.may_fail X.ending self.old.init) }
        ensures same { GivesNoOther I.may_fail self.old.init self.new.init }
        ensures same_values { GivesNoOther I.may_give self.old.init self.new.init }
        ensures gave { IsValue result → self.new.gave ≡ gave_value self.new.number self.new.log }
        ensures own_value { self.new.gave ≡ true → IfSome (value_of result) (MayGive I.may_give self.old.init) }
    {
        let init = self.init.take();
        let mut side = PollSide {
            first: Snapshot::of(&init),
            mark: self.task.mark(),
            slot: self.task.slot(),
            cx,
            init,
            value: None,
            handed: Snapshot::of(&None),
            written: None,
            error: None,
            is_armed: false,
            woke: Snapshot::of(&Out::One(None)),
        };
        let ending = self.task.poll(&mut side);
        let PollSide {
            first: _first,
            mark: _mark,
            slot: _slot,
            cx,
            init,
            value: _value,
            handed: _handed,
            written,
            error,
            is_armed,
            woke: _woke,
        } = side;
        if ending == Ending::Pending {
            self.init = init;
            if !is_armed {
                // No clause says that a listed task's waker was renewed. If it was not, the task asks for a poll.
                let _: Poll<()> = cx.yield_now();
            }
            return Poll::Pending;
        }
        self.answer(ending, error, written)
    }
}

// What a poll tells that ended in this way, without a value. It is a call of its own, so that a poll which answers a
// value tests for that alone.
#[cold]
#[inline(never)]
fn failed<X: Failure>(ending: Ending, error: Option<Failed<X>>) -> X
    requires no_value { ending ≡ Ending.Value → ⊥ }
    requires not_pending { ending ≡ Ending.Pending → ⊥ }
    requires not_dropped { ending ≡ Ending.Dropped → ⊥ }
    requires error { ending ≡ Ending.Error → IsSome error }
    ensures ending { X.ending result ≡ ending }
    ensures own { X.ending result ≡ Ending.Error → IsSomeAnd error (λ e. e.error ≡ result) }
{
    match ending {
        Ending::Error => {
            let Failed { error } = error.unwrap();
            error
        }
        Ending::Memory => X::refused(Refused::Memory),
        Ending::Full => X::refused(Refused::Full),
        Ending::Value | Ending::Pending | Ending::Dropped => unreachable!(),
    }
}

// What a poll brings.
struct PollSide<'c, 'd, T, E, H> {
    first: Snapshot<Option<H>>,
    mark: Mark,
    // The name of the slot of its cell.
    slot: Tag,
    cx: &'c mut Context<'d>,
    init: Option<H>,
    value: Option<T>,
    // The value that it handed over, and what shows it in the cell.
    handed: Snapshot<Option<T>>,
    written: Option<Written<T>>,
    error: Option<E>,
    // The init was Pending, and saw to it that the task is woken; or the task is listed with the waker of this poll.
    is_armed: bool,
    // The wakers that it was handed to wake.
    woke: Snapshot<Out<ListedWaker>>,
}

impl<T: Drop, X: Failure, I: Init<T, X>> Side<ListedWaker> for PollSide<'_, '_, T, Failed<X>, I> {
    type Value = T;

    type Right = Hand;

    ghost did = { sided_tells whose told };

    ghost can_run = { λ s. (told s).has_init ≡ true };

    ghost can_put = { λ s. (told s).has_value ≡ true };

    ghost hands = { Hands I.may_fail I.may_give (λ e. e.error) };

    ghost handed = { λ s v. s.handed.value ≡ Some v };

    ghost stays = { Stays I.may_fail I.may_give (λ e. e.error) };

    #[inline(always)]
    fn run(&mut self, right: &mut Hand) -> Polled {
        match I::poll_init(&mut self.init, self.cx, right) {
            Poll::Pending => {
                self.is_armed = true;
                Polled::Pending
            }
            Poll::Ready(Ok(value)) => {
                self.value = Some(value);
                Polled::Value
            }
            Poll::Ready(Err(failed)) => {
                self.error = Some(failed);
                Polled::Error
            }
        }
    }

    fn close(&mut self) {
        self.init = None;
    }

    fn put(&mut self) -> T {
        self.handed = Snapshot::of(&self.value);
        self.value.take().unwrap()
    }

    fn copy(&mut self) -> Option<ListedWaker>
        ensures did { HasCopied whose (told self.old) result (told self.new) }
        ensures stays { Stays I.may_fail I.may_give (λ e. e.error) self.old self.new }
        ensures wakes { IsSomeAnd result (λ s. WakesTask s self.new.cx.now) }
        ensures names { IsSomeAnd result (λ s. NamesTask s self.new.cx.now) }
    {
        self.is_armed = true;
        Some(ListedWaker::new(&self.mark, self.cx))
    }

    fn wake(&mut self, out: Out<ListedWaker>)
        ensures did { HasWoken whose (told self.old) out (told self.new) }
        ensures stays { Stays I.may_fail I.may_give (λ e. e.error) self.old self.new }
    {
        self.woke = Snapshot::of(&out);
        drop(out);
    }

    ghost stays_same = { λ a. Prim.search rules };

    ghost stays_on = { λ a b c p q. Prim.search rules };
}

impl<T: Drop, X: Failure, I: Init<T, X>> Renews<ListedWaker> for PollSide<'_, '_, T, Failed<X>, I> {
    ghost renewed = { IsRenewed I.may_fail I.may_give (λ e. e.error) };

    fn renew(&mut self, listed: &mut ListedWaker) {
        self.is_armed = true;
        listed.register(self.cx);
    }
}

impl<T: Drop, X: Failure, I: Init<T, X>> TaskSide<ListedWaker>
    for PollSide<'_, '_, T, Failed<X>, I> {
    ghost state = { told };

    ghost has_slot = { λ s n. s.slot.numbers ≡ n ∷ [] };

    fn copies_under_lock() -> bool {
        true
    }

    fn keep(&mut self, put: Written<T>)
        requires slot { self.old.slot.numbers ≡ put.of ∷ [] }
        requires value { self.old.handed.value ≡ Some put.value }
        ensures shown { told self.new ≡ record (told self.old) { has_shown = true } }
        ensures stays { Stays I.may_fail I.may_give (λ e. e.error) self.old self.new }
    {
        self.written = Some(put);
    }

    ghost tells = { Prim.search rules };

    ghost runs = { λ s h. h };

    ghost puts = { λ s h. h };

    ghost owner = { λ s v t w r. r.whose };

    ghost renews = { λ s v t w r. (r.told, r.stays) };

    ghost hands_on = { λ s t k v h tied. subst (λ first. MayGive I.may_give first v) k.2 (h (k.4 tied)) };

    ghost slot_on = { λ s t k n h. k.3 ∙ h };
}

// What a drop brings, when the init is gone. It does not name the init's type, so that a program has its code once for
// all inits.
#[derive(Drop)]
struct LeaveSide<'r, T, R> {
    rt: &'r R,
    mark: Mark,
    // The wakers that it was handed to wake.
    woke: Snapshot<Out<ListedWaker>>,
    value: PhantomData<T>,
}

impl<T, R: Wait> Side<ListedWaker> for LeaveSide<'_, T, R> {
    type Value = T;

    type Right = Hand;

    ghost did = { sided_tells whose leaving };

    ghost hands = { λ _ _. ⊥ };

    ghost stays = { λ _ _. ⊤ };

    // Nobody calls this, `put`, `copy`, `renew` or `keep`, because a task that leaves has no init. It would never
    // return. No contract forbids the call, because the kit's verdict refuses a contract that no call can meet.
    fn run(&mut self, _right: &mut Hand) -> Polled {
        for _ in self.rt.forever() {}
        unreachable!()
    }

    fn close(&mut self) {}

    fn put(&mut self) -> T {
        for _ in self.rt.forever() {}
        unreachable!()
    }

    fn copy(&mut self) -> Option<ListedWaker> {
        for _ in self.rt.forever() {}
        unreachable!()
    }

    fn wake(&mut self, out: Out<ListedWaker>)
        ensures did { HasWoken whose (leaving self.old) out (leaving self.new) }
        ensures stays { ⊤ }
    {
        self.woke = Snapshot::of(&out);
        drop(out);
    }

    ghost stays_same = { λ _. tt };

    ghost stays_on = { λ _ _ _ _ _. tt };
}

impl<T, R: Wait> Renews<ListedWaker> for LeaveSide<'_, T, R> {
    ghost renewed = { λ s v t w. (t ≡ s) × (w ≡ v) };

    fn renew(&mut self, _listed: &mut ListedWaker) {}
}

impl<T, R: Wait> TaskSide<ListedWaker> for LeaveSide<'_, T, R> {
    ghost state = { leaving };

    ghost has_slot = { λ _ _. ⊤ };

    fn copies_under_lock() -> bool {
        false
    }

    fn keep(&mut self, _written: Written<T>)
        ensures shown { leaving self.new ≡ record (leaving self.old) { has_shown = true } }
        ensures stays { ⊤ }
    {
        for _ in self.rt.forever() {}
        unreachable!()
    }

    ghost tells = { Prim.search rules };

    ghost runs = { λ s h. tt };

    ghost puts = { λ s h. tt };

    ghost owner = { λ s v t w r. ap whose r.1 };

    ghost renews = { λ s v t w r. (ap leaving r.0, tt) };

    ghost hands_on = { λ s t k v h. h };

    ghost slot_on = { λ s t k n h. h };
}
