//! A task of a cell, with its whole polls and drops: its side, the init that it polls while it has the right, what it
//! keeps between two calls, and its steps.
ghost use Rattle.std.specs.Prelude.{◌≡◌, ◌≢◌, ◌<◌, ℕ, true, false, List, [], ◌∷◌, IsSome, IsSomeAnd, IfErr, IfOk, None};
ghost use Rattle.std.specs.Prelude.{◌↔◌, IsTrue, Option, Some, Ok, reverse};
ghost use Rattle.async_once_cell.specs.Inner.Shares.{cell_of, own};
ghost use Rattle.async_once_cell.specs.Inner.Hands.{HasRight, HasRun};
ghost use Rattle.async_once_cell.specs.Inner.Prelude.{DropBegin, DropEnd, Entry, Made, IsCall, Spans, StandsOn, end_of};
ghost use Rattle.async_once_cell.specs.Inner.Prelude.{handed, IfReady, OnPending, IsArmed, Keeps, IsPrefix, Grew};
ghost use Rattle.async_once_cell.specs.Inner.Prelude.{entries_of, EndsSet, IsSet, Ending, is_over, step_of, in_call};
ghost use Rattle.async_once_cell.specs.Inner.Prelude.{is_resting, GivesFit, IsReady, IsTold, Sided, KeepsOwner};
ghost use Rattle.async_once_cell.specs.Inner.Prelude.{TaskView, HasPolled, GivesNoOther, MayGive, polled_in};
ghost use Rattle.async_once_cell.specs.Inner.Prelude.{given_error, Once, Holding, status};

use super::book::{CellSlot, Record};
use super::hand::{Hand, Mark, TaskWaker};
use super::pollable::Pollable;
use super::shared::{Inner, Shared};
use crate::error::{Failure, InitError, Refused};
use boxcar::tag::{Names, Tag};
use futures::Future;
use futures::task::{Context, Poll};
use once_machine::step::{Ending, Rest, Side, Step};
use once_machine::waiters::Renews;
use pagebook::{Anything, Fits, Written};
use std::alloc::AllocGlobal;
use std::marker::Model;
use std::sync::Wait;

/// A side that says which task it is of, what it has of its init, and the wakers that this call gave it. If it may copy
/// its waker under the cell's lock, it renews its listed waker there in a poll.
pub trait TaskSide<W: TaskWaker>: Side<W, Right = Hand> + Renews<W> {
    ghost state: { Self → Sided };

    // It may be shown a value in the slot of this name.
    ghost has_slot: { Self → ℕ → Type 0 };

    /// Whether the waker may be copied while the cell's lock is held: only if no code runs there that could use the
    /// cell, because it would wait for the lock for ever. No clause says so. Else it is copied between two sections.
    fn copies_under_lock() -> bool;

    /// Is shown that the value which it handed over is the cell's.
    fn keep(&mut self, written: Written<Self::Value>)
        requires slot { has_slot self.old written.of }
        requires value { Self.handed self.old written.value }
        ensures shown { state self.new ≡ record (state self.old) { has_shown = true } }
        ensures stays { Self.stays self.old self.new };

    // What each call makes of its state.
    ghost tells: { IsTold W.whose state Self.did };

    ghost runs: { (s : Self) → (state s).has_init ≡ true → Self.can_run s };

    ghost puts: { (s : Self) → (state s).has_value ≡ true → Self.can_put s };

    // A listed waker that it renews stays the same task's.
    ghost owner: { KeepsOwner W.whose Self.renewed };

    ghost renews: { (s : Self) (v : W) (t : Self) (w : W) → Self.renewed s v t w
        → (state t ≡ state s) × Self.stays s t };

    // What it may hand over after a call, it might have handed over before.
    ghost hands_on: { (s t : Self) → Self.stays s t → (v : Self.Value) → Self.hands t v → Self.hands s v };

    // What it may be shown before a call, it may be shown after.
    ghost slot_on: { (s t : Self) → Self.stays s t → (n : ℕ) → has_slot s n → has_slot t n };
}

/// Which values an init may give. `X` says why there is none.
pub trait Yields<T, X>: Drop {
    // The init may give this value.
    ghost may_give: { Self → T → Type 0 };
}

/// What a task polls while it has the right. `T` is its value, and `X` says why there is none. Only a call that is lent
/// the task's hand can poll it, and a hand says whether its task has the right.
pub trait Init<T, X: Failure>: Yields<T, X> {
    // The init may fail with this error.
    ghost may_fail: { Self → X → Type 0 };

    /// Polls the init, which stays there if it is Pending, and writes the answer into the record.
    fn poll_init(
        init: &mut Option<Self>,
        cx: &mut Context<'_>,
        right: &mut Hand,
    ) -> Poll<Result<T, Failed<X>>>
        requires init { IsSome init.old }
        requires right { HasRight right.old }
        ensures ran { HasRun right.old (polled_in result) right.new }
        ensures init { OnPending result (IsSome init.new) }
        ensures own { IfReady result (λ a. IfErr a (λ e. MayGive may_fail init.old e.error)) }
        ensures given { IfReady result (λ a. IfOk a (MayGive Self.may_give init.old)) }
        ensures same { GivesNoOther may_fail init.old init.new }
        ensures same_values { GivesNoOther Self.may_give init.old init.new }
        ensures armed { OnPending result (IsArmed cx.new) }
        ensures kept { Keeps cx.old cx.new };
}

/// An error of an init.
#[derive(Drop)]
pub struct Failed<X: Failure> {
    /// The error, as the future tells it.
    pub error: X,
    pub ghost own: { X.ending error ≡ Ending.Error },
}

/// What an init gives: the value, or a result with the value or an error.
pub trait Gives<T, X: Failure> {
    // What the init gave, if a poll tells this error of its own init.
    ghost given_as: { X → Option Self };

    // What it gave, if this is its value.
    ghost given_with: { T → Option Self };

    /// The value, or the error as a future tells it.
    fn given(self) -> Result<T, X>
        ensures error { IfErr result (λ x. X.ending x ≡ Ending.Error) }
        ensures own { IfErr result (λ x. given_as x ≡ Some self) }
        ensures value { IfOk result (λ v. given_with v ≡ Some self) };
}

impl<T> Gives<T, Refused> for T {
    ghost given_as = { λ _. None };

    ghost given_with = { λ v. Some v };

    fn given(self) -> Result<T, Refused> {
        Ok(self)
    }
}

impl<T, E: Drop> Gives<T, InitError<E>> for Result<T, E> {
    ghost given_as = { given_error };

    ghost given_with = { λ v. Some (Ok v) };

    fn given(self) -> Result<T, InitError<E>> {
        match self {
            Ok(value) => Ok(value),
            Err(error) => Err(InitError::Init(error)),
        }
    }
}

impl<T, X: Failure, F: Future<Output: Gives<T, X>>> Yields<T, X> for Pollable<F> {
    ghost may_give = { λ f v. IsSomeAnd (F.Output.given_with v) (F.gives f) };
}

/// An init of the task's own, or the future of a lazy cell.
impl<T, X: Failure, F: Future<Output: Gives<T, X>>> Init<T, X> for Pollable<F> {
    ghost may_fail = { λ f x. IsSomeAnd (F.Output.given_as x) (F.gives f) };

    fn poll_init(
        init: &mut Option<Self>,
        cx: &mut Context<'_>,
        right: &mut Hand,
    ) -> Poll<Result<T, Failed<X>>> {
        let Some(pollable) = init.take() else {
            unreachable!()
        };
        pollable.ask(cx, init, right)
    }
}

/// Where the next call of a task begins, if there is to be one. It has fewer bytes than the step of a call.
#[derive(Clone, Copy)]
pub(super) enum Idle {
    New,
    /// It waits, and its listing has this ticket.
    Listed(u64),
    /// It waits, and is not listed.
    Unlisted,
    /// It holds by the quick claim.
    Quick,
    /// It holds by the queue.
    Queued,
    Finished,
}

impl Idle {
    pub(super) fn of<W: Drop>(step: Step<W, ()>) -> Idle
        requires over { in_call step ≡ false }
        ensures is { step_of result ≡ step }
    {
        match step {
            Step::Resting(Rest::Start) => Idle::New,
            Step::Resting(Rest::Wait(_, Some(ticket))) => Idle::Listed(ticket),
            Step::Resting(Rest::Wait(_, None)) => Idle::Unlisted,
            Step::Resting(Rest::Run(None)) => Idle::Quick,
            Step::Resting(Rest::Run(Some(_))) => Idle::Queued,
            Step::UnderWay(_) => unreachable!(),
            Step::Finished => Idle::Finished,
        }
    }

    pub(super) fn step<W: Drop>(&self) -> Step<W, ()>
        ensures is { result ≡ step_of self.now }
        ensures rests { is_over self.now ≡ false → is_resting result ≡ true }
    {
        match self {
            Idle::New => Step::Resting(Rest::Start),
            Idle::Listed(ticket) => Step::Resting(Rest::Wait((), Some(*ticket))),
            Idle::Unlisted => Step::Resting(Rest::Wait((), None)),
            Idle::Quick => Step::Resting(Rest::Run(None)),
            Idle::Queued => Step::Resting(Rest::Run(Some(()))),
            Idle::Finished => Step::Finished,
        }
    }
}

/// A task of a cell, between two of its calls: its share of the cell, and where its next call begins. A clause sees its
/// cell, its number in the record, the record as far as the task has seen it, and whether it is finished.
#[derive(Drop)]
pub struct Task<'a, 'r, T, W: TaskWaker, R, V: Fits<T> = Anything> {
    parts: Shared<'a, 'r, T, W, R, V>,
    ghost stands: { is_over parts.idle ≡ false → StandsOn W.whose (own parts) (step_of parts.idle) },
}

impl<'a, 'r, T, W: TaskWaker, R, V: Fits<T>> Model for Task<'a, 'r, T, W, R, V> {
    ghost Value = { TaskView };

    ghost view = { λ t. record {
      cell = cell_of t.parts;
      number = (own t.parts).number;
      log = (own t.parts).log;
      finished = is_over t.parts.idle;
    } };
}

impl<'a, 'r, T, W: TaskWaker + Drop, R, V: Fits<T>> Task<'a, 'r, T, W, R, V> {
    /// A new task.
    ///
    /// ```
    /// let task = Task::new(cell, rt);
    /// let side = TestSide::new(rt, name, task.mark(), answer)?;
    /// ```
    pub fn new(inner: &'a Inner<T, W, V>, rt: &'r R) -> Self
        ensures cell { result.cell ≡ inner.now.slot }
        ensures live { result.finished ≡ false }
        ensures log { (seen : List Entry) × Grew (Made result.number ∷ []) seen result.log }
    {
        Task {
            parts: inner.task(rt),
        }
    }

    /// Whether the last call ended with anything but Pending, or the task was dropped. It may not be polled after that.
    pub fn is_finished(&self) -> bool
        ensures { result ≡ self.now.finished }
    {
        matches!(self.parts.idle, Idle::Finished)
    }

    /// The value, for a task whose last call ended with it.
    pub fn value(&self) -> (&'a T, Written<T>)
        requires ended { EndsSet self.now.number self.now.log }
        ensures value { (result.0.now ≡ result.1.value) × (result.1.of ≡ self.now.cell.id) }
        ensures promise { V.fits self.now.cell.about result.0.now }
    {
        self.parts.value()
    }

    /// The handle that the task was made with.
    pub fn rt(&self) -> &'r R {
        self.parts.rt
    }

    /// The number of this task, for its wakers.
    pub fn mark(&self) -> Mark
        ensures { result ≡ self.now.number }
    {
        self.parts.mark()
    }

    /// The name of the slot of its cell, for a side that is to be shown the value. It has no bytes.
    pub fn slot(&self) -> Tag
        ensures { result.numbers ≡ self.now.cell.id ∷ [] }
    {
        Tag::of::<CellSlot<T, V>, SlotName>(&self.parts.inner.slot)
    }

    /// The task learns what a record of its cell has. Its next call comes after that.
    pub fn learn(&mut self, seen: &Record)
        requires book { seen.now.book ≡ self.old.cell.book }
        ensures cell { self.new.cell ≡ self.old.cell }
        ensures number { self.new.number ≡ self.old.number }
        ensures finished { self.new.finished ≡ self.old.finished }
        ensures log { IsPrefix self.old.log self.new.log × IsPrefix seen.now.log self.new.log }
        ensures mine { entries_of self.old.number self.new.log ≡ entries_of self.old.number self.old.log }
        ensures own_set { IsSet self.old.log → IsSet self.new.log }
        ensures other_set { IsSet seen.now.log → IsSet self.new.log }
    {
        let parts = &mut self.parts;
        parts.hand.learn(seen);
    }

    /// Whether the task rests with the right, by the record too, of which it may learn more.
    pub fn holds(&mut self) -> bool
        requires live { self.old.finished ≡ false }
        ensures cell { self.new.cell ≡ self.old.cell }
        ensures number { self.new.number ≡ self.old.number }
        ensures finished { self.new.finished ≡ self.old.finished }
        ensures log { IsPrefix self.old.log self.new.log }
        ensures set { IsSet self.old.log → IsSet self.new.log }
        ensures holds { IsTrue result ↔ (status Once self.new.number (reverse self.new.log) ≡ Holding) }
    {
        let parts = &mut self.parts;
        parts.hand.recall();
        matches!(parts.idle, Idle::Quick | Idle::Queued)
    }

    /// Shows that two tasks of a cell have two numbers. The first may learn more of the record.
    pub fn are_two(a: &mut Self, b: &mut Self)
        requires book { b.old.cell.book ≡ a.old.cell.book }
        ensures cell { a.new.cell ≡ a.old.cell }
        ensures number { a.new.number ≡ a.old.number }
        ensures finished { a.new.finished ≡ a.old.finished }
        ensures log { IsPrefix a.old.log a.new.log }
        ensures set { IsSet a.old.log → IsSet a.new.log }
        ensures other { b.new ≡ b.old }
        ensures two { a.new.number ≢ b.new.number }
    {
        let (a, b) = (&mut a.parts, &mut b.parts);
        Hand::are_two(&mut a.hand, &mut b.hand);
    }

    /// The record as far as this task has seen it.
    pub fn record(&self) -> Record
        ensures { (result.book ≡ self.now.cell.book) × (result.log ≡ self.now.log) }
    {
        self.parts.hand.seen.again()
    }
}

impl<'a, 'r, T, W: TaskWaker + Drop, R: Wait + AllocGlobal, V: Fits<T>> Task<'a, 'r, T, W, R, V> {
    /// A whole poll. It may wait for the cell's lock, and for whatever the side waits for. The wakers that were handed
    /// to the side are those of the tasks that its entries name, in their order. It began after all that the task had
    /// seen before, so if the cell was set in that, it answers the value.
    ///
    /// ```
    /// self.side.begin();
    /// self.task.poll(&mut self.side)
    /// ```
    #[inline(always)]
    pub fn poll<S: TaskSide<W, Value = T>>(&mut self, side: &mut S) -> Ending
        requires live { self.old.finished ≡ false }
        requires number { (S.state side.old).number ≡ self.old.number }
        requires nobody_woken { (S.state side.old).woke ≡ [] }
        requires init { IsReady (S.state side.old) }
        requires fits { GivesFit S.hands S.has_slot V.fits side.old self.old.cell }
        ensures cell { self.new.cell ≡ self.old.cell }
        ensures polled { HasPolled (S.state side.new) result self.old self.new }
        ensures set { IsSet self.old.log → result ≡ Ending.Value }
        ensures stays { S.stays side.old side.new }
    {
        let ending = self.poll_steps(side);
        answered_where_set(&self.record());
        ending
    }

    #[inline(always)]
    fn poll_steps<S: TaskSide<W, Value = T>>(&mut self, side: &mut S) -> Ending
        requires live { self.old.finished ≡ false }
        requires number { (S.state side.old).number ≡ self.old.number }
        requires nobody_woken { (S.state side.old).woke ≡ [] }
        requires init { IsReady (S.state side.old) }
        requires fits { GivesFit S.hands S.has_slot V.fits side.old self.old.cell }
        ensures cell { self.new.cell ≡ self.old.cell }
        ensures polled { HasPolled (S.state side.new) result self.old self.new }
        ensures stays { S.stays side.old side.new }
    {
        let idle = self.parts.idle;
        self.parts.begin();
        if !S::copies_under_lock() {
            return self.parts.by_steps(idle, side);
        }
        if let Idle::New = idle {
            return self.parts.at_start(side);
        }
        self.parts.later(idle, side)
    }

    /// A whole drop of a task that is not finished. It may wait, and hands wakers to the side, as [`poll`](Self::poll).
    pub fn leave<S: TaskSide<W, Value = T>>(&mut self, side: &mut S)
        requires live { self.old.finished ≡ false }
        requires number { (S.state side.old).number ≡ self.old.number }
        requires nobody_woken { (S.state side.old).woke ≡ [] }
        requires fits { GivesFit S.hands S.has_slot V.fits side.old self.old.cell }
        ensures cell { self.new.cell ≡ self.old.cell }
        ensures number { self.new.number ≡ self.old.number }
        ensures end { Grew (end_of self.new.number Ending.Dropped ∷ []) self.old.log self.new.log }
        ensures call { (mid : List Entry)
            × IsCall self.new.number (DropBegin self.new.number) (DropEnd self.new.number) mid self.old.log self.new.log
            × ((S.state side.new).woke ≡ handed mid) }
        ensures finished { self.new.finished ≡ true }
        ensures stays { S.stays side.old side.new }
    {
        let mut step = self.parts.idle.step();
        self.parts.begin_drop();
        if !step.begin_drop(side) {
            self.parts.idle = Idle::Finished;
            return;
        }
        self.parts.go_on(&mut step, side);
        self.parts.idle = Idle::Finished;
    }
}

struct SlotName;

impl<T, V: Fits<T>> Names<CellSlot<T, V>> for SlotName {
    ghost numbers = { λ slot. slot.id ∷ [] };
}

// A poll that began after the cell was set answered the value.
fn answered_where_set(seen: &Record)
    ensures { (t : ℕ) (e : Ending) (old : List Entry) → IsSet old → Spans t (end_of t e) old seen.now.log
        → (e ≡ Ending.Dropped → ⊥) → e ≡ Ending.Value }
{
    seen.again().learn(seen);
}
