//! The future of a cell that owns its init.
ghost use Rattle.std.specs.Prelude.{◌≡◌, ◌≢◌, ⊤, ℕ, IfOk, IfSome, IsSome, List, None, Option, Result, false};
ghost use Rattle.std.specs.Prelude.{◌↔◌, IsTrue, true, reverse};
ghost use Rattle.async_once_cell.specs.Prelude.{Answers, DidPoll, HasLeft, IsValue, IsValueAtOnce, Polls, TellsGave};
ghost use Rattle.async_once_cell.specs.Prelude.{PollsAs, SpansIn, Waits, ending_by, ending_of_refusal, value_of, IsSet};
ghost use Rattle.async_once_cell.specs.Prelude.{PollsOnce, WasFilled, option_or, Bor, IfReady, OnPending, Covers};
ghost use Rattle.async_once_cell.specs.Prelude.{Keeps, IsPrefix, Agrees, IsSetIn, about_of, is_shared, MayGive};
ghost use Rattle.async_once_cell.specs.Prelude.{entries_of, most, end_of, SomebodyCalled, Once, AtEvery, IsRun};
ghost use Rattle.async_once_cell.specs.Prelude.{NobodyForgotten, AnswersFit, AnswersLate, IfFailure, SawEnd};
ghost use Rattle.async_once_cell.specs.Prelude.{IsHolderIn, of_numbers};

use crate::error::Refused;
use crate::inner::{Failed, Hand, Init, Pollable, Yields};
use crate::once::{Initializing, Known, Parker};
use boxcar::tag::{Names, Tag};
use futures::Future;
use futures::task::{Context, Poll};
use pagebook::{Anything, Fits, Key, Keyed, KeyedMutex};
use std::alloc::AllocGlobal;
use std::marker::{Brand, Model, PhantomData};
use std::random::RandomSource;
use std::sync::Wait;
use std::{fmt, io, mem};

/// Future of [`Lazy::get`](crate::Lazy::get). A poll answers the value that is set. While none is set, the task that
/// gets the right polls the cell's future; the others are Pending until they are woken. To drop one of these leaves the
/// cell's future as it is, and another task drives it on.
///
/// It has the calls of [`Initializing`], where most have an example, and a clause sees the same of it. What a poll or a
/// drop may wait for is said there too. Besides, a poll may wait for the lock in which the cell keeps its future.
/// Nobody has that lock while the future is polled.
#[derive(Drop)]
pub struct LazyFuturePin<'a, T, F: Future, R: Wait + AllocGlobal, V = Anything>
where
    V: Fits<T> + Fits<F::Output>,
{
    pub(super) inner: Initializing<'a, T, Refused, Driven<'a, F, R, V>, R, V>,
}

/// Future of [`Lazy::get_unpin`](crate::Lazy::get_unpin) and of [`Lazy::into_future`](crate::Lazy::into_future). It is
/// the same type, because all futures of a cell may be moved between their polls.
pub type LazyFutureUnpin<'a, T, F, R, V = Anything> = LazyFuturePin<'a, T, F, R, V>;

impl<'a, T, F: Future, R: Wait + AllocGlobal, V: Fits<T> + Fits<F::Output>> Model
    for LazyFuturePin<'a, T, F, R, V> {
    ghost use Rattle.async_once_cell.specs.declared.lazy.future.Driven.{Driven};
    ghost use Rattle.async_once_cell.specs.Views.{FutureView};

    ghost Value = { FutureView T (Driven F R V F.Output) };

    ghost view = { λ f. f.inner };
}

impl<'a, T, F: Future, R, V: Fits<T> + Fits<F::Output>> LazyFuturePin<'a, T, F, R, V>
where
    R: Wait + AllocGlobal,
{
    /// As [`Initializing::is_finished`].
    pub fn is_finished(&self) -> bool
        ensures { result ≡ self.now.finished }
    {
        self.inner.is_finished()
    }

    /// As [`Initializing::gave`]: whether this future drove the cell's to the value that it answered.
    pub fn gave(&self) -> bool
        ensures { result ≡ self.now.gave }
    {
        self.inner.gave()
    }

    /// As [`Initializing::is_run`].
    pub fn is_run(&self)
        ensures run { is_shared self.now.cell ≡ true → IsRun Once most (reverse self.now.log) }
        ensures called { is_shared self.now.cell ≡ true → AtEvery (SomebodyCalled Once) (reverse self.now.log) }
        ensures filled { is_shared self.now.cell ≡ true → IsSet self.now.log → WasFilled self.now.log }
        ensures nobody_forgotten { is_shared self.now.cell ≡ true
            → AtEvery (NobodyForgotten Once) (reverse self.now.log) }
        ensures once { is_shared self.now.cell ≡ true → PollsOnce self.now.log }
    {
        self.inner.is_run();
    }

    /// As [`Initializing::tell`].
    pub fn tell(&self, token: &mut Known<'a, T, V>)
        requires token_of_this_cell { token.old.cell ≡ self.now.cell }
        ensures cell { token.new.cell ≡ token.old.cell }
        ensures value { token.new.value ≡ option_or token.old.value self.now.value }
        ensures agrees { IfSome self.now.value (Agrees token.old.value) }
        ensures log { IsPrefix token.old.log token.new.log }
        ensures other { IsPrefix self.now.log token.new.log }
        ensures set { IsSetIn self.now.cell self.now.log → IsSetIn token.new.cell token.new.log }
    {
        self.inner.tell(token);
    }

    /// As [`Initializing::learn`].
    pub fn learn(&mut self, token: &Known<'a, T, V>)
        requires token_of_this_cell { token.now.cell ≡ self.old.cell }
        ensures cell { self.new.cell ≡ self.old.cell }
        ensures task { self.new.task ≡ self.old.task }
        ensures finished { self.new.finished ≡ self.old.finished }
        ensures value { self.new.value ≡ self.old.value }
        ensures log { IsPrefix self.old.log self.new.log }
        ensures other { IsPrefix token.now.log self.new.log }
        ensures mine { entries_of self.old.task self.new.log ≡ entries_of self.old.task self.old.log }
        ensures own_set { IsSetIn self.old.cell self.old.log → IsSetIn self.new.cell self.new.log }
        ensures other_set { IsSetIn token.now.cell token.now.log → IsSetIn self.new.cell self.new.log }
    {
        self.inner.learn(token);
    }

    /// As [`Initializing::holds`]: whether this future has the right to drive the cell's on.
    pub fn holds(&mut self) -> bool
        requires unfinished { self.old.finished ≡ false }
        ensures cell { self.new.cell ≡ self.old.cell }
        ensures task { self.new.task ≡ self.old.task }
        ensures finished { self.new.finished ≡ self.old.finished }
        ensures value { self.new.value ≡ self.old.value }
        ensures log { IsPrefix self.old.log self.new.log }
        ensures set { IsSetIn self.old.cell self.old.log → IsSetIn self.new.cell self.new.log }
        ensures holds { IsTrue result ↔ IsHolderIn self.new.cell self.new.task self.new.log }
    {
        self.inner.holds()
    }

    /// As [`Initializing::leave`]. The cell's future stays as it is, and another task drives it on.
    pub fn leave(&mut self)
        requires unfinished { self.old.finished ≡ false }
        ensures left { HasLeft self.old self.new }
        ensures set { IsSetIn self.old.cell self.old.log → IsSetIn self.new.cell self.new.log }
        ensures value { self.new.value ≡ None }
    {
        self.inner.leave();
    }

    /// As [`Initializing::are_two`].
    pub fn are_two(a: &mut Self, b: &mut Self)
        requires one_cell { b.old.cell ≡ a.old.cell }
        ensures cell { a.new.cell ≡ a.old.cell }
        ensures task { a.new.task ≡ a.old.task }
        ensures finished { a.new.finished ≡ a.old.finished }
        ensures value { a.new.value ≡ a.old.value }
        ensures log { IsPrefix a.old.log a.new.log }
        ensures set { IsSetIn a.old.cell a.old.log → IsSetIn a.new.cell a.new.log }
        ensures other { b.new ≡ b.old }
        ensures two { is_shared a.old.cell ≡ true → a.new.task ≢ b.new.task }
    {
        Initializing::are_two(&mut a.inner, &mut b.inner);
    }
}

impl<'a, T: Drop, F: Future<Output = T>, R, V: Fits<T>> LazyFuturePin<'a, T, F, R, V>
where
    R: Wait + AllocGlobal,
{
    /// As [`Initializing::poll`]. The cell's future has no error of its own to tell.
    pub fn poll(&mut self, cx: &mut Context<'_>) -> Poll<Result<&'a T, Refused>>
        requires unfinished { self.old.finished ≡ false }
        ensures call { DidPoll self.old self.new cx.old cx.new (ending_by ending_of_refusal result) }
        ensures value { Answers self.old.cell result }
        ensures promise { is_shared self.old.cell ≡ true
            → IfSome (value_of result) (λ value. V.fits (about_of self.old.cell) value) }
        ensures answered { self.new.value ≡ value_of result }
        ensures late { IsSetIn self.old.cell self.old.log → IsValue result }
        ensures gave { TellsGave self.new result }
    {
        self.inner.poll(cx)
    }

    /// As [`Initializing::poll_as`].
    pub fn poll_as(
        &mut self,
        cx: &mut Context<'_>,
        token: &mut Known<'a, T, V>,
    ) -> Poll<Result<&'a T, Refused>>
        requires unfinished { self.old.finished ≡ false }
        requires token_of_this_cell { token.old.cell ≡ self.old.cell }
        ensures call { PollsAs token.old.value self.old self.new cx.old cx.new (ending_by ending_of_refusal result) }
        ensures cell { token.new.cell ≡ token.old.cell }
        ensures value { Polls token.old.value token.new.value result }
        ensures promise { is_shared self.old.cell ≡ true → IfSome (value_of result) (V.fits (about_of self.old.cell)) }
        ensures answered { self.new.value ≡ value_of result }
        ensures log { IsPrefix token.old.log token.new.log }
        ensures told { token.old.value ≡ None → IsPrefix self.new.log token.new.log }
        ensures set { IsValue result → IsSetIn token.new.cell token.new.log }
        ensures spans { token.old.value ≡ None
            → SpansIn self.old.cell self.old.task (end_of self.old.task (ending_by ending_of_refusal result))
            token.old.log self.new.log }
        ensures late { IsSetIn token.old.cell token.old.log → IsValue result }
        ensures future_late { IsSetIn self.old.cell self.old.log → IsValue result }
        ensures gave { token.old.value ≡ None → TellsGave self.new result }
    {
        self.inner.poll_as(cx, token)
    }

    /// As [`Initializing::wait`].
    pub fn wait(self) -> io::Result<Result<&'a T, Refused>>
    where
        R: RandomSource,
        requires unfinished { self.finished ≡ false }
        ensures fits { IfOk result (AnswersFit V.fits self.entry.cell) }
    {
        self.inner.wait()
    }

    /// As [`Initializing::wait_as`].
    pub fn wait_as(self, token: &mut Known<'a, T, V>) -> io::Result<Result<&'a T, Refused>>
    where
        R: RandomSource,
        requires unfinished { self.finished ≡ false }
        requires token_of_this_cell { token.old.cell ≡ self.cell }
        ensures cell { token.new.cell ≡ token.old.cell }
        ensures value { Waits token.old.value token.new.value result }
        ensures log { IsPrefix token.old.log token.new.log }
        ensures late { IsSetIn token.old.cell token.old.log → IsValueAtOnce result }
        ensures set { IsValueAtOnce result → IsSetIn token.new.cell token.new.log }
        ensures last { IfFailure result (λ x. SawEnd self.entry.cell self.entry.task
            (end_of self.entry.task (ending_of_refusal x)) token.old.log token.new.log) }
        ensures fits { IfOk result (AnswersFit V.fits self.entry.cell) }
    {
        self.inner.wait_as(token)
    }

    /// As [`Initializing::wait_on`].
    pub fn wait_on(self, parker: &mut Parker) -> io::Result<Result<&'a T, Refused>>
        requires unfinished { self.finished ≡ false }
        ensures fits { IfOk result (AnswersFit V.fits self.entry.cell) }
    {
        self.inner.wait_on(parker)
    }

    /// As [`Initializing::wait_as_on`].
    pub fn wait_as_on(
        self,
        token: &mut Known<'a, T, V>,
        parker: &mut Parker,
    ) -> io::Result<Result<&'a T, Refused>>
        requires unfinished { self.finished ≡ false }
        requires token_of_this_cell { token.old.cell ≡ self.cell }
        ensures cell { token.new.cell ≡ token.old.cell }
        ensures value { Waits token.old.value token.new.value result }
        ensures log { IsPrefix token.old.log token.new.log }
        ensures late { IsSetIn token.old.cell token.old.log → IsValueAtOnce result }
        ensures set { IsValueAtOnce result → IsSetIn token.new.cell token.new.log }
        ensures last { IfFailure result (λ x. SawEnd self.entry.cell self.entry.task
            (end_of self.entry.task (ending_of_refusal x)) token.old.log token.new.log) }
        ensures fits { IfOk result (AnswersFit V.fits self.entry.cell) }
    {
        self.inner.wait_as_on(token, parker)
    }
}

impl<'a, T: Drop, F: Future<Output = T>, R: Wait + AllocGlobal, V: Fits<T>> Future
    for LazyFuturePin<'a, T, F, R, V> {
    type Output = Result<&'a T, Refused>;

    // A value is the owner's, if there is one, and fits what the cell promises. A future that has seen that the cell is
    // set answers one.
    ghost gives = { λ f r. AnswersFit V.fits f.cell r × AnswersLate f.cell f.log r };

    fn poll(&mut self, cx: &mut Context<'_>) -> Poll<Result<&'a T, Refused>>
        ensures value { IfReady result (λ r. AnswersFit V.fits self.old.cell r
            × AnswersLate self.old.cell self.old.log r) }
        ensures again { OnPending result ⊤ }
        ensures same { OnPending result ((x : Result (Bor T) Refused)
            → AnswersFit V.fits self.new.cell x × AnswersLate self.new.cell self.new.log x
            → AnswersFit V.fits self.old.cell x × AnswersLate self.old.cell self.old.log x) }
        ensures registered { OnPending result (Covers cx.new (λ _. ⊥)) }
        ensures kept { Keeps cx.old cx.new }
        ensures call { self.old.finished ≡ false
            → DidPoll self.old self.new cx.old cx.new (ending_by ending_of_refusal result) }
        ensures answers { self.old.finished ≡ false → Answers self.old.cell result }
        ensures promise { is_shared self.old.cell ≡ true → IfSome (value_of result) (V.fits (about_of self.old.cell)) }
        ensures answered { self.old.finished ≡ false → self.new.value ≡ value_of result }
        ensures late { self.old.finished ≡ false → IsSetIn self.old.cell self.old.log → IsValue result }
        ensures gave { TellsGave self.new result }
        ensures over { self.old.finished ≡ true → (result ≡ Poll.Pending) × (self.new ≡ self.old) }
    {
        <Initializing<'a, T, Refused, Driven<'a, F, R, V>, R, V> as Future>::poll(
            &mut self.inner,
            cx,
        )
    }
}

impl<T, F: Future, R: Wait + AllocGlobal, V: Fits<T> + Fits<F::Output>> fmt::Debug
    for LazyFuturePin<'_, T, F, R, V> {
    fn fmt<W: fmt::Write>(&self, f: &mut fmt::Formatter<W>) -> fmt::Result {
        let finished = self.is_finished();
        write!(f, "LazyFuturePin {{ finished: {finished} }}")
    }
}

/// What a cell keeps of its future, if that is there: it gives no value but such as fit what is promised about the
/// numbers of the tag. A clause sees the future, and those numbers.
#[derive(Drop)]
pub(super) struct Promised<F: Future, V: Fits<F::Output>> {
    future: Option<Pollable<F>>,
    about: Tag,
    promise: PhantomData<V>,
}

impl<F: Future, V: Fits<F::Output>> Model for Promised<F, V> {
    ghost Value = { Option F × List ℕ };

    ghost view = { λ p. (p.future, p.about.numbers) };

    ghost invariant = { λ p. (v : F.Output) → MayGive F.gives p.future v → V.fits p.about.numbers v };
}

impl<F: Future, V: Fits<F::Output>> Keyed for Promised<F, V> {
    ghost key_of = { λ p. of_numbers p.1 };
}

/// The numbers about which something is promised.
pub(super) struct Numbers;

impl<F: Future, V: Fits<F::Output>> Names<Promised<F, V>> for Numbers {
    ghost numbers = { λ p. p.1 };
}

impl Names<Tag> for Numbers {
    ghost numbers = { λ tag. tag.numbers };
}

impl<F: Future, V: Fits<F::Output>> Promised<F, V> {
    /// This future, whose values fit what is promised about the numbers of the tag.
    pub(super) fn new(future: F, tag: &Tag) -> Self
        requires can { F.can_poll future }
        requires fits { (v : F.Output) → F.gives future v → V.fits tag.now.numbers v }
        ensures { result.1 ≡ tag.now.numbers }
    {
        Promised {
            future: Some(Pollable::new(future)),
            about: Tag::of::<Tag, Numbers>(tag),
            promise: PhantomData,
        }
    }

    /// No future.
    pub(super) fn none(about: Tag) -> Self
        ensures { result ≡ (None, about.numbers) }
    {
        Promised {
            future: None,
            about,
            promise: PhantomData,
        }
    }

    /// The future, if it is there.
    pub(super) fn into_future(self) -> Option<F> {
        self.future.map(Pollable::into_inner)
    }

    // Leaves no future.
    #[inline(always)]
    fn take(&mut self) -> Self
        ensures left { self.new ≡ (None, self.old.1) }
        ensures taken { result ≡ self.old }
    {
        let about = Tag::of::<Self, Numbers>(self);
        mem::replace(self, Promised::none(about))
    }
}

// The future of a cell, as the task that holds the right drives it on. To drop this leaves it as it is.
#[derive(Drop)]
pub(crate) struct Driven<'a, F: Future, R, V: Fits<F::Output>> {
    pub(super) rt: &'a R,
    pub(super) future: &'a KeyedMutex<Promised<F, V>>,
}

impl<F: Future, R: Wait, V: Fits<F::Output>> Driven<'_, F, R, V> {
    // Only the task that has the right takes the future out, and it puts it back before it gives the right back. So it
    // is there at the first look. No clause says so, and hence a look that missed it would look again.
    #[inline(always)]
    fn take_out<J: Key>(&self) -> Promised<F, V>
        requires { self.now.future.now ≡ J.key }
        ensures some { IsSome result.0 }
        ensures about { result.1 ≡ J.key.about }
    {
        for _ in self.rt.forever() {
            let kept = self.future.lock::<J, R>(self.rt).value.take();
            if kept.future.is_some() {
                return kept;
            }
        }
        unreachable!()
    }

    #[inline(always)]
    fn put_back<J: Key>(&self, kept: Promised<F, V>)
        requires key { self.now.future.now ≡ J.key }
        requires about { kept.1 ≡ J.key.about }
    {
        self.future.lock::<J, R>(self.rt).value = kept;
    }
}

impl<T, F: Future, R, V: Fits<T> + Fits<F::Output>> Yields<T, Refused> for Driven<'_, F, R, V> {
    ghost may_give = { λ d v. V.Fits-1.fits d.future.now.about v };
}

impl<T, F: Future<Output = T>, R: Wait, V: Fits<T>> Init<T, Refused> for Driven<'_, F, R, V> {
    ghost may_fail = { λ _ _. ⊥ };

    // The future is polled with the lock free. When it gave its value it is dropped, before the value is set.
    #[inline(always)]
    fn poll_init(
        init: &mut Option<Self>,
        cx: &mut Context<'_>,
        right: &mut Hand,
    ) -> Poll<Result<T, Failed<Refused>>> {
        let Some(driven) = init else { unreachable!() };
        let Promised {
            mut future,
            about,
            promise: _,
        } = driven.take_out::<Brand>();
        let polled = <Pollable<F> as Init<T, Refused>>::poll_init(&mut future, cx, right);
        let kept = Promised {
            future,
            about,
            promise: PhantomData,
        };
        driven.put_back::<Brand>(kept);
        polled
    }
}
