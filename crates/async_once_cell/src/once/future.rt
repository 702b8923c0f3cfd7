//! The future of a cell. Three names stand for it, by what its init gives and what it answers.
ghost use Rattle.std.specs.Prelude.{◌≡◌, ◌≢◌, ◌↔◌, ⊤, IfSome, IsSome, IsTrue, None, Result, Some, false, true};
ghost use Rattle.std.specs.Prelude.{reverse};
ghost use Rattle.async_once_cell.specs.Futures.{IsOfCell, KeepsPromise, view_of_future};
ghost use Rattle.async_once_cell.specs.Prelude.{Answers, AnswersFit, AnswersLate, AnswersOwn, TellsGave, DidPoll};
ghost use Rattle.async_once_cell.specs.Prelude.{HasLeft, IsMade, IsValue, Polls, PollsAs, IsHolderIn};
ghost use Rattle.async_once_cell.specs.Prelude.{SpansIn, ending_by, value_of, option_or, Bor, IfReady, OnPending};
ghost use Rattle.async_once_cell.specs.Prelude.{Covers, Keeps, IsPrefix, GivesNoOther, TellsOwn, Agrees, IsSetIn, IsOf};
ghost use Rattle.async_once_cell.specs.Prelude.{about_of, is_shared, known_of, log_of, FutureView, Once, AtEvery};
ghost use Rattle.async_once_cell.specs.Prelude.{IsRun, NobodyForgotten, SomebodyCalled, entries_of, most, end_of};
ghost use Rattle.async_once_cell.specs.Prelude.{IsSet, PollsOnce, WasFilled};

use super::known::Seen;
use super::{Contents, Known, OnceCell};
use crate::attempt::{Attempt, Shown};
use crate::error::{Failure, InitError, Refused};
use crate::inner::hand::is_run;
use crate::inner::{Init, Pollable, Task, Yields};
use futures::Future;
use futures::task::{Context, Poll};
use pagebook::{Anything, Fits};
use std::alloc::AllocGlobal;
use std::fmt;
use std::marker::{Model, PhantomData};
use std::sync::Wait;

#[derive(Drop)]
enum FutureState<'a, T, I: Drop, R: Wait + AllocGlobal, V: Fits<T> = Anything> {
    // A cell with its owner's value: the next poll drops the init and answers that value.
    Owned(&'a R, I),
    Answered(&'a R),
    Left(&'a R),
    // A cell that tasks share, of which the future is one.
    Shared(Attempt<'a, T, I, R, V>),
}

/// Future of [`OnceCell::get_or_init`]. Its init gives the value.
pub type InitFuture<'a, T, F, R, V = Anything> = Initializing<'a, T, Refused, Pollable<F>, R, V>;

/// Future of [`OnceCell::get_or_try_init`]. Its init gives the value or an error.
pub type TryInitFuture<'a, T, E, F, R, V = Anything> = Initializing<
    'a,
    T,
    InitError<E>,
    Pollable<F>,
    R,
    V,
>;

/// Future of a cell. `X` says why there is no value: [`Refused`], or an [`InitError`] if the init may fail.
///
/// A poll answers the value that is set. While the cell is empty, the task that gets the right polls its init, and the
/// others are Pending until they are woken. The value wakes all of them. An error, or the drop of a future that had the
/// right, wakes one. If that one is dropped or refused instead, and nobody holds then, it wakes the next.
///
/// The init is kept until the first poll. It is dropped in the poll that answers, before the task gives the right or
/// its place back; or else with the future. A poll or a drop may wait for the lock of the cell, and does not
/// have it while it polls or drops its init. A poll may take memory while another task holds or is in a call.
///
/// A clause sees the future's cell, its init if that is there still, the number of its task, and the cell's record as
/// far as the task has seen it. It sees also whether the future is finished, and the value that it answered.
pub struct Initializing<'a, T, X, I: Yields<T, X>, R: Wait + AllocGlobal, V: Fits<T> = Anything> {
    failure: PhantomData<X>,
    pub(super) cell: &'a OnceCell<T, V>,
    state: FutureState<'a, T, I, R, V>,
}

impl<'a, T, X, I: Yields<T, X>, R: Wait + AllocGlobal, V: Fits<T>> Model
    for Initializing<'a, T, X, I, R, V> {
    ghost Value = { FutureView T I };

    ghost view = { λ f. view_of_future f.cell.now f.state };

    ghost invariant = { λ f. IsOfCell f.cell.now f.state
        × KeepsPromise I.may_give V.fits (view_of_future f.cell.now f.state) };
}

impl<'a, T, X, I: Yields<T, X>, R: Wait + AllocGlobal, V: Fits<T>> Initializing<'a, T, X, I, R, V> {
    #[inline(always)]
    pub(crate) fn new(cell: &'a OnceCell<T, V>, rt: &'a R, init: I) -> Self
        requires fits { is_shared cell.now ≡ true → (v : T) → I.may_give init v → V.fits (about_of cell.now) v }
        ensures cell { result.cell ≡ cell.now }
        ensures live { result.finished ≡ false }
        ensures made { IsMade result }
        ensures init { result.init ≡ Some init }
    {
        // Each arm makes a whole future, so that the compiler writes its fields once.
        match &cell.contents {
            Contents::Owned(_) => Initializing {
                failure: PhantomData,
                cell,
                state: FutureState::Owned(rt, init),
            },
            Contents::Shared(inner) => Initializing {
                failure: PhantomData,
                cell,
                state: FutureState::Shared(Attempt::new(inner, rt, init)),
            },
        }
    }

    pub(super) fn rt(&self) -> &'a R {
        match &self.state {
            FutureState::Owned(rt, _) | FutureState::Answered(rt) | FutureState::Left(rt) => rt,
            FutureState::Shared(attempt) => attempt.task.rt(),
        }
    }

    /// Whether the future answered a value, an error or a refusal, or left. Then neither `poll` nor `poll_as` may be
    /// called; the `poll` of the trait may, and asks for another poll.
    ///
    /// ```
    /// if self.future.is_finished() {
    ///     return cx.yield_now(); // `poll` and `poll_as` ask for a future that is not finished
    /// }
    /// ```
    pub fn is_finished(&self) -> bool
        ensures { result ≡ self.now.finished }
    {
        match &self.state {
            FutureState::Owned(_, _) => false,
            FutureState::Answered(_) | FutureState::Left(_) => true,
            FutureState::Shared(attempt) => attempt.task.is_finished(),
        }
    }

    /// Whether the future answered a value that its own init gave, which tells who made the value of a cell.
    ///
    /// ```
    /// match future.poll(cx) {
    ///     Poll::Ready(Ok(answered)) => Some((*answered, future.gave())),
    ///     Poll::Ready(Err(_)) | Poll::Pending => None,
    /// }
    /// ```
    pub fn gave(&self) -> bool
        ensures { result ≡ self.now.gave }
    {
        match &self.state {
            FutureState::Owned(_, _) | FutureState::Answered(_) | FutureState::Left(_) => false,
            FutureState::Shared(attempt) => attempt.gave(),
        }
    }

    fn seen(&self) -> Seen<T>
        ensures of { IsOf self.now.cell result }
        ensures value { known_of self.now.cell result ≡ self.now.value }
        ensures log { log_of result ≡ self.now.log }
    {
        match &self.state {
            FutureState::Owned(_, _) | FutureState::Left(_) => Seen::Owned(false),
            FutureState::Answered(_) => Seen::Owned(true),
            FutureState::Shared(attempt) => Seen::Shared(attempt.task.record(), attempt.written()),
        }
    }

    /// It does nothing. Its contract says of the record that the future has seen what [`Known::is_run`] says of a
    /// token's. It waits for nobody. But the kit counts each function of a type with a bound `Wait` among those that
    /// may wait, and asks no proof that they return. So what the clauses say holds if it returns.
    pub fn is_run(&self)
        ensures run { is_shared self.now.cell ≡ true → IsRun Once most (reverse self.now.log) }
        ensures called { is_shared self.now.cell ≡ true → AtEvery (SomebodyCalled Once) (reverse self.now.log) }
        ensures filled { is_shared self.now.cell ≡ true → IsSet self.now.log → WasFilled self.now.log }
        ensures nobody_forgotten { is_shared self.now.cell ≡ true
            → AtEvery (NobodyForgotten Once) (reverse self.now.log) }
        ensures once { is_shared self.now.cell ≡ true → PollsOnce self.now.log }
    {
        if let Seen::Shared(record, _) = self.seen() {
            is_run(&record);
        }
    }

    /// Tells a token of the cell what this future has seen of the record, and the value that it answered, if any. If
    /// the token knows a value, it is that. It waits for nobody. Its clauses hold if it returns, as at `is_run`.
    ///
    /// ```
    /// let Poll::Ready(Ok(first)) = future.poll(cx) else {
    ///     return None;
    /// };
    /// future.tell(token);
    /// let second = cell.get_as(token).unwrap(); // never None, and the same value: both are proved
    /// ```
    pub fn tell(&self, token: &mut Known<'a, T, V>)
        requires token_of_this_cell { token.old.cell ≡ self.now.cell }
        ensures cell { token.new.cell ≡ token.old.cell }
        ensures value { token.new.value ≡ option_or token.old.value self.now.value }
        ensures agrees { IfSome self.now.value (Agrees token.old.value) }
        ensures log { IsPrefix token.old.log token.new.log }
        ensures other { IsPrefix self.now.log token.new.log }
        ensures set { IsSetIn self.now.cell self.now.log → IsSetIn token.new.cell token.new.log }
    {
        token.seen.learn_from(&self.seen());
    }

    /// The future takes over what a token of its cell has seen of the record: its next poll comes after that. It waits
    /// for nobody. Here the token has seen that the cell is set:
    ///
    /// ```
    /// future.learn(token);
    /// future.poll(cx) // a value, which is proved
    /// ```
    pub fn learn(&mut self, token: &Known<'a, T, V>)
        requires token_of_this_cell { token.now.cell ≡ self.old.cell }
        ensures cell { self.new.cell ≡ self.old.cell }
        ensures task { self.new.task ≡ self.old.task }
        ensures finished { self.new.finished ≡ self.old.finished }
        ensures init { self.new.init ≡ self.old.init }
        ensures value { self.new.value ≡ self.old.value }
        ensures log { IsPrefix self.old.log self.new.log }
        ensures other { IsPrefix token.now.log self.new.log }
        ensures mine { entries_of self.old.task self.new.log ≡ entries_of self.old.task self.old.log }
        ensures own_set { IsSetIn self.old.cell self.old.log → IsSetIn self.new.cell self.new.log }
        ensures other_set { IsSetIn token.now.cell token.now.log → IsSetIn self.new.cell self.new.log }
    {
        match (&mut self.state, &token.seen) {
            (FutureState::Shared(attempt), Seen::Shared(record, _)) => attempt.task.learn(record),
            (
                FutureState::Owned(_, _) | FutureState::Answered(_) | FutureState::Left(_),
                Seen::Owned(_),
            ) => {}
            _ => unreachable!(),
        }
    }

    /// Shows that two futures of one cell that tasks share are two tasks. The first may learn more of the record.
    pub fn are_two<Y, J: Yields<T, Y>>(a: &mut Self, b: &mut Initializing<'a, T, Y, J, R, V>)
        requires one_cell { b.old.cell ≡ a.old.cell }
        ensures cell { a.new.cell ≡ a.old.cell }
        ensures task { a.new.task ≡ a.old.task }
        ensures finished { a.new.finished ≡ a.old.finished }
        ensures init { a.new.init ≡ a.old.init }
        ensures value { a.new.value ≡ a.old.value }
        ensures log { IsPrefix a.old.log a.new.log }
        ensures set { IsSetIn a.old.cell a.old.log → IsSetIn a.new.cell a.new.log }
        ensures other { b.new ≡ b.old }
        ensures two { is_shared a.old.cell ≡ true → a.new.task ≢ b.new.task }
    {
        if let (FutureState::Shared(one), FutureState::Shared(other)) = (
            &mut a.state,
            &mut b.state,
        ) {
            Task::are_two(&mut one.task, &mut other.task);
        }
    }

    /// Whether the future has the right to run its init, by the record too, of which it may learn more. If so, no other
    /// task of the cell polls an init before this one is polled or dropped: see
    /// [`one_task_holds`](crate::laws::one_task_holds).
    ///
    /// ```
    /// let holds = future.holds();
    /// future.is_run();
    /// one_task_holds(); // if it holds, the next init of its cell that is polled is its own: this is proved
    /// ```
    pub fn holds(&mut self) -> bool
        requires unfinished { self.old.finished ≡ false }
        ensures cell { self.new.cell ≡ self.old.cell }
        ensures task { self.new.task ≡ self.old.task }
        ensures finished { self.new.finished ≡ self.old.finished }
        ensures init { self.new.init ≡ self.old.init }
        ensures value { self.new.value ≡ self.old.value }
        ensures log { IsPrefix self.old.log self.new.log }
        ensures set { IsSetIn self.old.cell self.old.log → IsSetIn self.new.cell self.new.log }
        ensures holds { IsTrue result ↔ IsHolderIn self.new.cell self.new.task self.new.log }
    {
        match &mut self.state {
            FutureState::Shared(attempt) => attempt.task.holds(),
            FutureState::Owned(_, _) | FutureState::Answered(_) | FutureState::Left(_) => false,
        }
    }

    /// Leaves the cell as by a drop, which can have no contract: the init is dropped, and then the task gives the right
    /// back, or leaves those that wait. Then the future is finished. It may wait for the lock of the cell.
    ///
    /// ```
    /// holder.leave();
    /// let Poll::Ready(Ok(value)) = waiter.poll(cx) else { // it waited, and may now poll its own init
    ///     return None;
    /// };
    /// ```
    pub fn leave(&mut self)
        requires unfinished { self.old.finished ≡ false }
        ensures left { HasLeft self.old self.new }
        ensures set { IsSetIn self.old.cell self.old.log → IsSetIn self.new.cell self.new.log }
        ensures init { self.new.init ≡ None }
        ensures value { self.new.value ≡ None }
    {
        match &mut self.state {
            FutureState::Shared(attempt) => attempt.leave(),
            FutureState::Owned(rt, _) => self.state = FutureState::Left(*rt),
            FutureState::Left(_) | FutureState::Answered(_) => unreachable!(),
        }
    }

    fn leave_as(&mut self, token: &Known<'a, T, V>)
        requires live { self.old.finished ≡ false }
        requires token_of_this_cell { token.now.cell ≡ self.old.cell }
        requires knows { IsSome token.now.value }
        requires set { IsSetIn self.old.cell self.old.log }
        ensures left { HasLeft self.old self.new }
        ensures value { self.new.value ≡ token.now.value }
    {
        match (&mut self.state, &token.seen) {
            (FutureState::Shared(attempt), Seen::Shared(_, Some(written))) => {
                attempt.leave();
                attempt.shown = Shown::Other([], written.again());
            }
            (FutureState::Owned(rt, _), Seen::Owned(true)) => {
                self.state = FutureState::Answered(*rt);
            }
            _ => unreachable!(),
        }
    }
}

impl<'a, T: Drop, X: Failure, I: Init<T, X>, R, V: Fits<T>> Initializing<'a, T, X, I, R, V>
where
    R: Wait + AllocGlobal,
{
    /// Polls the future once. It answers the value that is set, the error of its own init, or a refusal: `Memory` if
    /// memory to wait was refused, `Full` if as many tasks are counted in as may be. After any of these it is finished.
    /// After an error or a refusal the cell is as if the future had been dropped. A Pending poll has registered its
    /// task, or asked for another poll. The future keeps the value that it answers, for [`tell`](Self::tell).
    ///
    /// ```
    /// let polled = future.poll(cx);
    /// match polled {
    ///     Poll::Ready(Ok(value)) => *value,
    ///     Poll::Ready(Err(InitError::Init(error))) => error,
    ///     Poll::Ready(Err(InitError::Memory | InitError::Full)) | Poll::Pending => 0,
    /// }
    /// ```
    #[inline(always)]
    pub fn poll(&mut self, cx: &mut Context<'_>) -> Poll<Result<&'a T, X>>
        requires unfinished { self.old.finished ≡ false }
        ensures call { DidPoll self.old self.new cx.old cx.new (ending_by X.ending result) }
        ensures value { Answers self.old.cell result }
        ensures promise { is_shared self.old.cell ≡ true
            → IfSome (value_of result) (λ value. V.fits (about_of self.old.cell) value) }
        ensures answered { self.new.value ≡ value_of result }
        ensures late { IsSetIn self.old.cell self.old.log → IsValue result }
        ensures own { IfReady result (TellsOwn I.may_fail X.ending self.old.init) }
        ensures same { GivesNoOther I.may_fail self.old.init self.new.init }
        ensures gave { TellsGave self.new result }
        ensures own_value { AnswersOwn I.may_give self.old self.new result }
        ensures same_values { GivesNoOther I.may_give self.old.init self.new.init }
    {
        let cell = self.cell;
        match (&mut self.state, &cell.contents) {
            (FutureState::Shared(attempt), _) => attempt.poll(cx),
            (FutureState::Owned(rt, _), Contents::Owned(value)) => {
                self.state = FutureState::Answered(*rt);
                Poll::Ready(Ok(value))
            }
            _ => unreachable!(),
        }
    }

    /// As [`poll`](Self::poll), and the token learns the value. A token that knows one gets it; the future leaves its
    /// cell as by a drop, and is finished. Here a future that keeps both gives the token with the answer:
    ///
    /// ```
    /// match self.future.poll_as(cx, &mut self.token) {
    ///     Poll::Ready(answer) => {
    ///         let token = mem::replace(&mut self.token, self.cell.token());
    ///         Poll::Ready((answer, token)) // if a value is answered, the token knows it
    ///     }
    ///     Poll::Pending => {
    ///         Poll::Pending
    ///     }
    /// }
    /// ```
    pub fn poll_as(
        &mut self,
        cx: &mut Context<'_>,
        token: &mut Known<'a, T, V>,
    ) -> Poll<Result<&'a T, X>>
        requires unfinished { self.old.finished ≡ false }
        requires token_of_this_cell { token.old.cell ≡ self.old.cell }
        ensures call { PollsAs token.old.value self.old self.new cx.old cx.new (ending_by X.ending result) }
        ensures cell { token.new.cell ≡ token.old.cell }
        ensures value { Polls token.old.value token.new.value result }
        ensures promise { is_shared self.old.cell ≡ true → IfSome (value_of result) (V.fits (about_of self.old.cell)) }
        ensures answered { self.new.value ≡ value_of result }
        ensures log { IsPrefix token.old.log token.new.log }
        ensures told { token.old.value ≡ None → IsPrefix self.new.log token.new.log }
        ensures set { IsValue result → IsSetIn token.new.cell token.new.log }
        ensures spans { token.old.value ≡ None
            → SpansIn self.old.cell self.old.task (end_of self.old.task (ending_by X.ending result))
            token.old.log self.new.log }
        ensures late { IsSetIn token.old.cell token.old.log → IsValue result }
        ensures future_late { IsSetIn self.old.cell self.old.log → IsValue result }
        ensures own { IfReady result (TellsOwn I.may_fail X.ending self.old.init) }
        ensures same { result ≡ Poll.Pending → GivesNoOther I.may_fail self.old.init self.new.init }
        ensures gave { token.old.value ≡ None → TellsGave self.new result }
        ensures own_value { token.old.value ≡ None → AnswersOwn I.may_give self.old self.new result }
        ensures same_values { result ≡ Poll.Pending → GivesNoOther I.may_give self.old.init self.new.init }
    {
        self.learn(token);
        if token.knows_value() {
            self.leave_as(token);
            return Poll::Ready(Ok(self.cell.get_as(token).unwrap()));
        }
        let polled = self.poll(cx);
        self.tell(token);
        polled
    }
}

/// Polled when it is finished, it asks for another poll and changes nothing.
impl<'a, T: Drop, X: Failure, I: Init<T, X>, R: Wait + AllocGlobal, V: Fits<T>> Future
    for Initializing<'a, T, X, I, R, V> {
    type Output = Result<&'a T, X>;

    // An error that it tells of its init is one that the init may give.
    // A value is the owner's, if there is one, and fits what the cell promises.
    ghost gives = { λ f r. TellsOwn I.may_fail X.ending f.init r × AnswersFit V.fits f.cell r
        × AnswersLate f.cell f.log r };

    #[inline(always)]
    fn poll(&mut self, cx: &mut Context<'_>) -> Poll<Result<&'a T, X>>
        ensures value { IfReady result (λ r. TellsOwn I.may_fail X.ending self.old.init r
            × AnswersFit V.fits self.old.cell r × AnswersLate self.old.cell self.old.log r) }
        ensures again { OnPending result ⊤ }
        ensures same { OnPending result ((x : Result (Bor T) X)
            → TellsOwn I.may_fail X.ending self.new.init x × AnswersFit V.fits self.new.cell x
            × AnswersLate self.new.cell self.new.log x
            → TellsOwn I.may_fail X.ending self.old.init x × AnswersFit V.fits self.old.cell x
            × AnswersLate self.old.cell self.old.log x) }
        ensures registered { OnPending result (Covers cx.new (λ _. ⊥)) }
        ensures kept { Keeps cx.old cx.new }
        ensures call { self.old.finished ≡ false → DidPoll self.old self.new cx.old cx.new (ending_by X.ending result) }
        ensures answers { self.old.finished ≡ false → Answers self.old.cell result }
        ensures promise { is_shared self.old.cell ≡ true → IfSome (value_of result) (V.fits (about_of self.old.cell)) }
        ensures answered { self.old.finished ≡ false → self.new.value ≡ value_of result }
        ensures late { self.old.finished ≡ false → IsSetIn self.old.cell self.old.log → IsValue result }
        ensures gave { TellsGave self.new result }
        ensures own_value { AnswersOwn I.may_give self.old self.new result }
        ensures same_values { GivesNoOther I.may_give self.old.init self.new.init }
        ensures over { self.old.finished ≡ true → (result ≡ Poll.Pending) × (self.new ≡ self.old) }
    {
        if self.is_finished() {
            return cx.yield_now();
        }
        Initializing::poll(self, cx)
    }
}

/// Whether the future is finished.
impl<T, X, I: Yields<T, X>, R: Wait + AllocGlobal, V: Fits<T>> fmt::Debug
    for Initializing<'_, T, X, I, R, V> {
    fn fmt<W: fmt::Write>(&self, f: &mut fmt::Formatter<W>) -> fmt::Result {
        let finished = self.is_finished();
        write!(f, "Initializing {{ finished: {finished} }}")
    }
}

impl<T, X, I: Yields<T, X>, R: Wait + AllocGlobal, V: Fits<T>> Drop
    for Initializing<'_, T, X, I, R, V> {
    #[inline(always)]
    fn drop(self) {
        let Initializing {
            failure: _,
            cell: _,
            state,
        } = self;
        // A finished future is not given to a call that may wait, which would cost it a test.
        if let FutureState::Shared(attempt) = state
            && !attempt.task.is_finished()
        {
            attempt.discard();
        }
    }
}
