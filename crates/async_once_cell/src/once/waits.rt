//! The calls by which a thread waits for a value, and where it sleeps meanwhile.
ghost use Rattle.std.specs.Prelude.{◌≡◌, IfOk, false};
ghost use Rattle.async_once_cell.specs.Prelude.{AnswersFit, IfFailure, IsValueAtOnce, Waits, TellsOwn, IsPrefix};
ghost use Rattle.async_once_cell.specs.Prelude.{IsSetIn, SawEnd, end_of};

use super::{Initializing, Known};
use crate::error::Failure;
use crate::inner::Init;
use futures::task::{Doorbell, Poll, Queue};
use pagebook::Fits;
use std::alloc::AllocGlobal;
use std::io;
use std::random::RandomSource;
use std::sync::Wait;

impl<'a, T: Drop, X: Failure, I: Init<T, X>, R, V: Fits<T>> Initializing<'a, T, X, I, R, V>
where
    R: Wait + AllocGlobal,
{
    /// Polls the future on this thread until it answers, and gives that answer. The thread sleeps while it has to wait:
    /// for its own init, or for the task that holds. So the call never returns if neither is driven on, for example
    /// because this thread itself keeps another future of the cell, which holds. `io::Error` says that the thread could
    /// not be made ready to wait, since memory or random bytes were refused. Then the future was dropped, as it is
    /// after an answer, and the cell is as after any drop. A cell that is set answers without any of that.
    ///
    /// ```
    /// let value = cell.get_or_try_init(rt, ok::<u64, u64>(7)).wait()?; // Ok(&7)
    /// ```
    pub fn wait(self) -> io::Result<Result<&'a T, X>>
    where
        R: RandomSource,
        requires unfinished { self.finished ≡ false }
        ensures own { IfOk result (TellsOwn I.may_fail X.ending self.entry.init) }
        ensures fits { IfOk result (AnswersFit V.fits self.entry.cell) }
    {
        let mut token = self.cell.token();
        self.wait_as(&mut token)
    }

    /// As [`wait`](Self::wait), and the token learns the value. A token that knows one gets it at once.
    pub fn wait_as(self, token: &mut Known<'a, T, V>) -> io::Result<Result<&'a T, X>>
    where
        R: RandomSource,
        requires unfinished { self.finished ≡ false }
        requires token_of_this_cell { token.old.cell ≡ self.cell }
        ensures cell { token.new.cell ≡ token.old.cell }
        ensures value { Waits token.old.value token.new.value result }
        ensures log { IsPrefix token.old.log token.new.log }
        ensures late { IsSetIn token.old.cell token.old.log → IsValueAtOnce result }
        ensures set { IsValueAtOnce result → IsSetIn token.new.cell token.new.log }
        ensures last { IfFailure result (λ x. SawEnd self.entry.cell self.entry.task
            (end_of self.entry.task (X.ending x)) token.old.log token.new.log) }
        ensures own { IfOk result (TellsOwn I.may_fail X.ending self.entry.init) }
        ensures fits { IfOk result (AnswersFit V.fits self.entry.cell) }
    {
        if let Some(value) = self.cell.get_as(token) {
            return Ok(Ok(value));
        }
        let mut parker = Parker::new(self.rt())?;
        self.wait_as_on(token, &mut parker)
    }

    /// As [`wait`](Self::wait), by a parker that the caller keeps. `io::Error` says that there was no memory to wait.
    pub fn wait_on(self, parker: &mut Parker) -> io::Result<Result<&'a T, X>>
        requires unfinished { self.finished ≡ false }
        ensures own { IfOk result (TellsOwn I.may_fail X.ending self.entry.init) }
        ensures fits { IfOk result (AnswersFit V.fits self.entry.cell) }
    {
        let mut token = self.cell.token();
        self.wait_as_on(&mut token, parker)
    }

    /// As [`wait_as`](Self::wait_as), by a parker that the caller keeps.
    pub fn wait_as_on(
        mut self,
        token: &mut Known<'a, T, V>,
        parker: &mut Parker,
    ) -> io::Result<Result<&'a T, X>>
        requires unfinished { self.finished ≡ false }
        requires token_of_this_cell { token.old.cell ≡ self.cell }
        ensures cell { token.new.cell ≡ token.old.cell }
        ensures value { Waits token.old.value token.new.value result }
        ensures log { IsPrefix token.old.log token.new.log }
        ensures late { IsSetIn token.old.cell token.old.log → IsValueAtOnce result }
        ensures set { IsValueAtOnce result → IsSetIn token.new.cell token.new.log }
        ensures last { IfFailure result (λ x. SawEnd self.entry.cell self.entry.task
            (end_of self.entry.task (X.ending x)) token.old.log token.new.log) }
        ensures own { IfOk result (TellsOwn I.may_fail X.ending self.entry.init) }
        ensures fits { IfOk result (AnswersFit V.fits self.entry.cell) }
    {
        if let Some(value) = self.cell.get_as(token) {
            return Ok(Ok(value));
        }
        // The thread sleeps until its task is to be polled. There always is one: a wait adds it, and one wait at a time
        // uses the parker.
        parker.tasks.add()?.schedule();
        let rt = self.rt();
        for _ in rt.forever() {
            let Some(mut cx) = parker.tasks.next(rt) else {
                return Err(io::Error::other("there is no task to wait for"));
            };
            let polled = self.poll_as(&mut cx, token);
            cx.end(&polled);
            if let Poll::Ready(answer) = polled {
                return Ok(answer);
            }
        }
        unreachable!()
    }
}

/// Where a thread sleeps while it waits for the value of a cell. One wait at a time uses it. `wait` and `wait_as` of a
/// future make one for themselves. A thread that waits again and again makes its own, and gives it to `wait_on` and
/// `wait_as_on`: that spares two thirds of a short wait.
///
/// ```
/// let mut parker = Parker::new(rt)?;
/// for cell in &cells {
///     let value = cell.get_or_init(rt, ready(1)).wait_on(&mut parker)??;
/// }
/// ```
#[derive(Drop)]
pub struct Parker {
    // The thread's task is the only one, and is there during a wait.
    tasks: Queue,
}

impl Parker {
    /// It takes memory, and eight random bytes as its name among wakers. `Err` says that either was refused.
    pub fn new<R: RandomSource + AllocGlobal>(rt: &R) -> io::Result<Self> {
        Ok(Parker {
            tasks: Queue::new(rt, Doorbell::parking())?,
        })
    }
}
