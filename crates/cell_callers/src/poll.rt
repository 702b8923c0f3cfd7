//! Polls of a cell's future.
ghost use Rattle.std.specs.Prelude.{◌≡◌, IfSome, None, Some, false, true};
ghost use Rattle.async_once_cell.specs.Prelude.{Begin, IsOneCall, IsPrefix, IsSetIn, IsValue, MayGive, ending_by};
ghost use Rattle.async_once_cell.specs.Prelude.{ending_of_refusal, end_of, is_shared, value_of, IsArmed, OnPending};

use async_once_cell::{InitFuture, Known, OnceCell, Refused};
use futures::Future;
use futures::future::{Ready, ready};
use futures::task::{Context, Poll};
use std::alloc::AllocGlobal;
use std::sync::Wait;

/// A future of a number that a caller brings.
type Brought<'a, R> = InitFuture<'a, u64, Ready<u64>, R>;

/// If it was the future's own init that gave the value which is answered, this is one that the init may give.
pub fn polled_own<'a, R>(
    brought: &mut Brought<'a, R>,
    cx: &mut Context<'_>,
) -> Poll<Result<&'a u64, Refused>>
where
    R: Wait + AllocGlobal,
    requires unfinished { brought.old.finished ≡ false }
    ensures { brought.new.gave ≡ true
        → IfSome (value_of result) (λ value. IfSome brought.old.init (λ init. init.0 ≡ Some value)) }
{
    brought.poll(cx)
}

/// A poll by an executor, of a future that has seen that the cell is set: it answers the value.
pub fn executed_late<'a, R>(
    future: &mut Brought<'a, R>,
    cx: &mut Context<'_>,
) -> Poll<Result<&'a u64, Refused>>
where
    R: Wait + AllocGlobal,
    requires unfinished { future.old.finished ≡ false }
    requires set { IsSetIn future.old.cell future.old.log }
    ensures { IsValue result }
{
    Future::poll(future, cx)
}

/// A poll of a future that may be finished. If it is Pending, it has registered its task, or asked for another poll.
pub fn polled_if_unfinished<'a, R>(
    future: &mut Brought<'a, R>,
    cx: &mut Context<'_>,
) -> Poll<Result<&'a u64, Refused>>
where
    R: Wait + AllocGlobal,
    ensures { OnPending result (IsArmed cx.new) }
{
    if future.is_finished() {
        return cx.yield_now();
    }
    future.poll(cx)
}

/// A poll that takes over what a token has seen: if the cell is set there, it answers a value.
pub fn polled_after<'a, R>(
    future: &mut Brought<'a, R>,
    cx: &mut Context<'_>,
    token: &Known<'a, u64>,
) -> Poll<Result<&'a u64, Refused>>
where
    R: Wait + AllocGlobal,
    requires unfinished { future.old.finished ≡ false }
    requires token_of_this_cell { token.now.cell ≡ future.old.cell }
    ensures { IsSetIn token.now.cell token.now.log → IsValue result }
{
    future.learn(token);
    future.poll(cx)
}

/// A poll with a token that knows nothing is one call of its task in the record. It comes after what the token has
/// seen: if the cell is set there, it answers a value.
pub fn polled_once<'a, R>(
    future: &mut Brought<'a, R>,
    cx: &mut Context<'_>,
    token: &mut Known<'a, u64>,
) -> Poll<Result<&'a u64, Refused>>
where
    R: Wait + AllocGlobal,
    requires unfinished { future.old.finished ≡ false }
    requires token_of_this_cell { token.old.cell ≡ future.old.cell }
    requires knows_nothing { token.old.value ≡ None }
    ensures one_call { is_shared future.old.cell ≡ true → IsOneCall future.old.task
        (Begin future.old.task future.old.task) (end_of future.old.task (ending_by ending_of_refusal result))
        future.old.log future.new.log }
    ensures late { IsSetIn token.old.cell token.old.log → IsValue result }
{
    future.poll_as(cx, token)
}

/// A poll whose answer a token is told: it knows the value then, and has seen that the cell is set.
pub fn polled_and_told<'a, R>(
    cell: &'a OnceCell<u64>,
    rt: &'a R,
    cx: &mut Context<'_>,
    token: &mut Known<'a, u64>,
) -> Poll<Result<&'a u64, Refused>>
where
    R: Wait + AllocGlobal,
    requires token_of_this_cell { token.old.cell ≡ cell.now }
    ensures value { IfSome (value_of result) (λ value. token.new.value ≡ Some value) }
    ensures set { IsValue result → IsSetIn token.new.cell token.new.log }
{
    let mut future = cell.get_or_init(rt, ready(4));
    let polled = future.poll(cx);
    future.tell(token);
    polled
}

/// A poll with a token that knows nothing. The token has seen it, and after a value that the cell is set.
pub fn polled_and_seen<'a, R>(
    brought: &mut Brought<'a, R>,
    cx: &mut Context<'_>,
    token: &mut Known<'a, u64>,
) -> Poll<Result<&'a u64, Refused>>
where
    R: Wait + AllocGlobal,
    requires unfinished { brought.old.finished ≡ false }
    requires token_of_this_cell { token.old.cell ≡ brought.old.cell }
    requires knows_nothing { token.old.value ≡ None }
    ensures seen { IsPrefix brought.new.log token.new.log }
    ensures set { IsValue result → IsSetIn token.new.cell token.new.log }
{
    brought.poll_as(cx, token)
}
