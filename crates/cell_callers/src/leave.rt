//! Futures that leave their cell.
ghost use Rattle.std.specs.Prelude.{◌≡◌, IsSome, None, false};
ghost use Rattle.async_once_cell.specs.Prelude.{HasLeft};

use async_once_cell::{InitFuture, Known, OnceCell, Refused};
use futures::future::Ready;
use futures::task::{Context, Poll};
use std::alloc::AllocGlobal;
use std::sync::Wait;

/// A future is given up: what it did last stands in the record as a drop, and it is finished. The clause is `left` of
/// [`Initializing::leave`](async_once_cell::Initializing::leave).
pub fn given_up<R>(future: &mut InitFuture<'_, u64, Ready<u64>, R>)
where
    R: Wait + AllocGlobal,
    requires unfinished { future.old.finished ≡ false }
    ensures { HasLeft future.old future.new }
{
    future.leave();
}

/// A poll with a token that knows the value. The future leaves, and keeps that value for another token.
pub fn left_with_value<'a, R>(
    cell: &'a OnceCell<u64>,
    future: &mut InitFuture<'a, u64, Ready<u64>, R>,
    cx: &mut Context<'_>,
    token: &mut Known<'a, u64>,
) -> Poll<Result<&'a u64, Refused>>
where
    R: Wait + AllocGlobal,
    requires unfinished { future.old.finished ≡ false }
    requires future_of_this_cell { future.old.cell ≡ cell.now }
    requires token_of_this_cell { token.old.cell ≡ cell.now }
    requires knows { IsSome token.old.value }
    ensures { future.new.value ≡ token.old.value }
{
    future.poll_as(cx, token)
}
