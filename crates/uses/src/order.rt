//! What a caller can say of order: once a token has seen that the cell is set, all that ask later are answered a value.
ghost use Rattle.std.specs.Prelude.{◌≡◌, IfSome};
ghost use Rattle.async_once_cell.specs.Polls.{IsValue};

use crate::fault::Fault;
use crate::told::two_tasks;
use async_once_cell::{Known, OnceCell, Refused};
use futures::future::ready;
use futures::task::{Context, Poll};
use futures::test::MockTask;
use std::alloc::AllocGlobal;
use std::random::RandomSource;
use std::sync::Wait;

/// A caller that finds the value by a look, and only then makes a future, is answered a value by its first poll.
fn polled_after_look<'a, R>(
    rt: &'a R,
    cell: &'a OnceCell<u64>,
    token: &mut Known<'a, u64>,
    cx: &mut Context<'_>,
) -> Option<Poll<Result<&'a u64, Refused>>>
where
    R: Wait + AllocGlobal,
    requires token_of_this_cell { token.old.cell ≡ cell.now }
    ensures { IfSome result IsValue }
{
    cell.get_as(token)?;
    let mut future = cell.get_or_init(rt, ready(5));
    future.learn(token);
    Some(future.poll(cx))
}

/// The value of such a poll. It is proved that no other arm is reached.
fn value_of<E: Drop>(polled: Poll<Result<&u64, E>>) -> u64
    requires { IsValue polled }
{
    match polled {
        Poll::Ready(Ok(value)) => *value,
        Poll::Ready(Err(_)) | Poll::Pending => unreachable!(),
    }
}

/// What a first poll after a look is told, if the look finds the value.
fn told_after_look<R>(rt: &R, cell: &OnceCell<u64>, cx: &mut Context<'_>) -> Option<u64>
where
    R: Wait + AllocGlobal,
{
    let polled = polled_after_look(rt, cell, &mut cell.token(), cx)?;
    Some(value_of(polled))
}

/// Whether two tasks of a new cell are told a value, and what one is told that asks later.
pub fn ask_late<R>(rt: &R) -> Result<(bool, bool, Option<u64>), Fault>
where
    R: Wait + RandomSource + AllocGlobal,
{
    let (cell, task) = (OnceCell::new(), MockTask::new(rt)?);
    let (mut one, mut other) = two_tasks(rt, &cell);
    let first = task.poll(&mut one).is_ready();
    let second = task.poll(&mut other).is_ready();
    let late = task.enter(|cx| told_after_look(rt, &cell, cx));
    Ok((first, second, late))
}
