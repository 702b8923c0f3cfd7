//! Which value a poll without a token answered: the future tells it to any token of its cell.
ghost use Rattle.std.specs.Prelude.{◌≡◌, IfSome, false};

use crate::fault::Fault;
use async_once_cell::{InitFuture, Known, OnceCell};
use futures::Future;
use futures::future::{Ready, ready};
use futures::task::{Context, Poll};
use futures::test::MockTask;
use std::alloc::AllocGlobal;
use std::random::RandomSource;
use std::sync::Wait;

/// What two futures of a cell answer, if both answer a value: that is proved to be one. The polls are those that an
/// executor calls.
fn told_one_value<'a, R>(
    one: &mut InitFuture<'a, u64, Ready<u64>, R>,
    other: &mut InitFuture<'a, u64, Ready<u64>, R>,
    cell: &'a OnceCell<u64>,
    cx: &mut Context<'_>,
) -> Option<(&'a u64, &'a u64)>
where
    R: Wait + AllocGlobal,
    requires unfinished { (one.old.finished ≡ false) × (other.old.finished ≡ false) }
    requires of_this_cell { (one.old.cell ≡ cell.now) × (other.old.cell ≡ cell.now) }
    ensures { IfSome result (λ values. values.0.now ≡ values.1.now) }
{
    let Poll::Ready(Ok(first)) = Future::poll(one, cx) else {
        return None;
    };
    let Poll::Ready(Ok(second)) = Future::poll(other, cx) else {
        return None;
    };
    let mut token = cell.token();
    one.tell(&mut token);
    other.tell(&mut token);
    Some((first, second))
}

/// What a poll answers, and what a look finds by a token that the future told, whatever the token knew before.
fn got_after_poll<'a, R>(
    future: &mut InitFuture<'a, u64, Ready<u64>, R>,
    cell: &'a OnceCell<u64>,
    cx: &mut Context<'_>,
    token: &mut Known<'a, u64>,
) -> Option<(&'a u64, &'a u64)>
where
    R: Wait + AllocGlobal,
    requires unfinished { future.old.finished ≡ false }
    requires future_of_this_cell { future.old.cell ≡ cell.now }
    requires token_of_this_cell { token.old.cell ≡ cell.now }
    ensures { IfSome result (λ values. values.0.now ≡ values.1.now) }
{
    let Poll::Ready(Ok(first)) = future.poll(cx) else {
        return None;
    };
    future.tell(token);
    let second = cell.get_as(token).unwrap();
    Some((first, second))
}

/// What two futures of a new cell answer, and then a third, beside a look.
fn asked_without_a_token<R>(rt: &R, cx: &mut Context<'_>) -> Option<[u64; 4]>
where
    R: Wait + AllocGlobal,
{
    let cell = OnceCell::new();
    let (mut one, mut other) = (
        cell.get_or_init(rt, ready(1)),
        cell.get_or_init(rt, ready(2)),
    );
    let (first, second) = told_one_value(&mut one, &mut other, &cell, cx)?;
    let mut future = cell.get_or_init(rt, ready(3));
    let (third, looked) = got_after_poll(&mut future, &cell, cx, &mut cell.token())?;
    Some([*first, *second, *third, *looked])
}

/// What polls without a token answer, beside a look.
pub fn ask<R>(rt: &R) -> Result<Option<[u64; 4]>, Fault>
where
    R: Wait + RandomSource + AllocGlobal,
{
    Ok(MockTask::new(rt)?.enter(|cx| asked_without_a_token(rt, cx)))
}
