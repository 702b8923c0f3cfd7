//! What a caller can say of a lazy cell: what a look finds after a poll, and what its owner gets.
ghost use Rattle.std.specs.Prelude.{◌≡◌, IfSome, IsSome, false, true, reverse};
ghost use Rattle.async_once_cell.specs.Record.{Once};
ghost use Rattle.async_once_cell.specs.Run.{AtEvery, NobodyForgotten};
ghost use Rattle.async_once_cell.specs.Tokens.{IsSetIn};
ghost use Rattle.async_once_cell.specs.Views.{is_shared};

use crate::fault::Fault;
use async_once_cell::{Known, Lazy, LazyFuturePin, Told};
use futures::Future;
use futures::future::{Ready, ready};
use futures::task::{Context, Poll};
use futures::test::MockTask;
use std::alloc::AllocGlobal;
use std::random::RandomSource;
use std::sync::Wait;

/// The value of a cell, if a poll of this future answers it. The future tells the token that the cell is set, so a look
/// by the token finds the value. No waiter is forgotten in what the future has seen.
fn looked_after_poll<'a, F, R>(
    future: &mut LazyFuturePin<'a, u64, F, R>,
    lazy: &'a Lazy<u64, F>,
    cx: &mut Context<'_>,
    token: &mut Known<'a, u64>,
) -> Option<&'a u64>
where
    F: Future<Output = u64>,
    R: Wait + AllocGlobal,
    requires unfinished { future.old.finished ≡ false }
    requires future_of_this_cell { future.old.cell ≡ lazy.now }
    requires token_of_this_cell { token.old.cell ≡ lazy.now }
    ensures cell { token.new.cell ≡ lazy.now }
    ensures set { IsSome result → IsSetIn lazy.now token.new.log }
    ensures nobody_forgotten { IsSome result → is_shared lazy.now ≡ true
        → AtEvery (NobodyForgotten Once) (reverse future.new.log) }
{
    let Poll::Ready(Ok(_)) = future.poll(cx) else {
        return None;
    };
    future.tell(token);
    future.is_run();
    Some(lazy.try_get_as(token).unwrap())
}

/// What a look at a new cell finds after a poll.
fn look_after_poll<R>(rt: &R, cx: &mut Context<'_>) -> Option<u64>
where
    R: Wait + AllocGlobal,
{
    let lazy = Lazy::new(ready(5));
    looked_after_poll(&mut lazy.get(rt), &lazy, cx, &mut lazy.token()).copied()
}

/// What a token finds, and what tells the owner so when the token is gone.
fn seen<F>(lazy: &Lazy<u64, F>) -> Option<(u64, Told<u64>)>
where
    F: Future<Output = u64>,
    ensures { IfSome result (λ seen. (seen.1.cell ≡ lazy.now) × (seen.1.value ≡ seen.0)) }
{
    let mut token = lazy.token();
    let value = *lazy.try_get_as(&mut token)?;
    let told = token.told()?;
    Some((value, told))
}

/// What is taken, when another cell comes in place of this one, is what was seen.
fn replaces_what_it_saw<F>(lazy: &mut Lazy<u64, F>) -> Option<(u64, u64)>
where
    F: Future<Output = u64>,
    ensures { IfSome result (λ values. values.0 ≡ values.1) }
{
    let (saw, told) = seen(lazy)?;
    Some((saw, lazy.replace_and_take_as(Lazy::with_value(0), &told)))
}

/// A cell that its future filled.
fn filled<R>(rt: &R, value: u64) -> Result<Lazy<u64, Ready<u64>>, Fault>
where
    R: Wait + RandomSource + AllocGlobal,
{
    let lazy = Lazy::new(ready(value));
    lazy.get(rt).wait()??;
    Ok(lazy)
}

/// What a task of a lazy cell is told, and what the owner of another sees and gets.
pub fn ask<R>(rt: &R) -> Result<(Option<u64>, Option<(u64, u64)>), Fault>
where
    R: Wait + RandomSource + AllocGlobal,
{
    let told = MockTask::new(rt)?.enter(|cx| look_after_poll(rt, cx));
    let mut lazy = filled(rt, 7)?;
    Ok((told, replaces_what_it_saw(&mut lazy)))
}
