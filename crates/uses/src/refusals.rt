//! What answers no value: a poll that is refused, and a look before the value is set. And that one init runs at a
//! time.
ghost use Rattle.std.specs.Prelude.{◌≡◌, ℕ, ◌∷◌, IsNone, IsSome, None, false, reverse, true};
ghost use Rattle.async_once_cell.specs.Cell.{Held, cell as cell_after};
ghost use Rattle.async_once_cell.specs.Kept.{most};
ghost use Rattle.async_once_cell.specs.Record.{Answer, Once, Ran};
ghost use Rattle.async_once_cell.specs.Run.{IsRun};
ghost use Rattle.async_once_cell.specs.Tasks.{Holding, status};
ghost use Rattle.async_once_cell.specs.Tokens.{IsSetIn};
ghost use Rattle.async_once_cell.specs.Views.{is_shared};

use crate::fault::Fault;
use async_once_cell::laws::one_task_holds;
use async_once_cell::{InitFuture, Known, OnceCell, Refused};
use futures::future::{Ready, ready};
use futures::task::{Context, Poll};
use futures::test::MockTask;
use std::alloc::AllocGlobal;
use std::random::RandomSource;
use std::sync::Wait;

/// Why a poll was refused, if it was: then the future is finished and has no value, and it had not seen that the cell
/// is set.
fn refusal_of<'a, R>(
    future: &mut InitFuture<'a, u64, Ready<u64>, R>,
    cx: &mut Context<'_>,
) -> Option<Refused>
where
    R: Wait + AllocGlobal,
    requires unfinished { future.old.finished ≡ false }
    ensures finished { IsSome result → future.new.finished ≡ true }
    ensures value { IsSome result → future.new.value ≡ None }
    ensures unset { IsSome result → IsSetIn future.old.cell future.old.log → ⊥ }
{
    match future.poll(cx) {
        Poll::Ready(Err(refused)) => Some(refused),
        Poll::Ready(Ok(_)) | Poll::Pending => None,
    }
}

/// What a look finds. No look finds a value before it is set, and a token that finds none had not seen that it is set.
fn looked<'a>(cell: &'a OnceCell<u64>, token: &mut Known<'a, u64>) -> Option<u64>
    requires token_of_this_cell { token.old.cell ≡ cell.now }
    ensures cell { token.new.cell ≡ token.old.cell }
    ensures set { IsSome result → IsSetIn cell.now token.new.log }
    ensures unset { IsNone result → IsSetIn cell.now token.old.log → ⊥ }
{
    let value = cell.get_as(token)?;
    Some(*value)
}

/// What a poll answers, if it answers a value. Nobody is told a value before it is set.
fn polled<'a, R>(
    future: &mut InitFuture<'a, u64, Ready<u64>, R>,
    cx: &mut Context<'_>,
) -> Option<u64>
where
    R: Wait + AllocGlobal,
    requires unfinished { future.old.finished ≡ false }
    ensures set { IsSome result → IsSetIn future.new.cell future.new.log }
{
    match future.poll(cx) {
        Poll::Ready(Ok(value)) => Some(*value),
        Poll::Ready(Err(_)) | Poll::Pending => None,
    }
}

/// A task whose init is Pending has the right; and while a task has it, the next init that is polled is its own. It
/// does nothing.
fn one_runs<T>(token: &Known<'_, T>)
    ensures holds { is_shared token.now.cell ≡ true → (t : ℕ) → status Once t (reverse token.now.log) ≡ Holding
        → cell_after Once (reverse token.now.log) ≡ Held t }
    ensures alone { (t u : ℕ) → (a : Answer) → cell_after Once (reverse token.now.log) ≡ Held t
        → IsRun Once most (Ran u a ∷ reverse token.now.log) → t ≡ u }
{
    token.is_run();
    one_task_holds();
}

/// Looks at a new cell, asks it, and looks again. Then why a poll of another cell is refused, if it is.
fn asked<R>(rt: &R, cx: &mut Context<'_>) -> ([Option<u64>; 3], Option<Refused>)
where
    R: Wait + AllocGlobal,
{
    let (cell, other) = (OnceCell::new(), OnceCell::new());
    let mut token = cell.token();
    let before = looked(&cell, &mut token);
    let told = polled(&mut cell.get_or_init(rt, ready(7)), cx);
    let after = looked(&cell, &mut token);
    one_runs(&token);
    let refusal = refusal_of(&mut other.get_or_init(rt, ready(8)), cx);
    ([before, told, after], refusal)
}

/// What is told of a new cell, and why a poll of another is refused, if it is.
pub fn ask<R>(rt: &R) -> Result<([Option<u64>; 3], Option<Refused>), Fault>
where
    R: Wait + RandomSource + AllocGlobal,
{
    Ok(MockTask::new(rt)?.enter(|cx| asked(rt, cx)))
}
