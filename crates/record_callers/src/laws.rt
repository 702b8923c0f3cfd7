//! What follows of a cell that tasks share, by the laws of all runs, from what a token or a future has seen of it.
ghost use Rattle.std.specs.Prelude.{◌≡◌, ◌≤◌, ◌⊎◌, ◌∷◌, [], ℕ, IsTrue, List, Some, reverse, false, true};
ghost use Rattle.async_once_cell.specs.Prelude.{Entry, Grew, IsRun, Once, is_shared, most};
ghost use Rattle.async_once_cell.specs.Record.{Pending, RanPending, End};
ghost use Rattle.async_once_cell.specs.Called.{CanGoOn};
ghost use Rattle.async_once_cell.specs.Fills.{times_filled, times_given};
ghost use Rattle.async_once_cell.specs.Refusals.{OtherHolds};
ghost use Rattle.async_once_cell.specs.Tasks.{Waiting, last_call, status};

use async_once_cell::laws::{filled_once, pending_has_a_reason, somebody_goes_on};
use async_once_cell::{InitFuture, Known};
use futures::future::Ready;
use futures::task::Context;
use std::alloc::AllocGlobal;
use std::sync::Wait;

/// As far as the token has seen, tasks filled the cell once at most, and once at most an init gave a value.
pub fn seen_filled_once(token: &Known<'_, u64>)
    ensures filled { is_shared token.now.cell ≡ true → times_filled (reverse token.now.log) ≤ 1 }
    ensures given { is_shared token.now.cell ≡ true → times_given (reverse token.now.log) ≤ 1 }
{
    token.is_run();
    filled_once();
}

/// If a task waits, as far as the future has seen, there is one that can go on.
pub fn seen_going_on<R>(future: &InitFuture<'_, u64, Ready<u64>, R>)
where
    R: Wait + AllocGlobal,
    ensures { is_shared future.now.cell ≡ true → (u : ℕ) → status Once u (reverse future.now.log) ≡ Waiting
        → (t : ℕ) × CanGoOn Once t (reverse future.now.log) }
{
    future.is_run();
    somebody_goes_on();
}

/// Polls, and says whether the poll is Pending. If it is, its end is what the future has seen last, and another task
/// held the right, or the future's own init was polled and is pending.
pub fn polled_with_reason<R>(
    future: &mut InitFuture<'_, u64, Ready<u64>, R>,
    cx: &mut Context<'_>,
) -> bool
where
    R: Wait + AllocGlobal,
    requires unfinished { future.old.finished ≡ false }
    ensures polled { IsTrue result → is_shared future.new.cell ≡ true
        → Grew (End future.new.task Pending ∷ []) future.old.log future.new.log }
    ensures reason { IsTrue result → is_shared future.new.cell ≡ true → (h : List Entry)
        → reverse future.new.log ≡ End future.new.task Pending ∷ h
        → OtherHolds Once future.new.task h ⊎ ((last_call Once future.new.task h).ran ≡ Some RanPending) }
{
    let pending = future.poll(cx).is_pending();
    InitFuture::is_run(future);
    pending_has_a_reason();
    pending
}
