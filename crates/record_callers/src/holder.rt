//! Which future has the right, and whose init gave the value.
ghost use Rattle.std.specs.Prelude.{◌≡◌, ◌∷◌, ℕ, IfSome, IsTrue, Some, reverse, true, false};
ghost use Rattle.async_once_cell.specs.Prelude.{IsHolderIn, IsRun, Once, most};
ghost use Rattle.async_once_cell.specs.Record.{Answer, Ran};

use async_once_cell::InitFuture;
use async_once_cell::laws::one_task_holds;
use futures::future::Ready;
use futures::task::{Context, Poll};
use std::alloc::AllocGlobal;
use std::sync::Wait;

/// Whether the future has the right. If so, the next init of its cell that is polled is its own.
pub fn runs_next<R>(future: &mut InitFuture<'_, u64, Ready<u64>, R>) -> bool
where
    R: Wait + AllocGlobal,
    requires unfinished { future.old.finished ≡ false }
    ensures own { IsTrue result → (u : ℕ) → (a : Answer) → IsRun Once most (Ran u a ∷ reverse future.new.log)
        → future.new.task ≡ u }
    ensures not { result ≡ false → IsHolderIn future.new.cell future.new.task future.new.log → ⊥ }
{
    let holds = future.holds();
    future.is_run();
    one_task_holds();
    holds
}

/// What a poll answers, and whether the future's own init gave it. If so, it is the number that this init gives.
pub fn made<R>(
    future: &mut InitFuture<'_, u64, Ready<u64>, R>,
    cx: &mut Context<'_>,
) -> Option<(u64, bool)>
where
    R: Wait + AllocGlobal,
    requires unfinished { future.old.finished ≡ false }
    ensures { IfSome result (λ told. told.1 ≡ true → IfSome future.old.init (λ init. init.0 ≡ Some told.0)) }
{
    match future.poll(cx) {
        Poll::Ready(Ok(answered)) => Some((*answered, future.gave())),
        Poll::Ready(Err(_)) | Poll::Pending => None,
    }
}
