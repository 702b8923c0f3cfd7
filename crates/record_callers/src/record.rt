//! What the record of a cell that tasks share is, as far as a token or a future has seen it.
ghost use Rattle.std.specs.Prelude.{◌≡◌, true, reverse};
ghost use Rattle.async_once_cell.specs.Prelude.{AtEvery, IsRun, IsSet, NobodyForgotten, Once, PollsOnce};
ghost use Rattle.async_once_cell.specs.Prelude.{SomebodyCalled, WasFilled, is_shared, most};

use async_once_cell::{InitFuture, Known};
use futures::Future;
use pagebook::Fits;
use std::alloc::AllocGlobal;
use std::sync::Wait;

/// It does nothing. What a token has seen is a run of a cell, in which no waiter is forgotten and each task polls its
/// init once at most in each of its calls. Where the cell is set, a task filled it. The clauses are those of
/// [`Known::is_run`]: a caller's own line would be a law of all runs, as in `told_alone` of `uses`.
pub fn seen_by_token<T, V: Fits<T>>(token: &Known<'_, T, V>)
    ensures run { is_shared token.now.cell ≡ true → IsRun Once most (reverse token.now.log) }
    ensures nobody_forgotten { is_shared token.now.cell ≡ true
        → AtEvery (NobodyForgotten Once) (reverse token.now.log) }
    ensures filled { is_shared token.now.cell ≡ true → IsSet token.now.log → WasFilled token.now.log }
    ensures once { is_shared token.now.cell ≡ true → PollsOnce token.now.log }
{
    token.is_run();
}

/// It does nothing. Wherever the cell is free in what a future has seen, and a task waits, some task was woken that has
/// neither claimed since nor left. The clause is `called` of
/// [`Initializing::is_run`](async_once_cell::Initializing::is_run).
pub fn one_was_called<T, F, R, V: Fits<T>>(future: &InitFuture<'_, T, F, R, V>)
where
    F: Future<Output = T>,
    R: Wait + AllocGlobal,
    ensures { is_shared future.now.cell ≡ true → AtEvery (SomebodyCalled Once) (reverse future.now.log) }
{
    future.is_run();
}
