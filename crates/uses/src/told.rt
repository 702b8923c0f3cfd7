//! What callers that asked one cell can say of each other, by what they have seen of its record.
ghost use Rattle.std.specs.Prelude.{◌≡◌, ◌≢◌, ℕ, true, List, ◌∷◌, ◌++◌, Some, reverse};
ghost use Rattle.async_once_cell.specs.Record.{End, Entry, Error, Once, RanError};
ghost use Rattle.async_once_cell.specs.Called.{SomebodyCalled};
ghost use Rattle.async_once_cell.specs.Tasks.{last_call};
ghost use Rattle.async_once_cell.specs.Views.{is_shared};

use async_once_cell::laws::error_is_ones_own;
use async_once_cell::{InitFuture, Known, OnceCell};
use futures::future::{Ready, ready};
use std::alloc::AllocGlobal;
use std::sync::Wait;

/// Wherever in the record of a cell that tasks share an error was told, it was told to the task whose own init
/// gave it. It does nothing.
pub fn told_alone<T>(token: &Known<'_, T>)
    ensures { is_shared token.now.cell ≡ true → (t e : ℕ) → (later before : List Entry)
        → reverse token.now.log ≡ later ++ End t (Error e) ∷ before
        → (last_call Once t before).ran ≡ Some (RanError e) }
{
    token.is_run();
    error_is_ones_own();
}

/// While the cell is free and a task of it waits, some task was woken that has neither claimed since nor left:
/// an executor that runs the tasks of a cell has one to poll. It does nothing.
pub fn one_is_called<T>(token: &Known<'_, T>)
    ensures { is_shared token.now.cell ≡ true → SomebodyCalled Once (reverse token.now.log) }
{
    token.is_run();
}

/// Two futures of a cell that tasks share are two tasks, so that what the record says of one it does not say of the
/// other.
pub fn two_tasks<'a, R>(
    rt: &'a R,
    cell: &'a OnceCell<u64>,
) -> (
    InitFuture<'a, u64, Ready<u64>, R>,
    InitFuture<'a, u64, Ready<u64>, R>,
)
where
    R: Wait + AllocGlobal,
    requires { is_shared cell.now ≡ true }
    ensures { result.0.task ≢ result.1.task }
{
    let mut one = cell.get_or_init(rt, ready(1));
    let mut other = cell.get_or_init(rt, ready(2));
    InitFuture::are_two(&mut one, &mut other);
    (one, other)
}
