//! Steps of a task of a cell, each a call of the parts that it shares.
ghost use Rattle.std.specs.Prelude.{◌≡◌, []};
ghost use Rattle.once_machine.specs.Prelude.{HasWaker};
ghost use Rattle.async_once_cell.specs.Inner.Prelude.{CanCall, CountIn, DidCall, Section, Was, Went, call_in, counted};
ghost use Rattle.async_once_cell.specs.Inner.Shares.{own};

use async_once_cell::inner::{Counted, Parts, Shared, TaskWaker};
use async_once_cell::queue::{Answer, Op};
use pagebook::Fits;
use std::alloc::AllocGlobal;
use std::sync::Wait;

/// A task counts in, or is told that as many are counted as may be. Its place is then the one that the table of places
/// has for this answer.
pub fn count_in<T, W, R, V>(parts: &mut Shared<'_, '_, T, W, R, V>) -> Counted
where
    W: TaskWaker + Drop,
    R: Wait + AllocGlobal,
    V: Fits<T>,
    requires place { call_in (own parts.old).task.step ≡ CountIn }
    ensures { Went (own parts.old) (counted result) [] (own parts.new) }
{
    parts.count_in()
}

/// One section under the lock. The record says whose wakers it hands out, and these are in the answer. If a task that
/// leaves passes its turn on, the record says that too.
pub fn section<T, W, R, V>(parts: &mut Shared<'_, '_, T, W, R, V>, op: &mut Op<W>) -> Answer<W>
where
    W: TaskWaker + Drop,
    R: Wait + AllocGlobal,
    V: Fits<T>,
    requires place { CanCall W.whose (own parts.old).task.step (Section tt op.old) }
    requires waker { HasWaker op.old }
    ensures { DidCall W.whose (own parts.old) (Was tt op.old result op.new) (own parts.new) }
{
    parts.section(&(), op)
}
