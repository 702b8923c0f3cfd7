//! Whole polls and drops of a task.
ghost use Rattle.std.specs.Prelude.{◌≡◌, ◌↔◌, ◌∷◌, [], false};
ghost use Rattle.async_once_cell.specs.Inner.Prelude.{Ending, GivesFit, Grew, IsReady, end_of};

use async_once_cell::inner::{Task, TaskSide, TaskWaker};
use async_once_cell::step::Ending;
use pagebook::Fits;
use std::alloc::AllocGlobal;
use std::sync::Wait;

/// What a task is to do.
pub enum Call {
    Poll,
    Leave,
}

/// A poll or a drop, as the caller says. Only a drop ends as `Dropped`. The newest entry of the record says that it
/// ended as is answered. Only a poll asks that the init is there.
pub fn called<T, W, R, V, S>(
    task: &mut Task<'_, '_, T, W, R, V>,
    side: &mut S,
    call: Call,
) -> Ending
where
    W: TaskWaker + Drop,
    R: Wait + AllocGlobal,
    V: Fits<T>,
    S: TaskSide<W, Value = T>,
    requires unfinished { task.old.finished ≡ false }
    requires its_own_side { (S.state side.old).number ≡ task.old.number }
    requires nobody_woken { (S.state side.old).woke ≡ [] }
    requires init { call ≡ Call.Poll → IsReady (S.state side.old) }
    requires fits { GivesFit S.hands S.has_slot V.fits side.old task.old.cell }
    ensures ends { Grew (end_of task.new.number result ∷ []) task.old.log task.new.log }
    ensures left { (call ≡ Call.Leave) ↔ (result ≡ Ending.Dropped) }
{
    match call {
        Call::Poll => task.poll(side),
        Call::Leave => {
            task.leave(side);
            Ending::Dropped
        }
    }
}
