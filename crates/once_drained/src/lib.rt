//! Why nobody waits in vain: a world in which each task is polled that has a reason to be comes to rest.
//!
//! This says nothing of threads, of executors or of time. It is of records alone: each poll is made from its beginning
//! to its end, and no other meanwhile.
#![tactic(auto)]

mod record;
mod turn;

ghost use Rattle.std.specs.Prelude.{◌≡◌, ◌≢◌, ◌<◌, ℕ, IfOk, OnOk, None, true, false};
ghost use Rattle.once_machine.specs.Record.{Kind, is_lazy};
ghost use Rattle.once_machine.specs.Tasks.{all_gone, status, is_under_way};
ghost use Rattle.once_machine.specs.Machine.{step_of, is_finished as finished_at};
ghost use Rattle.once_machine.specs.declared.record.Ran.{Ran as Answer};
ghost use Rattle.once_script.specs.Reached.{IsReached};
ghost use Rattle.once_script.specs.WorldShown.{world_in};
ghost use Rattle.once_drained.specs.Drained.{IsWorldOf, record_of, HasReason, IsContinued, IsInitPending};
ghost use Rattle.once_drained.specs.Turn.{IsQuiet, IsAlone, HasAll};
ghost use Rattle.once_drained.specs.declared.Drained.{Drained as Outcome};

use crate::record::made;
use crate::turn::next;
use once_machine::step::Step;
use once_script::world::{Input, Ran, World};
use std::alloc::{AllocError, Global};

/// How a world was drained.
#[derive(Clone, Copy, Debug, PartialEq, Eq)]
pub enum Drained {
    /// Every task that was made is gone.
    All,
    /// This task rests with the right, and its init is pending.
    Pending(u64),
}

/// Ends the calls that are under way, and then polls each task that has a reason to be polled, one after the other. An
/// init that is polled gives `answer`; that of a lazy cell gives its own. A task that waits is polled only if it was
/// woken, so if a wake were lost, its task would be left. But whatever led to the world, none is.
///
/// `AllocError` says that the record or the world could not grow. Then the world may have been drained in part.
///
/// ```
/// let before = world.entries().len();
/// let drained = drain(alloc, &mut world, answer)?;
/// ```
pub fn drain(alloc: Global, world: &mut World, answer: Ran) -> Result<Drained, AllocError>
    requires reached { IsReached world.old }
    ensures world { (kind : Kind) (limit : ℕ) → IsWorldOf kind limit world.old
        → OnOk result (IsWorldOf kind limit world.new) }
    ensures continued { (kind : Kind) (limit : ℕ) → IsWorldOf kind limit world.old
        → OnOk result (IsContinued kind (record_of world.old) (record_of world.new)) }
    ensures idle { (kind : Kind) (limit u : ℕ) → IsWorldOf kind limit world.old
        → OnOk result (is_under_way (status kind u (record_of world.new)) ≡ false) }
    ensures all { (kind : Kind) (limit : ℕ) → IsWorldOf kind limit world.old
        → IfOk result (λ d. d ≡ Outcome.All → all_gone kind (record_of world.new) ≡ true) }
    ensures pending { (kind : Kind) (limit t : ℕ) → IsWorldOf kind limit world.old
        → IfOk result (λ d. d ≡ Outcome.Pending t → IsInitPending kind t (record_of world.new)) }
    ensures answered { (kind : Kind) (limit : ℕ) → IsWorldOf kind limit world.old
        → is_lazy kind ≡ false → answer ≢ Answer.Pending → IfOk result (λ d. d ≡ Outcome.All) }
{
    let all = made(alloc, world.entries())?;
    let tasks = all.as_slice();
    end_calls(world, tasks, answer)?;
    while let Some(task) = next(world, tasks) {
        if !poll(world, task, answer)? {
            return Ok(Drained::Pending(task));
        }
    }
    Ok(Drained::All)
}

// Ends the call of each of these tasks, if one is under way.
fn end_calls(world: &mut World, tasks: &[u64], answer: Ran) -> Result<(), AllocError>
    requires reached { IsReached world.old }
    requires tasks { HasAll tasks.now (world_in world.old) }
    ensures reached { OnOk result (IsReached world.new) }
    ensures world { (kind : Kind) (limit : ℕ) → IsWorldOf kind limit world.old
        → OnOk result (IsWorldOf kind limit world.new) }
    ensures continued { (kind : Kind) (limit : ℕ) → IsWorldOf kind limit world.old
        → OnOk result (IsContinued kind (record_of world.old) (record_of world.new)) }
    ensures tasks { OnOk result (HasAll tasks.now (world_in world.new)) }
    ensures quiet { OnOk result (IsQuiet (world_in world.new)) }
{
    for task in tasks {
        world.run(*task, answer, true, 16)?;
    }
    Ok(())
}

// Makes one poll of a task that rests, and says whether the task is finished. If not, its init is pending.
fn poll(world: &mut World, task: u64, answer: Ran) -> Result<bool, AllocError>
    requires reached { IsReached world.old }
    requires quiet { IsQuiet (world_in world.old) }
    requires alone { IsAlone task (world_in world.old) }
    requires reason { (kind : Kind) (limit : ℕ) → IsWorldOf kind limit world.old
        → HasReason kind task (record_of world.old) }
    ensures reached { OnOk result (IsReached world.new) }
    ensures world { (kind : Kind) (limit : ℕ) → IsWorldOf kind limit world.old
        → OnOk result (IsWorldOf kind limit world.new) }
    ensures continued { (kind : Kind) (limit : ℕ) → IsWorldOf kind limit world.old
        → OnOk result (IsContinued kind (record_of world.old) (record_of world.new)) }
    ensures tasks { (u : ℕ) → (world_in world.old).tasks u ≡ None → OnOk result ((world_in world.new).tasks u ≡ None) }
    ensures quiet { OnOk result (IsQuiet (world_in world.new)) }
    ensures fewer { IfOk result (λ over. over ≡ true
        → (world_in world.new).unfinished < (world_in world.old).unfinished) }
    ensures pending { (kind : Kind) (limit : ℕ) → IsWorldOf kind limit world.old
        → IfOk result (λ over. over ≡ false → IsInitPending kind task (record_of world.new)) }
    ensures answered { (kind : Kind) (limit : ℕ) → IsWorldOf kind limit world.old
        → is_lazy kind ≡ false → answer ≢ Answer.Pending → IfOk result (λ over. over ≡ true) }
{
    world.take(&Input::Poll(task, task))?;
    world.run(task, answer, true, 16)?;
    Ok(is_finished(world, task))
}

fn is_finished(world: &World, task: u64) -> bool
    ensures { result ≡ finished_at (step_of ((world_in world.now).tasks task)) }
{
    !matches!(
        world.step_of(task),
        Some(Step::Resting(_) | Step::UnderWay(_))
    )
}
