//! Whose turn it is in a world in which no call is under way.
ghost use Rattle.std.specs.Prelude.{◌≡◌, ◌≢◌, ℕ, IfSome, None, true, false};
ghost use Rattle.once_machine.specs.Numbers.{member};
ghost use Rattle.once_machine.specs.Record.{Kind};
ghost use Rattle.once_machine.specs.Tasks.{all_gone};
ghost use Rattle.once_machine.specs.Machine.{step_of};
ghost use Rattle.once_script.specs.Reached.{IsReached};
ghost use Rattle.once_script.specs.WorldShown.{world_in};
ghost use Rattle.once_drained.specs.Drained.{IsWorldOf, record_of, HasReason};
ghost use Rattle.once_drained.specs.Turn.{rests_holding as holds_at, is_awake as awake_at, is_woken};
ghost use Rattle.once_drained.specs.Turn.{IsQuiet, IsAlone, HasAll};

use crate::record::was_woken;
use once_machine::step::{Rest, Step};
use once_script::world::World;

/// The task that rests with the right, if there is one, and else one that was never polled, or that waits and was
/// woken. If there is none, every task is gone.
pub fn next(world: &World, tasks: &[u64]) -> Option<u64>
    requires reached { IsReached world.now }
    requires quiet { IsQuiet (world_in world.now) }
    requires tasks { HasAll tasks.now (world_in world.now) }
    ensures reason { IfSome result (λ t. (kind : Kind) (limit : ℕ) → IsWorldOf kind limit world.now
        → HasReason kind t (record_of world.now)) }
    ensures alone { IfSome result (λ t. IsAlone t (world_in world.now)) }
    ensures none { result ≡ None → (kind : Kind) (limit : ℕ) → IsWorldOf kind limit world.now
        → all_gone kind (record_of world.now) ≡ true }
{
    match holder(world, tasks) {
        Some(task) => Some(task),
        None => awake(world, tasks),
    }
}

// A task of these that rests with the right.
fn holder(world: &World, tasks: &[u64]) -> Option<u64>
    ensures some { IfSome result (λ t. holds_at (step_of ((world_in world.now).tasks t)) ≡ true) }
    ensures none { result ≡ None → (u : ℕ) → member u tasks.now ≡ true
        → holds_at (step_of ((world_in world.now).tasks u)) ≡ false }
{
    for task in tasks {
        if rests_holding(world, *task) {
            return Some(*task);
        }
    }
    None
}

// A task of these that was never polled, or that waits and was woken.
fn awake(world: &World, tasks: &[u64]) -> Option<u64>
    ensures some { IfSome result (λ t. (kind : Kind)
        → awake_at (step_of ((world_in world.now).tasks t)) (is_woken kind t (record_of world.now)) ≡ true) }
    ensures none { result ≡ None → (u : ℕ) → member u tasks.now ≡ true → (kind : Kind)
        → awake_at (step_of ((world_in world.now).tasks u)) (is_woken kind u (record_of world.now)) ≡ false }
{
    for task in tasks {
        if is_awake(world, *task) {
            return Some(*task);
        }
    }
    None
}

fn rests_holding(world: &World, task: u64) -> bool
    ensures { result ≡ holds_at (step_of ((world_in world.now).tasks task)) }
{
    matches!(world.step_of(task), Some(Step::Resting(Rest::Run(_))))
}

fn is_awake(world: &World, task: u64) -> bool
    ensures { (kind : Kind) → result
        ≡ awake_at (step_of ((world_in world.now).tasks task)) (is_woken kind task (record_of world.now)) }
{
    match world.step_of(task) {
        Some(step) => is_awake_at(step, was_woken(world.entries(), task)),
        None => false,
    }
}

fn is_awake_at(step: &Step<u64, u64>, woken: bool) -> bool
    ensures { result ≡ awake_at step.now woken }
{
    match step {
        Step::Resting(Rest::Start) => true,
        Step::Resting(Rest::Wait(_, _)) => woken,
        _ => false,
    }
}
