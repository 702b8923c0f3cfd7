//! A cell and any number of tasks, replayed one step at a time.

ghost use Rattle.std.specs.Prelude.{◌≡◌, ◌<◌, ◌≤◌, ◌-◌, ◌^◌, ℕ, List, IfOk, true, false};
ghost use Rattle.once_machine.specs.Run.{IsRun, AtEvery, NobodyForgotten};
ghost use Rattle.once_machine.specs.Called.{SomebodyCalled, WaiterCalled};
ghost use Rattle.once_machine.specs.Values.{IsOneValue};
ghost use Rattle.once_machine.specs.Inputs.{Part, FallsInto, all_granted, ends_for_memory};
ghost use Rattle.once_machine.specs.Log.{IsLogOf, IsSound, standing_queue};
ghost use Rattle.once_machine.specs.Machine.{history_of, log_of, queue_of};
ghost use Rattle.once_machine.specs.Shown.{kind_of, inputs_in, record_entries, record_lines};

pub use once_machine::record::{Call, Entry, Got, Input, Kind, QueueLine, Ran, Record, Reply};
use std::alloc::{AllocError, Global};

mod cell;
mod play;
mod side;

pub use play::World;

/// Replays these inputs over a cell of this kind, in which at most `limit` tasks may be counted in. The record tells
/// each call, each answer and each waker handed out in their order, with the queue log beside it. An input that does
/// not fit is passed over. `AllocError` says that the record or the world could not grow; nothing else is refused.
pub fn replay(alloc: Global, kind: Kind, limit: u64, inputs: &[Input]) -> Result<Record, AllocError>
    requires some { 0 < limit }
    requires within { limit ≤ 2 ^ 62 - 2 }

    // The record, the queue log and the queue at the door are the machine's.
    ensures exact { IfOk result (λ r.
        record_entries r ≡ history_of (kind_of kind) limit (inputs_in inputs.now)) }
    ensures exact_log { IfOk result (λ r.
        record_lines r ≡ log_of (kind_of kind) limit (inputs_in inputs.now)) }
    ensures exact_queue { IfOk result (λ r.
        r.queue ≡ queue_of (kind_of kind) limit (inputs_in inputs.now)) }

    // The record is a run of the cell, of which the laws say more. While the cell is empty and a task waits, some task
    // was woken; one that waits, if no call is under way.
    ensures run { IfOk result (λ r. IsRun (kind_of kind) limit (record_entries r)) }
    ensures nobody_forgotten { IfOk result (λ r.
        AtEvery (NobodyForgotten (kind_of kind)) (record_entries r)) }
    ensures one_is_called { IfOk result (λ r.
        AtEvery (SomebodyCalled (kind_of kind)) (record_entries r)) }
    ensures idle { IfOk result (λ r. AtEvery (WaiterCalled (kind_of kind)) (record_entries r)) }
    ensures one_value { IfOk result (λ r. IsOneValue (kind_of kind) (record_entries r)) }

    // It belongs to the inputs, and the log falls into the same parts.
    ensures belongs { IfOk result (λ r. (parts : List Part)
        × FallsInto (kind_of kind) (inputs_in inputs.now) (record_entries r) parts
        × IsLogOf (kind_of kind) (record_lines r) parts) }

    // If every step is given memory no call ends for want of it.
    ensures ample { all_granted (inputs_in inputs.now) ≡ true
        → IfOk result (λ r. (t : ℕ) → ends_for_memory t (record_entries r) ≡ false) }

    // A queue is entered only while it stands at the door, and never after it was taken out.
    ensures sound { IfOk result (λ r. IsSound (record_lines r)) }
    ensures stands { IfOk result (λ r. standing_queue (record_lines r) ≡ r.queue) }
{
    let mut world = World::new(alloc, kind, limit);
    for input in inputs {
        world.take(input)?;
    }
    Ok(world.into_record())
}
