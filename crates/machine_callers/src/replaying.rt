//! The record of a list of inputs, and a replay that takes them one at a time.
ghost use Rattle.std.specs.Prelude.{◌≡◌, ◌<◌, ◌≤◌, ◌-◌, ◌^◌, ◌∷◌, ◌++◌, ℕ, List, IfOk, OnOk, replicate, true};
ghost use Rattle.once_machine.specs.Inputs.{Input as Taken, Go};
ghost use Rattle.once_machine.specs.Machine.{history_of, log_of, queue_of};
ghost use Rattle.once_machine.specs.Record.{Kind as RecordedKind};
ghost use Rattle.once_machine.specs.Shown.{input_of, inputs_in, kind_of, record_entries, record_lines};
ghost use Rattle.once_machine.specs.declared.record.Ran.{Ran};
ghost use Rattle.once_script.specs.Reached.{IsAfter, IsReached};

use once_script::world::{self, Input, Kind, Ran, Record, World};
use std::alloc::{AllocError, Global};

/// The record of these inputs: its entries, its queue log and the queue at the door are those of the machine. The three
/// clauses are of `replay`, whose other clauses say what follows for any record.
pub fn replay(alloc: Global, kind: Kind, limit: u64, inputs: &[Input]) -> Result<Record, AllocError>
    requires some { 0 < limit }
    requires within { limit ≤ 2 ^ 62 - 2 }
    ensures entries { IfOk result (λ r.
        record_entries r ≡ history_of (kind_of kind) limit (inputs_in inputs.now)) }
    ensures log { IfOk result (λ r.
        record_lines r ≡ log_of (kind_of kind) limit (inputs_in inputs.now)) }
    ensures queue { IfOk result (λ r.
        r.queue ≡ queue_of (kind_of kind) limit (inputs_in inputs.now)) }
{
    world::replay(alloc, kind, limit, inputs)
}

/// A replay takes one input more.
pub fn take(world: &mut World, input: &Input) -> Result<(), AllocError>
    requires { IsReached world.old }
    ensures { (kind : RecordedKind) (limit : ℕ) (inputs : List Taken) → IsAfter kind limit inputs world.old
        → OnOk result (IsAfter kind limit (input_of input.now ∷ inputs) world.new) }
{
    world.take(input)
}

/// A task makes so many steps, with memory for each. Its init answers Pending.
pub fn run(world: &mut World, task: u64, steps: u64) -> Result<(), AllocError>
    requires { IsReached world.old }
    ensures { (kind : RecordedKind) (limit : ℕ) (inputs : List Taken) → IsAfter kind limit inputs world.old
        → OnOk result (IsAfter kind limit (replicate steps (Go task Ran.Pending true) ++ inputs) world.new) }
{
    world.run(task, Ran::Pending, true, steps)
}
