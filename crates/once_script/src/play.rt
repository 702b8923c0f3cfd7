//! The lines of a script, replayed.
ghost use Rattle.std.specs.Prelude.{◌≡◌, ◌<◌, ◌≤◌, ◌-◌, ◌^◌, ◌++◌, ℕ, List, IfOk, OnOk};
ghost use Rattle.once_machine.specs.Inputs.{Input as MachineInput};
ghost use Rattle.once_machine.specs.Machine.{history_of, log_of, queue_of};
ghost use Rattle.once_script.specs.Reached.{IsAfter, IsReached};
ghost use Rattle.once_machine.specs.Record.{Kind as MachineKind};
ghost use Rattle.once_machine.specs.Shown.{kind_of, inputs_in, record_entries, record_lines};
ghost use Rattle.once_script.specs.Text.{inputs_of, all_inputs};

use crate::parse::{Line, RUN_STEPS};
use crate::world::{Kind, Record, World};
use std::alloc::{AllocError, Global};

/// Replays the lines of a script after the first, which gave the kind and the limit. The record is that
/// of `replay` for the inputs that the lines stand for.
///
/// `AllocError` says that the record or the world could not grow.
///
/// ```
/// let record = replay_lines(alloc, kind, limit, &lines)?;
/// print_record(alloc, &record, output)?;
/// ```
pub fn replay_lines(
    alloc: Global,
    kind: Kind,
    limit: u64,
    lines: &[Line],
) -> Result<Record, AllocError>
    requires some { 0 < limit }
    requires within { limit ≤ 2 ^ 62 - 2 }
    ensures exact { IfOk result (λ r.
        record_entries r ≡ history_of (kind_of kind) limit (inputs_in (all_inputs lines.now))) }
    ensures exact_log { IfOk result (λ r.
        record_lines r ≡ log_of (kind_of kind) limit (inputs_in (all_inputs lines.now))) }
    ensures exact_queue { IfOk result (λ r.
        r.queue ≡ queue_of (kind_of kind) limit (inputs_in (all_inputs lines.now))) }
{
    let mut world = World::new(alloc, kind, limit);
    for line in lines {
        take_line(&mut world, line)?;
    }
    Ok(world.into_record())
}

/// Takes the inputs that a line stands for.
///
/// `AllocError` says what it says of `World::take`.
///
/// ```
/// let mut world = World::new(alloc, kind, limit);
/// for line in lines {
///     take_line(&mut world, line)?;
/// }
/// Ok(world.into_record())
/// ```
pub fn take_line(world: &mut World, line: &Line) -> Result<(), AllocError>
    requires reached { IsReached world.old }
    ensures reached { OnOk result (IsReached world.new) }
    ensures after { (kind : MachineKind) (limit : ℕ) (inputs : List MachineInput)
        → IsAfter kind limit inputs world.old
        → OnOk result (IsAfter kind limit (inputs_in (inputs_of line.now) ++ inputs) world.new) }
{
    match line {
        Line::Single(input) => world.take(input),
        Line::Run(task, answer, granted) => world.run(*task, *answer, *granted, RUN_STEPS),
    }
}
