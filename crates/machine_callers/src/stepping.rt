//! One step of a task over a core.
ghost use Rattle.std.specs.Prelude.{◌≡◌, true};
ghost use Rattle.once_machine.specs.Prelude.{in_call, Advances, Asks};
ghost use Rattle.once_script.specs.Core.{state_of, CanCall, DidCall};

use once_machine::step::{Progress, Side, Step};
use once_machine::waiters::WakerId;
use once_script::plain::Core;

/// A task makes one step of its call: the core and the side do what the table of places says of the place, and the task
/// goes on as that says. The clause is that of `Step::advance`, with what a core asks and tells.
pub fn make_step<W: WakerId + Drop, S: Side<W, Value = (), Right = ()>>(
    step: &mut Step<W, u64>,
    core: &mut Core<W>,
    side: &mut S,
) -> Progress
    requires call { in_call step.old ≡ true }
    requires asks { Asks (λ s c. CanCall s c) S.can_run S.can_put step.old core.old side.old }
    ensures { Advances (λ s e t. DidCall W.tells_same W.tells_other (state_of s) e (state_of t)) S.did
        step.old core.old side.old result step.new core.new side.new }
{
    step.advance(core, side)
}
