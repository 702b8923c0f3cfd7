//! The parts below the cells, by the paths that users write.

use crate::doubles::same;
use async_once_cell::inner::Parts;
use async_once_cell::queue::{Answer, Lists, MAX_WAITERS, NEW, Op};
use async_once_cell::step::Step;
use once_script::plain::Core;
use std::test::Fail;

// The first that comes to be listed gets the right, and the next waits.
#[test]
fn a_list(rt: HostRuntime) {
    let mut lists = Lists::new(rt.alloc());
    let answers = [7, 8].map(|waker| lists.list(&mut None, &mut Some(waker), NEW).0);
    same(&rt, "answers", answers, [Answer::Claimed, Answer::Listed]);
}

// A queue is put to the door of a new cell, and a look into it gets the right.
#[test]
fn a_core(rt: HostRuntime) -> Result<(), Fail> {
    let mut core = Core::<u64>::new(rt.alloc(), false, MAX_WAITERS);
    core.grant(true);
    core.reserve()?;
    let Some(queue) = core.door_put() else {
        return Err(Fail::new("no queue was put"));
    };
    core.reserve()?;
    let answer = core.section(&queue, &mut Op::Look(None));
    same(&rt, "answer", answer, Answer::Claimed);
    Ok(())
}

// A new step rests, and no step is left of it.
#[test]
fn a_step(rt: HostRuntime) {
    let step = Step::<u64, u64>::new();
    same(
        &rt,
        "a step, and room",
        (step.is_resting(), step.left(), MAX_WAITERS > 0),
        (true, 0, true),
    );
}
