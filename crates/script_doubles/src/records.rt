//! Records of replays at random.

ghost use Rattle.std.specs.Prelude.{◌<◌, ◌≤◌};

use crate::chance::Chance;
use once_script::parse::record::RecordText;
use once_script::world::{Call, Input, Kind, Ran, replay};
use std::alloc::{AllocError, Global};

/// The record of a replay at random, which may begin with a crowd.
pub fn record(
    alloc: Global,
    chance: &mut Chance,
    is_crowded: bool,
) -> Result<RecordText, AllocError> {
    let limit = limit(chance);
    let mut inputs = Vec::new(alloc);
    for task in 1..4u64 {
        inputs.push(Input::Make(task))?;
    }
    if is_crowded {
        crowd(chance, &mut inputs)?;
    }
    let kind = kind(alloc, chance)?;
    for _ in 0..45 {
        inputs.push(input(alloc, chance)?)?;
    }
    let copy = copied(alloc, &kind)?;
    let entries = replay(alloc, copy, limit, &inputs)?.entries;
    Ok(RecordText {
        kind,
        limit,
        entries,
    })
}

fn limit(chance: &mut Chance) -> u64
    ensures some { 0 < result }
    ensures within { result ≤ 3 }
{
    match chance.draw(3) {
        0 => 1,
        1 => 2,
        _ => 3,
    }
}

// Has the tasks polled one after another until each holds or waits, and then the first one fail or leave.
fn crowd(chance: &mut Chance, inputs: &mut Vec<Input>) -> Result<(), AllocError> {
    for task in 1..4u64 {
        inputs.push(Input::Poll(task, waker(chance)))?;
        for _ in 0..15 {
            inputs.push(Input::Go(task, Ran::Pending, true))?;
        }
    }
    inputs.push(match chance.draw(2) {
        0 => Input::Poll(1, 7),
        _ => Input::Drop(1),
    })?;
    for _ in 0..9 {
        inputs.push(Input::Go(1, Ran::Error(5), true))?;
    }
    Ok(())
}

fn kind(alloc: Global, chance: &mut Chance) -> Result<Kind, AllocError> {
    Ok(match chance.draw(5) {
        0 => Kind::OnceWith(4),
        1 => Kind::Lazy(vec![in alloc; None, Some(9)]?),
        2 => Kind::LazyWith(3),
        _ => Kind::Once,
    })
}

fn copied(alloc: Global, kind: &Kind) -> Result<Kind, AllocError> {
    Ok(match kind {
        Kind::Once => Kind::Once,
        Kind::OnceWith(value) => Kind::OnceWith(*value),
        Kind::Lazy(answers) => Kind::Lazy(Vec::from_slice(alloc, answers)?),
        Kind::LazyWith(value) => Kind::LazyWith(*value),
    })
}

fn input(alloc: Global, chance: &mut Chance) -> Result<Input, AllocError> {
    let task = task(chance);
    Ok(match chance.draw(24) {
        0 => Input::Make(task),
        1..=4 => Input::Poll(task, waker(chance)),
        5 | 6 => Input::Drop(task),
        7 => Input::Look,
        8 => Input::Own(call(alloc, chance)?),
        _ => Input::Go(task, answer(chance), chance.draw(6) != 0),
    })
}

/// One of the three tasks.
pub fn task(chance: &mut Chance) -> u64 {
    chance.draw(3).saturating_add(1)
}

/// One of the three wakers.
pub fn waker(chance: &mut Chance) -> u64 {
    chance.draw(3).saturating_add(7)
}

/// What an init answers.
pub fn answer(chance: &mut Chance) -> Ran {
    match chance.draw(4) {
        0 => Ran::Value(6),
        1 => Ran::Error(5),
        _ => Ran::Pending,
    }
}

/// A call of the owner.
pub fn call(alloc: Global, chance: &mut Chance) -> Result<Call, AllocError> {
    Ok(match chance.draw(5) {
        0 => Call::Take,
        1 => Call::Write(8),
        2 => Call::Parts,
        3 => Call::ReplaceValue(2),
        _ => Call::ReplaceAnswers(vec![in alloc; Some(1)]?),
    })
}
